ghost use Rattle.std.specs.Prelude.{◌≡◌, ◌∷◌, []};
ghost use Rattle.ix_extension.specs.Extensions.{view_extension};
ghost use Rattle.ix_extension.specs.WellFormed.{IsWellFormed};
ghost use Rattle.ix_sheet.specs.Sheets.{IsValidSheet};
ghost use Rattle.ix_schedules.specs.Scheduling.{AreNamed};
ghost use Rattle.ix_words.specs.declared.command.Command.{Command as TheCommand};
ghost use Rattle.ix_words.specs.Readings.{extension_read, sheet_read};
ghost use Rattle.ix_tool.specs.CommandOutput.{Answered};

use crate::tool::{finish, refuse};
use ix_io::Sink;
use ix_modules::modules_text;
use ix_sheet::Sheet;
use ix_tree::Extension;
use ix_words::status::Status;
use std::alloc::Global;

/// Writes the Verilog text of the modules of an extension on the core of a datasheet, or the refusal of its first behaviour that is not scheduled.
pub(crate) fn build_extension<S: Sink>(
    alloc: Global,
    extension: &Extension,
    sheet: &Sheet,
    sink: &mut S,
) -> Status
    requires well_formed { IsWellFormed extension.now }
    requires named { AreNamed (view_extension extension.now) }
    requires sheet { IsValidSheet sheet.now }
    ensures { Answered TheCommand.Build (extension_read (view_extension extension.now) ∷ sheet_read sheet.now ∷ []) (S.written sink.old) (S.written sink.new) (S.faults sink.old) (S.faults sink.new) result }
{
    match modules_text(alloc, extension, sheet) {
        Ok(text) => finish(sink, Status::Ok, text.as_slice()),
        Err(error) => refuse(error, sink),
    }
}

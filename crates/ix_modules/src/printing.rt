ghost use Rattle.std.specs.Prelude.{IfOk, IfErr};
ghost use Rattle.ix_extension.specs.Extensions.{view_extension};
ghost use Rattle.ix_extension.specs.WellFormed.{IsWellFormed};
ghost use Rattle.ix_sheet.specs.Sheets.{IsValidSheet};
ghost use Rattle.ix_schedules.specs.Scheduling.{AreNamed};
ghost use Rattle.ix_schedules.specs.ScheduleText.{IsRefusedText};
ghost use Rattle.ix_modules.specs.Modules.{IsModulesText};

use crate::laws::modules_laws;
use ix_bits::List;
use ix_design::build;
use ix_schedules::{TextErr, refusal_text};
use ix_sheet::Sheet;
use ix_standing::served;
use ix_tree::Extension;
use ix_vprint::print;
use std::alloc::Global;

/// The Verilog text of the modules of an extension on the core of a datasheet, those of the instructions and then of the always-blocks, in source order: each
/// serves its behaviour by the chosen schedule in the mode of the rule. For each behaviour its graph is made and then its schedule, before the next behaviour;
/// the first that has too many operations, or no legal schedule in its widest windows, is the refusal.
pub fn modules_text(alloc: Global, ext: &Extension, sheet: &Sheet) -> Result<List<u8>, TextErr>
    requires well_formed { IsWellFormed ext.now }
    requires named { AreNamed (view_extension ext.now) }
    requires sheet { IsValidSheet sheet.now }
    ensures text { IfOk result (IsModulesText (view_extension ext.now) sheet.now) }
    ensures refused { IfErr result (IsRefusedText (view_extension ext.now) sheet.now) }
{
    served();
    modules_laws();
    match build(alloc, ext, sheet) {
        Ok(built) => Ok(print(alloc, built.nets.as_slice())?),
        Err(error) => Err(refusal_text(alloc, ext, sheet, error)),
    }
}

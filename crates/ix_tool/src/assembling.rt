ghost use Rattle.std.specs.Prelude.{◌≡◌, ◌∷◌, [], ◌≤◌, length, ◌⊎◌};
ghost use Rattle.ix_io.specs.Limits.{most_bytes};
ghost use Rattle.ix_extension.specs.Extensions.{view_extension};
ghost use Rattle.rv_asm.specs.ImageText.{image_text};
ghost use Rattle.ix_words.specs.declared.command.Command.{Command as TheCommand};
ghost use Rattle.ix_words.specs.Readings.{extension_read, source_read};
ghost use Rattle.ix_tool.specs.CommandOutput.{Writes, Answered, source_text};

use crate::tool::finish;
use ix_bits::List;
use ix_io::Sink;
use ix_tree::Extension;
use ix_words::status::Status;
use rv_asm::{AsmErr, assemble, print_image};
use rv_isa::Image;
use std::alloc::Global;

/// Writes the text of an image.
fn write_image<S: Sink>(alloc: Global, image: &Image, sink: &mut S) -> Status
    ensures { ((result ≡ Status.Memory) × (S.written sink.new ≡ S.written sink.old))
        ⊎ Writes Status.Ok (image_text image.now) (S.written sink.old) (S.written sink.new) (S.faults sink.old) (S.faults sink.new) result }
{
    match print_image(alloc, image) {
        Ok(text) => finish(sink, Status::Ok, text.as_slice()),
        Err(_) => Status::Memory,
    }
}

/// Writes the refusal of a line of a source.
fn refuse_line<S: Sink>(alloc: Global, kind: &str, at: u32, sink: &mut S) -> Status
    ensures { ((result ≡ Status.Memory) × (S.written sink.new ≡ S.written sink.old))
        ⊎ Writes Status.Source (source_text kind.now at) (S.written sink.old) (S.written sink.new) (S.faults sink.old) (S.faults sink.new) result }
{
    match format!(in alloc; "refused Source {kind} {at}\n") {
        Ok(line) => finish(sink, Status::Source, line.as_bytes()),
        Err(_) => Status::Memory,
    }
}

/// Writes the image of a source with the instructions of an extension, or the refusal of its first line that fails.
pub(crate) fn assemble_source<S: Sink>(
    alloc: Global,
    extension: &Extension,
    source: &List<u8>,
    sink: &mut S,
) -> Status
    requires { length source.now ≤ most_bytes }
    ensures { Answered TheCommand.Assemble (extension_read (view_extension extension.now) ∷ source_read source.now ∷ []) (S.written sink.old) (S.written sink.new) (S.faults sink.old) (S.faults sink.new) result }
{
    assemble_bytes(alloc, extension, source.as_slice(), sink)
}

fn assemble_bytes<S: Sink>(
    alloc: Global,
    extension: &Extension,
    source: &[u8],
    sink: &mut S,
) -> Status
    requires { length source.now ≤ most_bytes }
    ensures { Answered TheCommand.Assemble (extension_read (view_extension extension.now) ∷ source_read source.now ∷ []) (S.written sink.old) (S.written sink.new) (S.faults sink.old) (S.faults sink.new) result }
{
    match assemble(alloc, extension, source) {
        Ok(image) => write_image(alloc, &image, sink),
        Err(AsmErr::Line { at }) => refuse_line(alloc, "Line", at, sink),
        Err(AsmErr::Label { at }) => refuse_line(alloc, "Label", at, sink),
        Err(AsmErr::Reach { at }) => refuse_line(alloc, "Reach", at, sink),
        Err(AsmErr::Size { at }) => refuse_line(alloc, "Size", at, sink),
        Err(AsmErr::Memory) => Status::Memory,
    }
}

ghost use Rattle.std.specs.Prelude.{◌≡◌, ◌+◌, ◌≤◌, ◌++◌, [], length, OnOk, OnErr};
ghost use Rattle.ix_io.specs.Faults.{Rose};
ghost use Rattle.ix_io.specs.Sink.{AppendsFront};
ghost use Rattle.ix_dump.specs.Parts.{Passes};

use ix_io::{Out, Sink, WriteErr};

/// Sends what waits in the buffer where there is not room for a line of 256 bytes.
pub fn make_room<S: Sink>(out: &mut Out, sink: &mut S) -> Result<(), WriteErr>
    ensures whole { OnOk result (Passes (S.written sink.old) (S.written sink.new) out.old out.new []) }
    ensures room { OnOk result (length out.new + 256 ≤ 65536) }
    ensures front { OnErr result (AppendsFront (S.written sink.old) (S.written sink.new) out.old) }
    ensures fault { OnErr result (Rose (S.faults sink.old) (S.faults sink.new)) }
    ensures never_fell { S.faults sink.old ≤ S.faults sink.new }
{
    if out.room() < 256 {
        out.flush(sink)
    } else {
        Ok(())
    }
}

/// Writes a text of at most 256 bytes, but for what stays in the buffer.
pub fn write_text<S: Sink>(text: &str, out: &mut Out, sink: &mut S) -> Result<(), WriteErr>
    requires { length text.now ≤ 256 }
    ensures whole { OnOk result (Passes (S.written sink.old) (S.written sink.new) out.old out.new text.now) }
    ensures front { OnErr result (AppendsFront (S.written sink.old) (S.written sink.new) (out.old ++ text.now)) }
    ensures fault { OnErr result (Rose (S.faults sink.old) (S.faults sink.new)) }
    ensures never_fell { S.faults sink.old ≤ S.faults sink.new }
{
    make_room(out, sink)?;
    out.text(text);
    Ok(())
}

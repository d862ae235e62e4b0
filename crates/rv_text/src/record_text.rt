ghost use Rattle.std.specs.Prelude.{◌≡◌, ◌+◌, ◌≤◌, ◌++◌, length};
ghost use Rattle.rv_text.specs.RunText.{step_line, stop_line};

use ix_io::Out;
use rv_seq::{Commit, Stop};
use rv_trace::{put_retired, put_stop};

/// Appends the line of a step: its number, and the address, the word and the writes of its instruction. Needs room for 684 bytes, and takes
/// no memory.
pub fn put_step(out: &mut Out, number: u32, commit: &Commit)
    requires { length out.old + 684 ≤ 65536 }
    ensures text { out.new ≡ out.old ++ step_line number commit.now }
    ensures few { length out.new ≤ length out.old + 684 }
{
    put_retired(out, Some((number, *commit)));
}

/// Appends the line of a stop. Needs room for 16 bytes, and takes no memory.
pub fn put_stop_line(out: &mut Out, stop: Stop)
    requires { length out.old + 16 ≤ 65536 }
    ensures text { out.new ≡ out.old ++ stop_line stop }
    ensures few { length out.new ≤ length out.old + 16 }
{
    out.text("stop ");
    put_stop(out, stop);
    out.text("\n");
}

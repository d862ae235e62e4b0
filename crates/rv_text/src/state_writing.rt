ghost use Rattle.std.specs.Prelude.{◌≡◌, ℕ, ◌+◌, ◌≤◌, ◌++◌, List, [], length, OnOk, OnErr};
ghost use Rattle.ix_io.specs.Faults.{Rose};
ghost use Rattle.rv_text.specs.RunText.{head_text, memory_lines, state_text};
ghost use Rattle.ix_extension.specs.Extensions.{ExtensionTree};
ghost use Rattle.rv_text.specs.Telling.{Carries, Breaks};

use crate::state_text::{put_head, put_memory_word};
use ix_io::{Out, Sink, WriteErr};
use rv_memory::RandomAccess;
use rv_seq::Arch;
use rv_trace::Target;

/// Writes what is buffered where there is not room for a line.
pub fn make_room<S: Sink>(out: &mut Out, sink: &mut S) -> Result<(), WriteErr>
    ensures carries { OnOk result ((rest : List ℕ) → Carries (S.written sink.old) out.old rest (S.written sink.new) out.new rest) }
    ensures room { OnOk result (length out.new + 2048 ≤ 65536) }
    ensures breaks { OnErr result ((rest : List ℕ) → Breaks (S.written sink.old) out.old rest (S.written sink.new)) }
    ensures fault { OnErr result (Rose (S.faults sink.old) (S.faults sink.new)) }
    ensures never_fell { S.faults sink.old ≤ S.faults sink.new }
{
    if out.room() < 2048 {
        out.flush(sink)
    } else {
        Ok(())
    }
}

/// Writes the lines of the memory, but for what stays in the buffer.
pub fn write_memory<S: Sink>(
    memory: &RandomAccess,
    out: &mut Out,
    sink: &mut S,
) -> Result<(), WriteErr>
    ensures carries { OnOk result ((rest : List ℕ) → Carries (S.written sink.old) out.old (memory_lines memory.now 262144 0 ++ rest) (S.written sink.new) out.new rest) }
    ensures breaks { OnErr result ((rest : List ℕ) → Breaks (S.written sink.old) out.old (memory_lines memory.now 262144 0 ++ rest) (S.written sink.new)) }
    ensures fault { OnErr result (Rose (S.faults sink.old) (S.faults sink.new)) }
    ensures never_fell { S.faults sink.old ≤ S.faults sink.new }
{
    for word in 0..0x4_0000u32 {
        match make_room(out, sink) {
            Ok(()) => put_memory_word(out, memory, word),
            Err(error) => return Err(error),
        }
    }
    Ok(())
}

// Writes the first lines of the state, but for what stays in the buffer.
fn write_head<S: Sink>(
    registers: usize,
    outstanding: &[(u32, Target)],
    arch: &Arch,
    out: &mut Out,
    sink: &mut S,
) -> Result<(), WriteErr>
    requires few { registers ≤ 16 }
    requires outstanding { length outstanding.now ≤ 48 }
    ensures carries { OnOk result ((rest : List ℕ) → Carries (S.written sink.old) out.old (head_text registers outstanding.now arch.now ++ rest) (S.written sink.new) out.new rest) }
    ensures breaks { OnErr result ((rest : List ℕ) → Breaks (S.written sink.old) out.old rest (S.written sink.new)) }
    ensures fault { OnErr result (Rose (S.faults sink.old) (S.faults sink.new)) }
    ensures never_fell { S.faults sink.old ≤ S.faults sink.new }
{
    match make_room(out, sink) {
        Ok(()) => {
            put_head(out, arch, registers, outstanding);
            Ok(())
        }
        Err(error) => Err(error),
    }
}

/// Writes the lines of the state, which has so many custom registers, 0 to 16, and these outstanding writes, at most 48.
pub fn write_state<S: Sink>(
    registers: usize,
    outstanding: &[(u32, Target)],
    arch: &Arch,
    out: &mut Out,
    sink: &mut S,
) -> Result<(), WriteErr>
    requires few { registers ≤ 16 }
    requires outstanding { length outstanding.now ≤ 48 }
    ensures carries { OnOk result ((x : ExtensionTree) → length x.registers ≡ registers → Carries (S.written sink.old) out.old (state_text x outstanding.now arch.now) (S.written sink.new) out.new []) }
    ensures breaks { OnErr result ((x : ExtensionTree) → length x.registers ≡ registers → Breaks (S.written sink.old) out.old (state_text x outstanding.now arch.now) (S.written sink.new)) }
    ensures fault { OnErr result (Rose (S.faults sink.old) (S.faults sink.new)) }
    ensures never_fell { S.faults sink.old ≤ S.faults sink.new }
{
    match write_head(registers, outstanding, arch, out, sink) {
        Ok(()) => write_memory(&arch.mem, out, sink),
        Err(error) => Err(error),
    }
}

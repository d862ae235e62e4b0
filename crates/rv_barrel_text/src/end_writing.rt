ghost use Rattle.std.specs.Prelude.{◌≡◌, ℕ, ◌+◌, ◌≤◌, ◌++◌, List, codes, length, OnOk, OnErr};
ghost use Rattle.ix_io.specs.Faults.{Rose};
ghost use Rattle.ix_extension.specs.Extensions.{ExtensionTree};
ghost use Rattle.rv_text.specs.RunText.{head_lines, memory_lines};
ghost use Rattle.rv_text.specs.Telling.{Carries, Completes, Breaks};
ghost use Rattle.rv_barrel_text.specs.BarrelRowText.{hart_text};
ghost use Rattle.rv_barrel_text.specs.BarrelText.{hart_state_text};

use crate::row_text::put_hart;
use ix_io::{Out, Sink, WriteErr};
use ix_plan::Target;
use rv_seq::Arch;
use rv_text::{make_room, put_head_lines, write_memory};

// Appends the first lines of the state of a hart, up to those of its memory.
fn put_head(out: &mut Out, hart: u8, arch: &Arch, registers: usize, outstanding: &[(u32, Target)])
    requires few { registers ≤ 16 }
    requires outstanding { length outstanding.now ≤ 48 }
    requires room { length out.old + 1966 ≤ 65536 }
    ensures text { out.new ≡ out.old ++ (codes "state " ++ hart_text hart ++ codes "\n" ++ head_lines registers outstanding.now arch.now) }
{
    out.text("state ");
    put_hart(out, hart);
    out.text("\n");
    put_head_lines(out, arch, registers, outstanding);
}

// Writes the first lines of the state of a hart, but for what stays in the buffer.
fn write_head<S: Sink>(
    hart: u8,
    registers: usize,
    outstanding: &[(u32, Target)],
    arch: &Arch,
    out: &mut Out,
    sink: &mut S,
) -> Result<(), WriteErr>
    requires few { registers ≤ 16 }
    requires outstanding { length outstanding.now ≤ 48 }
    ensures carries { OnOk result ((rest : List ℕ) → Carries (S.written sink.old) out.old ((codes "state " ++ hart_text hart ++ codes "\n" ++ head_lines registers outstanding.now arch.now) ++ rest) (S.written sink.new) out.new rest) }
    ensures breaks { OnErr result ((rest : List ℕ) → Breaks (S.written sink.old) out.old rest (S.written sink.new)) }
    ensures fault { OnErr result (Rose (S.faults sink.old) (S.faults sink.new)) }
    ensures never_fell { S.faults sink.old ≤ S.faults sink.new }
{
    match make_room(out, sink) {
        Ok(()) => {
            put_head(out, hart, arch, registers, outstanding);
            Ok(())
        }
        Err(error) => Err(error),
    }
}

// Writes the lines of the state of a hart, but for what stays in the buffer. It has so many custom registers, 0 to 16, and these outstanding writes, at most 48.
fn write_end<S: Sink>(
    hart: u8,
    registers: usize,
    outstanding: &[(u32, Target)],
    arch: &Arch,
    out: &mut Out,
    sink: &mut S,
) -> Result<(), WriteErr>
    requires few { registers ≤ 16 }
    requires outstanding { length outstanding.now ≤ 48 }
    ensures carries { OnOk result ((x : ExtensionTree) (rest : List ℕ) → length x.registers ≡ registers → Carries (S.written sink.old) out.old (hart_state_text hart x outstanding.now arch.now ++ rest) (S.written sink.new) out.new rest) }
    ensures breaks { OnErr result ((x : ExtensionTree) (rest : List ℕ) → length x.registers ≡ registers → Breaks (S.written sink.old) out.old (hart_state_text hart x outstanding.now arch.now ++ rest) (S.written sink.new)) }
    ensures fault { OnErr result (Rose (S.faults sink.old) (S.faults sink.new)) }
    ensures never_fell { S.faults sink.old ≤ S.faults sink.new }
{
    match write_head(hart, registers, outstanding, arch, out, sink) {
        Ok(()) => write_memory(&arch.mem, out, sink),
        Err(error) => Err(error),
    }
}

/// Writes the lines of the states of both harts, each with these outstanding writes, at most 48, and all that is buffered. Each has so many custom registers, 0 to 16.
pub fn write_ends<S: Sink>(
    registers: usize,
    outstanding: &[(u32, Target)],
    arch: &Arch,
    other_outstanding: &[(u32, Target)],
    other_arch: &Arch,
    out: &mut Out,
    sink: &mut S,
) -> Result<(), WriteErr>
    requires few { registers ≤ 16 }
    requires outstanding { length outstanding.now ≤ 48 }
    requires other_outstanding { length other_outstanding.now ≤ 48 }
    ensures whole { OnOk result ((x : ExtensionTree) → length x.registers ≡ registers → Completes (S.written sink.old) out.old (hart_state_text 0 x outstanding.now arch.now ++ hart_state_text 1 x other_outstanding.now other_arch.now) (S.written sink.new)) }
    ensures front { OnErr result ((x : ExtensionTree) → length x.registers ≡ registers → Breaks (S.written sink.old) out.old (hart_state_text 0 x outstanding.now arch.now ++ hart_state_text 1 x other_outstanding.now other_arch.now) (S.written sink.new)) }
    ensures fault { OnErr result (Rose (S.faults sink.old) (S.faults sink.new)) }
{
    match write_end(0, registers, outstanding, arch, out, sink) {
        Ok(()) => write_last(registers, other_outstanding, other_arch, out, sink),
        Err(error) => Err(error),
    }
}

// Writes the lines of the state of the second hart, and all that is buffered.
fn write_last<S: Sink>(
    registers: usize,
    outstanding: &[(u32, Target)],
    arch: &Arch,
    out: &mut Out,
    sink: &mut S,
) -> Result<(), WriteErr>
    requires few { registers ≤ 16 }
    requires outstanding { length outstanding.now ≤ 48 }
    ensures whole { OnOk result ((x : ExtensionTree) → length x.registers ≡ registers → Completes (S.written sink.old) out.old (hart_state_text 1 x outstanding.now arch.now) (S.written sink.new)) }
    ensures front { OnErr result ((x : ExtensionTree) → length x.registers ≡ registers → Breaks (S.written sink.old) out.old (hart_state_text 1 x outstanding.now arch.now) (S.written sink.new)) }
    ensures fault { OnErr result (Rose (S.faults sink.old) (S.faults sink.new)) }
{
    match write_end(1, registers, outstanding, arch, out, sink) {
        Ok(()) => out.flush(sink),
        Err(error) => Err(error),
    }
}

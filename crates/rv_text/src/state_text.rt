ghost use Rattle.std.specs.Prelude.{◌≡◌, ◌+◌, ◌*◌, ◌<◌, ◌≤◌, ◌^◌, ◌++◌, length, take, decimal, codes};
ghost use Rattle.std.specs.List.{flat_map};
ghost use Rattle.rv_text.specs.RunText.{custom_line, custom_lines, flag_text, head_lines, head_text, memory_word, outstanding_line, trap_text, word_line};

use ix_bits::Bits;
use ix_io::Out;
use rv_memory::{BASE, RandomAccess};
use rv_seq::{Arch, TrapState};
use rv_trace::{Target, put_number, put_registers, put_small, put_target, put_word};

// Appends the line of a custom register.
fn put_custom(out: &mut Out, number: u8, value: Bits)
    requires number { number < 16 }
    requires room { length out.old + 38 ≤ 65536 }
    ensures text { out.new ≡ out.old ++ custom_line number value }
    ensures few { length out.new ≤ length out.old + 38 }
{
    out.text("c");
    put_small(out, number);
    out.text(" ");
    out.hex(value, (value.width + 3) / 4);
    out.text("\n");
}

// Appends the lines of these custom registers.
fn put_customs(out: &mut Out, custom: &[Bits])
    requires few { length custom.now ≤ 16 }
    requires room { length out.old + 608 ≤ 65536 }
    ensures text { out.new ≡ out.old ++ custom_lines 0 custom.now }
    ensures few { length out.new ≤ length out.old + 38 * length custom.now }
{
    for number in 0..custom.len() {
        put_custom(out, number as u8, custom[number]);
    }
}

// Appends 1 for true and 0 for false.
fn put_flag(out: &mut Out, is_set: bool)
    requires { length out.old + 1 ≤ 65536 }
    ensures text { out.new ≡ out.old ++ flag_text is_set }
    ensures few { length out.new ≤ length out.old + 1 }
{
    if is_set {
        out.text("1");
    } else {
        out.text("0");
    }
}

// Appends the lines of a trap state, if there is one.
fn put_trap(out: &mut Out, trap: Option<TrapState>)
    requires { length out.old + 23 ≤ 65536 }
    ensures text { out.new ≡ out.old ++ trap_text trap }
    ensures few { length out.new ≤ length out.old + 23 }
{
    if let Some(state) = trap {
        out.text("epc ");
        put_word(out, state.epc);
        out.text("\nenabled ");
        put_flag(out, state.enabled);
        out.text("\n");
    }
}

// Appends the line of an outstanding write.
fn put_outstanding_line(out: &mut Out, serial: u32, target: Target)
    requires { length out.old + 18 ≤ 65536 }
    ensures text { out.new ≡ out.old ++ outstanding_line (serial, target) }
    ensures few { length out.new ≤ length out.old + 18 }
{
    out.text("o ");
    put_number(out, serial);
    out.text(" ");
    put_target(out, target);
    out.text("\n");
}

// Appends the lines of outstanding writes.
fn put_outstanding(out: &mut Out, outstanding: &[(u32, Target)])
    requires few { length outstanding.now ≤ 48 }
    requires room { length out.old + 864 ≤ 65536 }
    ensures text { out.new ≡ out.old ++ flat_map outstanding_line outstanding.now }
    ensures few { length out.new ≤ length out.old + 18 * length outstanding.now }
{
    for (serial, target) in outstanding {
        put_outstanding_line(out, *serial, *target);
    }
}

/// Appends the lines of a state behind its first one and before those of its memory: the pc, the trap state, if there is one, each x register that is not 0, the extension's custom
/// registers, at most 16, and the outstanding writes, at most 48. Needs room for 1,958 bytes, and takes no memory.
pub fn put_head_lines(out: &mut Out, arch: &Arch, registers: usize, outstanding: &[(u32, Target)])
    requires few { registers ≤ 16 }
    requires outstanding { length outstanding.now ≤ 48 }
    requires room { length out.old + 1958 ≤ 65536 }
    ensures text { out.new ≡ out.old ++ head_lines registers outstanding.now arch.now }
    ensures few { length out.new ≤ length out.old + 1958 }
{
    out.text("pc ");
    put_word(out, arch.pc);
    out.text("\n");
    put_trap(out, arch.trap);
    put_registers(out, &arch.x);
    put_customs(out, &arch.custom[..registers]);
    put_outstanding(out, outstanding);
}

/// Appends the first lines of a state, up to those of its memory. Needs room for 1,964 bytes, and takes no memory.
pub fn put_head(out: &mut Out, arch: &Arch, registers: usize, outstanding: &[(u32, Target)])
    requires few { registers ≤ 16 }
    requires outstanding { length outstanding.now ≤ 48 }
    requires room { length out.old + 1964 ≤ 65536 }
    ensures text { out.new ≡ out.old ++ head_text registers outstanding.now arch.now }
    ensures few { length out.new ≤ length out.old + 1964 }
{
    out.text("state\n");
    put_head_lines(out, arch, registers, outstanding);
}

/// Appends the line of an aligned word of the memory, from 0 to 262,143, where it is not 0. Needs room for 20 bytes, and takes no memory.
pub fn put_memory_word(out: &mut Out, memory: &RandomAccess, word: u32)
    requires word { word < 262144 }
    requires room { length out.old + 20 ≤ 65536 }
    ensures text { out.new ≡ out.old ++ memory_word memory.now word }
    ensures few { length out.new ≤ length out.old + 20 }
{
    let at = BASE + 4 * word;
    let value = memory.read(at, 4);
    if value != 0 {
        out.text("m ");
        put_word(out, at);
        out.text(" ");
        put_word(out, value);
        out.text("\n");
    }
}

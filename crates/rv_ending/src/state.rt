ghost use Rattle.std.specs.Prelude.{◌≡◌, ◌+◌, ◌≤◌, ◌<◌, ◌^◌, ◌++◌, ℕ, List, [], length, get_or, slice_get, Some, false, IfOk};
ghost use Rattle.std.specs.List.{flat_map};
ghost use Rattle.ix_extension.specs.Extensions.{ExtensionTree};
ghost use Rattle.rv_text.specs.RunText.{outstanding_line, memory_word, memory_lines, state_text};
ghost use Rattle.rv_ending.specs.Differing.{IsCompared, TellsDiffering, HasRoom};
ghost use Rattle.rv_ending.specs.Owed.{owed_pairs, x_part, custom_part, customs_from, owed_lines, AreSixteen};

use crate::compare::Compared;
use ix_bits::Memory;
use ix_io::{Out, SureSink};
use ix_plan::Target;
use rv_memory::RandomAccess;
use rv_rows::Owed;
use rv_seq::Arch;
use rv_text::{put_head, put_memory_word};
use rv_trace::{put_number, put_target};
use std::alloc::Global;

// Compares what is in the buffer, and empties it.
fn pass(compared: Compared, text: &[u8], out: &mut Out, past: &mut SureSink) -> Compared
    requires room { HasRoom text.now compared }
    ensures room { HasRoom text.now result }
    ensures empty { out.new ≡ [] }
    ensures compared { (first : ℕ) (so_far : List ℕ) → IsCompared first text.now so_far compared → IsCompared first text.now (so_far ++ out.old) result }
{
    let next = compared.with(text, out.bytes());
    empty(out, past);
    next
}

// Empties the buffer.
fn empty(out: &mut Out, past: &mut SureSink)
    ensures { out.new ≡ [] }
{
    match out.flush(past) {
        Ok(()) => {}
        Err(_) => unreachable!(),
    }
}

// The line of an outstanding write.
fn target(
    compared: Compared,
    text: &[u8],
    out: &mut Out,
    past: &mut SureSink,
    serial: u32,
    target: Target,
) -> Compared
    requires empty { out.old ≡ [] }
    requires room { HasRoom text.now compared }
    ensures room { HasRoom text.now result }
    ensures empty { out.new ≡ [] }
    ensures compared { (first : ℕ) (so_far : List ℕ) → IsCompared first text.now so_far compared → IsCompared first text.now (so_far ++ outstanding_line (serial, target)) result }
{
    out.text("o ");
    put_number(out, serial);
    out.text(" ");
    put_target(out, target);
    out.text("\n");
    pass(compared, text, out, past)
}

// Does the `spawn` body write this custom register?
fn is_spawned(one: &Owed, number: u8) -> bool
    requires { number < 16 }
    ensures { result ≡ get_or one.now.asks.spawned_customs number false }
{
    one.asks.spawned_customs[usize::from(number)]
}

// The line of a custom register, where its write is outstanding.
fn custom(
    compared: Compared,
    text: &[u8],
    out: &mut Out,
    past: &mut SureSink,
    one: &Owed,
    number: u8,
) -> Compared
    requires number { number < 16 }
    requires empty { out.old ≡ [] }
    requires room { HasRoom text.now compared }
    ensures room { HasRoom text.now result }
    ensures empty { out.new ≡ [] }
    ensures compared { (first : ℕ) (so_far : List ℕ) → IsCompared first text.now so_far compared → IsCompared first text.now (so_far ++ custom_part one.now number) result }
{
    if is_spawned(one, number) {
        target(
            compared,
            text,
            out,
            past,
            one.serial,
            Target::Custom(number),
        )
    } else {
        compared
    }
}

// The lines of the custom registers whose writes are outstanding.
fn customs(
    compared: Compared,
    text: &[u8],
    out: &mut Out,
    past: &mut SureSink,
    one: &Owed,
) -> Compared
    requires empty { out.old ≡ [] }
    requires room { HasRoom text.now compared }
    ensures room { HasRoom text.now result }
    ensures empty { out.new ≡ [] }
    ensures compared { (first : ℕ) (so_far : List ℕ) → IsCompared first text.now so_far compared → IsCompared first text.now (so_far ++ customs_from one.now 0 16) result }
{
    let mut so_far = compared;
    for number in 0..16u8 {
        so_far = custom(so_far, text, out, past, one, number);
    }
    so_far
}

// The line of the x register, where its write is outstanding.
fn register(
    compared: Compared,
    text: &[u8],
    out: &mut Out,
    past: &mut SureSink,
    one: &Owed,
) -> Compared
    requires empty { out.old ≡ [] }
    requires room { HasRoom text.now compared }
    ensures room { HasRoom text.now result }
    ensures empty { out.new ≡ [] }
    ensures compared { (first : ℕ) (so_far : List ℕ) → IsCompared first text.now so_far compared → IsCompared first text.now (so_far ++ x_part one.now.serial one.now.asks.spawned) result }
{
    match one.asks.spawned {
        None => compared,
        Some(number) => target(compared, text, out, past, one.serial, Target::X(number)),
    }
}

// The lines of the registers of an instruction whose writes are outstanding.
fn lines_of(
    compared: Compared,
    text: &[u8],
    out: &mut Out,
    past: &mut SureSink,
    one: &Owed,
) -> Compared
    requires empty { out.old ≡ [] }
    requires room { HasRoom text.now compared }
    ensures room { HasRoom text.now result }
    ensures empty { out.new ≡ [] }
    ensures compared { (first : ℕ) (so_far : List ℕ) → IsCompared first text.now so_far compared → IsCompared first text.now (so_far ++ owed_lines one.now) result }
{
    let with_x = register(compared, text, out, past, one);
    customs(with_x, text, out, past, one)
}

// The one of this number.
fn one_at(owed: &[Owed], at: usize) -> &Owed
    requires { at < length owed.now }
    ensures { slice_get owed.now at ≡ Some result.now }
{
    &owed[at]
}

// The lines of what is outstanding.
fn all_owed(
    compared: Compared,
    text: &[u8],
    out: &mut Out,
    past: &mut SureSink,
    owed: &[Owed],
) -> Compared
    requires empty { out.old ≡ [] }
    requires room { HasRoom text.now compared }
    ensures room { HasRoom text.now result }
    ensures empty { out.new ≡ [] }
    ensures compared { (first : ℕ) (so_far : List ℕ) → IsCompared first text.now so_far compared → IsCompared first text.now (so_far ++ flat_map owed_lines owed.now) result }
{
    let mut so_far = compared;
    for at in 0..owed.len() {
        let one = one_at(owed, at);
        so_far = lines_of(so_far, text, out, past, one);
    }
    so_far
}

// The line of a word of the memory.
fn word_line(
    compared: Compared,
    text: &[u8],
    out: &mut Out,
    past: &mut SureSink,
    memory: &RandomAccess,
    word: u32,
) -> Compared
    requires word { word < 262144 }
    requires empty { out.old ≡ [] }
    requires room { HasRoom text.now compared }
    ensures room { HasRoom text.now result }
    ensures empty { out.new ≡ [] }
    ensures compared { (first : ℕ) (so_far : List ℕ) → IsCompared first text.now so_far compared → IsCompared first text.now (so_far ++ memory_word memory.now word) result }
{
    put_memory_word(out, memory, word);
    if out.bytes().is_empty() {
        return compared;
    }
    pass(compared, text, out, past)
}

// The lines of the memory.
fn words(
    compared: Compared,
    text: &[u8],
    out: &mut Out,
    past: &mut SureSink,
    memory: &RandomAccess,
) -> Compared
    requires empty { out.old ≡ [] }
    requires room { HasRoom text.now compared }
    ensures compared { (first : ℕ) (so_far : List ℕ) → IsCompared first text.now so_far compared → IsCompared first text.now (so_far ++ memory_lines memory.now 262144 0) result }
{
    let mut so_far = compared;
    for word in 0..0x4_0000u32 {
        so_far = word_line(so_far, text, out, past, memory, word);
    }
    so_far
}

/// The line in which the end of a trace, whose first line has this number, first differs from the
/// text of the state with so many custom registers, at most 16, and with what is outstanding, the
/// oldest first; none where it is that text. The text has so few lines that their numbers fit 32
/// bits.
pub fn differing_line(
    alloc: Global,
    text: &[u8],
    first: u32,
    registers: usize,
    owed: &[Owed],
    arch: &Arch,
) -> Result<Option<u32>, Memory>
    requires few { registers ≤ 16 }
    requires lines { first + length text.now < 2 ^ 32 }
    ensures line { IfOk result (λ line. (x : ExtensionTree) → length x.registers ≡ registers → AreSixteen owed.now → TellsDiffering first text.now (state_text x (flat_map owed_pairs owed.now) arch.now) line) }
{
    let mut out = Out::new(alloc)?;
    let mut past = SureSink::new(alloc, 0)?;
    put_head(&mut out, arch, registers, &[]);
    let head = pass(Compared::new(first), text, &mut out, &mut past);
    let outstanding = all_owed(head, text, &mut out, &mut past, owed);
    let whole = words(outstanding, text, &mut out, &mut past, &arch.mem);
    Ok(whole.differs(text))
}

ghost use Rattle.std.specs.Prelude.{◌≡◌};
ghost use Rattle.rv_seq.specs.Commits.{IsStoredInside, x_index, x_slot, slot_of as specified_slot_of, slots_of as specified_slots_of, commit_of as specified_commit_of, with_x, with_slot, with_customs, with_store, applied};

use crate::arch::Arch;
use crate::commit::{Commit, Slot};
use crate::decoding::rd_of;
use ix_bits::Bits;
use ix_eval::{Access, Effect};
use rv_memory::RandomAccess;

// What is written to x register rd; x0 is not written.
fn x_write(rd: u8, value: Option<u32>) -> (u8, Slot<u32>)
    ensures index { result.0 ≡ x_index rd value }
    ensures slot { result.1 ≡ x_slot rd value }
{
    match value {
        Some(value) if rd != 0 => (rd, Slot::Now(value)),
        _ => (0, Slot::Absent),
    }
}

// What is written to a custom register.
fn slot_of(value: Option<Bits>) -> Slot<Bits>
    ensures { result ≡ specified_slot_of value }
{
    match value {
        Some(value) => Slot::Now(value),
        None => Slot::Absent,
    }
}

// Puts what is written to the custom registers.
fn put_slots(values: &[Option<Bits>; 16], slots: &mut [Slot<Bits>; 16])
    ensures { slots.new ≡ specified_slots_of values.now }
{
    for number in 0..16usize {
        slots[number] = slot_of(values[number]);
    }
}

/// The writes of the instruction of a word at an address, which with the always-blocks has this effect.
#[tactic(auto, unfolding(crate::specs::Commits::commit_of))]
pub fn commit_of(at: u32, word: u32, effect: &Effect) -> Commit
    ensures { result ≡ specified_commit_of at word effect.now }
{
    let (rd_index, rd) = x_write(rd_of(word), effect.rd);
    let mut commit = Commit {
        at,
        word,
        rd_index,
        rd,
        custom: [Slot::Absent; 16],
        store: effect.store,
        next: effect.pc.unwrap_or(at.wrapping_add(4)),
    };
    put_slots(&effect.custom, &mut commit.custom);
    commit
}

/// Writes an x register. A slot without a value writes nothing, nor does a number past the last register.
pub fn put_x(x: &mut [u32], rd: u8, slot: Slot<u32>)
    ensures { x.new ≡ with_x x.old rd slot }
{
    if let Slot::Now(value) = slot {
        let rd = usize::from(rd);
        if rd < x.len() {
            x[rd] = value;
        }
    }
}

/// Writes a custom register. A slot without a value writes nothing.
pub fn put_custom(register: &mut Bits, slot: &Slot<Bits>)
    ensures { register.new ≡ with_slot register.old slot.now }
{
    if let Slot::Now(value) = slot {
        *register = *value;
    }
}

/// Writes the custom registers.
pub fn put_customs(file: &mut [Bits; 16], slots: &[Slot<Bits>; 16])
    ensures { file.new ≡ with_customs file.old slots.now }
{
    for number in 0..16usize {
        put_custom(&mut file[number], &slots[number]);
    }
}

/// Stores, where there is a store, which lies in the memory.
pub fn put_store(memory: &mut RandomAccess, store: Option<(Access, u32)>)
    requires { IsStoredInside store }
    ensures { memory.new ≡ with_store memory.old store }
{
    if let Some((access, value)) = store {
        memory.write(access.at, access.bytes, value);
    }
}

/// Makes the writes of a commit whose store lies in the memory.
#[tactic(auto, unfolding(crate::specs::Commits::applied))]
pub fn apply(arch: &mut Arch, commit: &Commit)
    requires { IsStoredInside commit.now.store }
    ensures { arch.new ≡ applied commit.now arch.old }
{
    arch.pc = commit.next;
    put_x(&mut arch.x, commit.rd_index, commit.rd);
    put_customs(&mut arch.custom, &commit.custom);
    put_store(&mut arch.mem, commit.store);
}

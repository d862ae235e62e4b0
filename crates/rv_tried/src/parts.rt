ghost use Rattle.std.specs.Prelude.{◌≡◌, ◌&&◌, if◌then◌else◌};
ghost use Rattle.rv_seq.specs.declared.commit.Slot.TheVariants.{Absent, Later};
ghost use Rattle.rv_seq.specs.Commits.{IsStoredInside, applied, slot_of as specified_slot_of, with_customs, with_slot, with_x};
ghost use Rattle.rv_tried.specs.Parts as specified;

use ix_bits::Bits;
use rv_asks::Asks;
use rv_seq::{Arch, Commit, Slot, put_custom, put_store, put_x};

/// What a `spawn` body writes when its turn comes.
#[derive(Clone, Copy, Debug, PartialEq, Eq)]
pub struct Spawned {
    /// The x register that is written, 1 to 31; 0 where none is.
    pub rd_index: u8,
    pub rd: Slot<u32>,
    pub custom: [Slot<Bits>; 16],
}

// Has a retirement show a custom register as written later, where a `spawn` body writes it.
fn put_later(is_spawned: bool, slot: &mut Slot<Bits>)
    ensures { slot.new ≡ (if is_spawned then Later else slot.old) }
{
    if is_spawned {
        *slot = Slot::Later;
    }
}

// What a retirement shows of the custom registers, in place of what is written to them.
fn show_customs(spawned: &[bool; 16], slots: &mut [Slot<Bits>; 16])
    ensures { slots.new ≡ specified.shown_customs spawned.now slots.old }
{
    for number in 0..16usize {
        put_later(spawned[number], &mut slots[number]);
    }
}

/// The record of a step as its retirement shows it: what a `spawn` body writes comes later, whatever its condition.
#[tactic(auto, unfolding(crate::specs::Parts::shown))]
pub fn shown(asks: &Asks, commit: &Commit) -> Commit
    ensures { result ≡ specified.shown asks.now commit.now }
{
    let mut record = *commit;
    show_customs(&asks.spawned_customs, &mut record.custom);
    if let Some(rd_index) = asks.spawned {
        record.rd_index = rd_index;
        record.rd = Slot::Later;
    }
    record
}

// Writes what is written to an x register at retirement: nothing, where a `spawn` body writes one.
fn put_native_x(x: &mut [u32], spawned: Option<u8>, rd: u8, slot: Slot<u32>)
    ensures { x.new ≡ with_x x.old (specified.native_index spawned rd) (specified.native_x spawned slot) }
{
    if spawned.is_none() {
        put_x(x, rd, slot);
    }
}

// Writes a custom register as blocks do.
fn put_block(register: &mut Bits, block: &Option<Bits>)
    ensures { register.new ≡ with_slot register.old (specified_slot_of block.now) }
{
    if let Some(value) = block {
        *register = *value;
    }
}

// Writes what is written to a custom register at retirement, where the blocks write this to it.
fn put_native(register: &mut Bits, is_spawned: bool, block: &Option<Bits>, slot: &Slot<Bits>)
    ensures { register.new ≡ with_slot register.old (if is_spawned then specified_slot_of block.now else slot.now) }
{
    if is_spawned {
        put_block(register, block);
    } else {
        put_custom(register, slot);
    }
}

// Writes what is written to the custom registers at retirement.
fn put_natives(
    file: &mut [Bits; 16],
    spawned: &[bool; 16],
    blocks: &[Option<Bits>; 16],
    slots: &[Slot<Bits>; 16],
)
    ensures { file.new ≡ with_customs file.old (specified.native_customs spawned.now blocks.now slots.now) }
{
    for number in 0..16usize {
        put_native(
            &mut file[number],
            spawned[number],
            &blocks[number],
            &slots[number],
        );
    }
}

/// Makes the writes of retirement: all of a commit, whose store lies in the memory, but the writes of the `spawn` body, where the always-blocks write these custom registers.
#[tactic(auto, unfolding(crate::specs::Parts::native, rv_seq::specs::Commits::applied))]
pub fn apply_native(arch: &mut Arch, asks: &Asks, blocks: &[Option<Bits>; 16], commit: &Commit)
    requires { IsStoredInside commit.now.store }
    ensures { arch.new ≡ applied (specified.native asks.now blocks.now commit.now) arch.old }
{
    arch.pc = commit.next;
    put_native_x(&mut arch.x, asks.spawned, commit.rd_index, commit.rd);
    put_natives(
        &mut arch.custom,
        &asks.spawned_customs,
        blocks,
        &commit.custom,
    );
    put_store(&mut arch.mem, commit.store);
}

// What a `spawn` body writes to a custom register, where the instruction itself writes it.
fn spawned_slot(is_spawned: bool, is_own: bool, slot: Slot<Bits>) -> Slot<Bits>
    ensures { result ≡ (if is_spawned && is_own then slot else Absent) }
{
    if is_spawned && is_own {
        slot
    } else {
        Slot::Absent
    }
}

// What a `spawn` body writes to the custom registers.
fn spawned_customs(
    spawned: &[bool; 16],
    own: &[bool; 16],
    slots: &[Slot<Bits>; 16],
) -> [Slot<Bits>; 16]
    ensures { result ≡ specified.spawned_customs spawned.now own.now slots.now }
{
    let mut all = [Slot::Absent; 16];
    for number in 0..16usize {
        all[number] = spawned_slot(spawned[number], own[number], slots[number]);
    }
    all
}

/// What the `spawn` body writes, where the instruction itself writes these custom registers.
#[tactic(auto, unfolding(crate::specs::Parts::spawned))]
pub fn spawn_writes(asks: &Asks, own: &[bool; 16], commit: &Commit) -> Spawned
    ensures { result ≡ specified.spawned asks.now own.now commit.now }
{
    let custom = spawned_customs(&asks.spawned_customs, own, &commit.custom);
    match asks.spawned {
        None => Spawned {
            rd_index: 0,
            rd: Slot::Absent,
            custom,
        },
        Some(_) => Spawned {
            rd_index: commit.rd_index,
            rd: commit.rd,
            custom,
        },
    }
}

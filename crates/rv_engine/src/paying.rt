ghost use Rattle.std.specs.Option.{option_copied};
ghost use Rattle.std.specs.Prelude.{◌≡◌, ◌<◌, Some, None, length, IfSome};
ghost use Rattle.ix_extension.specs.Extensions.{view_extension};
ghost use Rattle.ix_extension.specs.WellFormed.{IsWellFormed};
ghost use Rattle.rv_seq.specs.declared.commit.Slot.TheVariants.{Absent};
ghost use Rattle.rv_tried.specs.Parts.{native, paid};
ghost use Rattle.rv_holds.specs.Holds.{least_from};
ghost use Rattle.rv_engine.specs.Owing.{holder, holder_for, board_of as specified_board_of, paying, port_serial as specified_port_serial, port_hold as specified_port_hold, retiring_hold as specified_retiring_hold};
ghost use Rattle.rv_engine.specs.Rows.{going, native_of, written_of as specified_written_of, file_paid, arch_retired, arch_paid};
ghost use Rattle.rv_lawful.specs.Future.{with_writes};
ghost use Rattle.rv_engine.specs.Kept.{AreStoredInside};

use crate::owing::{Owed, Owing};
use ix_bits::Bits;
use ix_tree::Extension;
use rv_asks::Asks;
use rv_holds::{Token, does_spawn, does_touch};
use rv_seq::{Arch, Commit, Slot, StepAnswer, is_return, put_customs, put_x, resume};
use rv_trace::Hold;
use rv_tried::{Spawned, apply_native, spawn_writes};

/// The oldest of these whose `spawn` body writes this register.
fn holder_of(owed: &[Owed], number: u8) -> Option<u32>
    requires { number < 48 }
    ensures { result ≡ holder number owed.now }
{
    let mut found = None;
    for one in owed {
        if does_spawn(&one.asks, number) {
            found = Some(one.serial);
        }
    }
    found
}

/// The same, where the instruction touches the register.
fn holder_touched(owed: &[Owed], asks: &Asks, number: u8) -> Option<u32>
    requires { number < 48 }
    ensures { result ≡ holder_for owed.now asks.now number }
{
    if does_touch(asks, number) {
        holder_of(owed, number)
    } else {
        None
    }
}

/// The least register that the instruction touches and one of these owes, with the oldest that does.
pub fn board_of(owed: &[Owed], asks: &Asks) -> Option<(u8, u32)>
    ensures { result ≡ specified_board_of owed.now asks.now }
{
    if owed.is_empty() {
        return None;
    }
    for number in 0..48 {
        let found = holder_touched(owed, asks, number);
        if let Some(serial) = found {
            return Some((number, serial));
        }
    }
    None
}

/// The serial that writes an x register, where one does.
pub fn port_serial(paying: Option<&Owed>) -> Option<u32>
    ensures { result ≡ specified_port_serial (option_copied paying.entry) }
{
    match paying {
        Some(owed) if owed.asks.spawned.is_some() => Some(owed.serial),
        _ => None,
    }
}

/// The hold of an instruction that writes this x register, where this serial takes the port.
fn port_hold(taker: Option<u32>, destination: u8) -> Option<Hold>
    ensures { result ≡ specified_port_hold taker destination }
{
    match taker {
        Some(serial) if destination != 0 => Some(Hold::Port(serial)),
        _ => None,
    }
}

/// Why an instruction cannot retire beside the units: its own is frozen, or another takes the port.
pub fn retiring_hold(owing: &Owing, taker: Option<u32>, asks: &Asks) -> Option<Hold>
    requires taker { taker ≡ specified_port_serial (paying owing.now) }
    requires unit { IfSome asks.now.unit (λ unit. unit < length owing.now.lasts) }
    ensures { result ≡ specified_retiring_hold owing.now asks.now }
{
    match owing.unit_hold(asks.unit) {
        None => port_hold(taker, asks.destination),
        hold => hold,
    }
}

/// Makes what an instruction writes at retirement, where the always-blocks write these custom registers.
#[tactic(auto, unfolding(rv_tried::specs::Parts::native))]
fn retire_one(
    ext: &Extension,
    asks: &Asks,
    blocks: &[Option<Bits>; 16],
    commit: &Commit,
    arch: &mut Arch,
)
    requires well_formed { IsWellFormed ext.now }
    requires stored { AreStoredInside (Some (native asks.now blocks.now commit.now)) }
    ensures { arch.new ≡ arch_retired (view_extension ext.now) (Some (native asks.now blocks.now commit.now)) arch.old }
{
    apply_native(arch, asks, blocks, commit);
    if is_return(ext, commit.word) {
        resume(arch);
    }
}

/// Makes the writes of the token that goes out of the last stage, of which this is the slot, where one does.
pub fn retire(ext: &Extension, slot: &Option<Token>, arch: &mut Arch)
    requires well_formed { IsWellFormed ext.now }
    requires stored { AreStoredInside (native_of (going slot.now)) }
    ensures { arch.new ≡ arch_retired (view_extension ext.now) (native_of (going slot.now)) arch.old }
{
    if let Some(token) = slot {
        if token.cell.hold.is_none() {
            if let Some(trial) = &token.trial {
                if let StepAnswer::Done(commit) = &trial.answer {
                    retire_one(ext, &token.asks, &trial.blocks, commit, arch);
                }
            }
        }
    }
}

/// Shows what a unit writes, where one does and a row shows nothing yet.
pub fn show_written(
    paying: Option<&Owed>,
    written: &mut Option<(u32, u8, Slot<u32>, [Slot<Bits>; 16])>,
)
    requires { written.old ≡ None }
    ensures { written.new ≡ specified_written_of (option_copied paying.entry) }
{
    if let Some(owed) = paying {
        *written = Some((
            owed.serial,
            owed.writes.rd_index,
            owed.writes.rd,
            owed.writes.custom,
        ));
    }
}

/// Makes the writes of a `spawn` body.
#[tactic(auto, unfolding(rv_tried::specs::Parts::paid))]
fn pay(writes: &Spawned, arch: &mut Arch)
    ensures { arch.new ≡ paid writes.now arch.old }
{
    put_x(&mut arch.x, writes.rd_index, writes.rd);
    put_customs(&mut arch.custom, &writes.custom);
}

/// Makes what a unit writes, if one does, in the registers and in the future file.
pub fn pay_all(paying: Option<&Owed>, future: &mut [Bits; 16], arch: &mut Arch)
    ensures future { future.new ≡ file_paid (option_copied paying.entry) future.old }
    ensures arch { arch.new ≡ arch_paid (option_copied paying.entry) arch.old }
{
    if let Some(owed) = paying {
        put_customs(future, &owed.writes.custom);
        pay(&owed.writes, arch);
    }
}

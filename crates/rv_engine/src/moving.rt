ghost use Rattle.std.specs.Prelude.{◌≡◌, ◌+◌, ◌-◌, ◌<◌, ◌^◌, ◌&&◌, None, false, is_some, length, get_or, slice_set, option_map, if◌then◌else◌};
ghost use Rattle.std.specs.Option.{option_map_or};
ghost use Rattle.rv_seq.specs.declared.commit.Slot.TheVariants.{Absent};
ghost use Rattle.rv_seq.specs.Commits.{slot_of as specified_slot_of, with_slot};
ghost use Rattle.rv_holds.specs.Tokens.{commit_of as specified_commit_of};
ghost use Rattle.rv_engine.specs.Rows.{tail_after as specified_tail_after, waited, going, kept, advanced, leaving, with_serial, retired_of, trial_early, trial_late, file_early, file_late, accesses_after, stood_after};
ghost use Rattle.rv_lawful.specs.Future.{early_write, late_write, with_writes};

use ix_bits::Bits;
use rv_asks::Asks;
use rv_holds::{Token, access_of};
use rv_seq::{Commit, Slot, StepAnswer, put_custom};
use rv_trace::Hold;
use rv_tried::shown;

/// For how many rows a module goes on after a row with this hold, where it went on for so many.
fn tail_after(hold: Option<Hold>, tail: u8) -> u8
    ensures { result ≡ specified_tail_after hold tail }
{
    match hold {
        Some(Hold::Tail(_)) => tail.saturating_sub(1),
        _ => tail,
    }
}

/// Takes a row from the tail of a token that stays.
fn stay(token: &mut Token)
    ensures { token.new ≡ waited token.old }
{
    token.tail = tail_after(token.cell.hold, token.tail);
}

/// The same for the token of a slot, where one is there.
fn stay_in(slot: &mut Option<Token>)
    ensures { slot.new ≡ option_map waited slot.old }
{
    if let Some(token) = slot {
        stay(token);
    }
}

/// Whether the token of a slot stays, where one is there.
fn is_held(slot: &Option<Token>) -> bool
    ensures { result ≡ option_map_or (λ t. is_some t.cell.hold) slot.now false }
{
    match slot {
        None => false,
        Some(token) => token.cell.hold.is_some(),
    }
}

/// Frees a stage. A slot is large, and one that is free is left as it is.
fn free(slot: &mut Option<Token>)
    ensures { slot.new ≡ None }
{
    if slot.is_some() {
        *slot = None;
    }
}

/// Puts what goes on from the stage before into a stage.
fn come_at(slots: &mut [Option<Token>], stage: usize)
    requires before { 0 < stage }
    requires inside { stage < length slots.old }
    ensures { slots.new ≡ slice_set slots.old stage (going (get_or slots.old (stage - 1) None)) }
{
    let before = stage - 1;
    if slots[before].is_none() || is_held(&slots[before]) {
        free(&mut slots[stage]);
    } else {
        slots[stage] = slots[before];
    }
}

/// Moves what goes on from the stage before into a stage, unless its own token stays.
fn move_at(slots: &mut [Option<Token>], stage: usize)
    requires before { 0 < stage }
    requires inside { stage < length slots.old }
    ensures { slots.new ≡ slice_set slots.old stage (kept (going (get_or slots.old (stage - 1) None)) (get_or slots.old stage None)) }
{
    if is_held(&slots[stage]) {
        stay_in(&mut slots[stage]);
    } else {
        come_at(slots, stage);
    }
}

/// Moves the token of a slot away, unless it stays.
fn leave(slot: &mut Option<Token>)
    ensures { slot.new ≡ kept None slot.old }
{
    if is_held(slot) {
        stay_in(slot);
    } else {
        free(slot);
    }
}

/// Moves the tokens, the oldest first.
pub fn advance(slots: &mut [Option<Token>])
    requires { 0 < length slots.old }
    ensures { slots.new ≡ advanced None slots.old }
{
    for stage in (1..slots.len()).rev() {
        move_at(slots, stage);
    }
    leave(&mut slots[0]);
}

/// The slot of the last stage, out of which a token goes.
pub fn last(slots: &[Option<Token>]) -> &Option<Token>
    requires { 0 < length slots.now }
    ensures { going result.now ≡ leaving None slots.now }
{
    &slots[slots.len() - 1]
}

/// Shows what a token retires, with its serial, where it was tried and makes no stop, and where a row shows nothing yet.
fn show_retired_by(token: &Token, retired: &mut Option<(u32, Commit)>)
    requires { retired.old ≡ None }
    ensures { retired.new ≡ with_serial token.now.cell.serial token.now.asks (specified_commit_of token.now) }
{
    if let Some(trial) = &token.trial {
        if let StepAnswer::Done(commit) = &trial.answer {
            *retired = Some((token.cell.serial, shown(&token.asks, commit)));
        }
    }
}

/// Shows what the token of the last stage retires, where it goes out and a row shows nothing yet.
pub fn show_retired(slot: &Option<Token>, retired: &mut Option<(u32, Commit)>)
    requires { retired.old ≡ None }
    ensures { retired.new ≡ retired_of (going slot.now) }
{
    if let Some(token) = slot {
        if token.cell.hold.is_none() {
            show_retired_by(token, retired);
        }
    }
}

/// Writes a custom register as blocks do.
fn put_block(register: &mut Bits, block: &Option<Bits>)
    ensures { register.new ≡ with_slot register.old (specified_slot_of block.now) }
{
    if let Some(value) = block {
        *register = *value;
    }
}

/// Writes what a token writes to a custom register as it leaves EX: the blocks alone, where its own write is still to come.
fn put_early_in(register: &mut Bits, is_pending: bool, block: &Option<Bits>, slot: &Slot<Bits>)
    ensures { register.new ≡ with_slot register.old (if is_pending then specified_slot_of block.now else slot.now) }
{
    if is_pending {
        put_block(register, block);
    } else {
        put_custom(register, slot);
    }
}

/// Writes what a token writes to a custom register late.
fn put_late_in(register: &mut Bits, is_late: bool, is_own: bool, slot: &Slot<Bits>)
    ensures { register.new ≡ with_slot register.old (if is_late && is_own then slot.now else Absent) }
{
    if is_late && is_own {
        put_custom(register, slot);
    }
}

/// Makes what a token with this record writes as it leaves EX in the future file.
fn put_early_of(asks: &Asks, blocks: &[Option<Bits>; 16], commit: &Commit, file: &mut [Bits; 16])
    ensures { file.new ≡ with_writes (early_write asks.now blocks.now commit.now) file.old }
{
    for number in 0..16usize {
        let is_pending = asks.late_customs[number] || asks.spawned_customs[number];
        put_early_in(
            &mut file[number],
            is_pending,
            &blocks[number],
            &commit.custom[number],
        );
    }
}

/// Makes what a token with this record writes late in the future file.
fn put_late_of(asks: &Asks, own: &[bool; 16], commit: &Commit, file: &mut [Bits; 16])
    ensures { file.new ≡ with_writes (late_write asks.now own.now commit.now) file.old }
{
    for number in 0..16usize {
        put_late_in(
            &mut file[number],
            asks.late_customs[number],
            own[number],
            &commit.custom[number],
        );
    }
}

/// Makes the writes of a token that leaves EX.
fn put_early_by(token: &Token, file: &mut [Bits; 16])
    ensures { file.new ≡ trial_early token.now.asks token.now.trial file.old }
{
    if let Some(trial) = &token.trial {
        if let StepAnswer::Done(commit) = &trial.answer {
            put_early_of(&token.asks, &trial.blocks, commit, file);
        }
    }
}

/// Makes the writes of a token that goes out of the last stage.
fn put_late_by(token: &Token, file: &mut [Bits; 16])
    ensures { file.new ≡ trial_late token.now.asks token.now.trial file.old }
{
    if let Some(trial) = &token.trial {
        if let StepAnswer::Done(commit) = &trial.answer {
            put_late_of(&token.asks, &trial.own, commit, file);
        }
    }
}

/// Makes the writes of the token that leaves EX, of which this is the slot, where one does.
pub fn put_early(slot: &Option<Token>, file: &mut [Bits; 16])
    ensures { file.new ≡ file_early (going slot.now) file.old }
{
    if let Some(executed) = slot {
        if executed.cell.hold.is_none() {
            put_early_by(executed, file);
        }
    }
}

/// Makes the writes of the token that goes out of the last stage, of which this is the slot, where one does.
pub fn put_late(slot: &Option<Token>, file: &mut [Bits; 16])
    ensures { file.new ≡ file_late (going slot.now) file.old }
{
    if let Some(token) = slot {
        if token.cell.hold.is_none() {
            put_late_by(token, file);
        }
    }
}

/// The accesses that have left MEM after a row, of which this is MEM's slot.
pub fn accesses_then(accesses: u32, slot: &Option<Token>) -> u32
    requires { accesses + 1 < 2 ^ 32 }
    ensures { result ≡ accesses_after accesses slot.now }
{
    match slot {
        Some(token) if token.cell.hold.is_none() && access_of(token) => accesses + 1,
        _ => accesses,
    }
}

/// For how many rows the token that stays in MEM has stood there after a row, of which this is MEM's slot.
pub fn stood_then(stood: u32, slot: &Option<Token>) -> u32
    requires { stood + 1 < 2 ^ 32 }
    ensures { result ≡ stood_after stood slot.now }
{
    match slot {
        Some(token) if token.cell.hold.is_some() => stood + 1,
        _ => 0,
    }
}

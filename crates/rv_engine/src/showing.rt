ghost use Rattle.std.specs.Prelude.{◌≡◌, ◌-◌, ◌<◌, ◌≤◌, suc, true, None, length, drop, get_or, IfSome};
ghost use Rattle.ix_eval.specs.Tables.{table};
ghost use Rattle.rv_lawful.specs.Settings.{is_tail as specified_is_tail};
ghost use Rattle.rv_ports.specs.Drives.{own_number as specified_own_number};
ghost use Rattle.rv_ports.specs.Seats.{is_silent as specified_is_silent, loaded};
ghost use Rattle.rv_unit.specs.Entries.{is_frozen};
ghost use Rattle.rv_holds.specs.Holds.{stops_now};
ghost use Rattle.rv_holds.specs.Flushing.{struck as specified_struck};
ghost use Rattle.rv_engine.specs.Showing.{time_by, operand_by as specified_operand_by, seat_by, slot_seat, load_tried, slot_load as specified_slot_load, shown_with};

use crate::owing::Owing;
use ix_bits::Bits;
use ix_eval::Access;
use rv_core::Shape;
use rv_holds::{Token, Turn, does_stop, is_last, operand_of, struck};
use rv_memory::RandomAccess;
use rv_ports::{Seat, Shown};
use rv_seq::{Arch, Decoded, peek, rs1_of, rs2_of};
use rv_trace::Hold;

/// The number of the extension's instruction; one of the base set has none.
fn own_number(decoded: Option<Decoded>) -> Option<u8>
    ensures { result ≡ specified_own_number decoded }
{
    match decoded {
        Some(Decoded::Own(number)) => Some(number),
        _ => None,
    }
}

/// Whether a cell with this hold waits for what it reads.
fn is_silent(hold: Option<Hold>) -> bool
    ensures { result ≡ specified_is_silent hold }
{
    match hold {
        Some(
            Hold::Operand(_, _)
            | Hold::Board(_, _)
            | Hold::Custom(_, _)
            | Hold::Late(_)
            | Hold::Wait(_)
            | Hold::StoreAhead(_),
        ) => true,
        _ => false,
    }
}

/// Whether a cell with this hold waits for its module.
fn is_tail(hold: Option<Hold>) -> bool
    ensures { result ≡ specified_is_tail hold }
{
    match hold {
        Some(Hold::Tail(_)) => true,
        _ => false,
    }
}

/// The time of a token: its stage; in the last one with the count of earlier rows for which its module went on there.
fn time_of(shape: Shape, stage: usize, token: &Token) -> u16
    requires { stage < 5 }
    ensures { result ≡ time_by shape stage token.now }
{
    if is_last(shape, stage) {
        stage as u16 + u16::from(token.asks.tail.saturating_sub(token.tail))
    } else {
        stage as u16
    }
}

/// The x register that an operand of a token of this stage names, from those of the tokens that are older and not flushed, where so many stages are.
fn operand_by(
    shape: Shape,
    file: &[u32; 32],
    flushed: usize,
    slots: &[Option<Token>],
    stage: usize,
    r: u8,
) -> u32
    requires few { length slots.now ≤ 5 }
    requires inside { stage < length slots.now }
    requires flushed { flushed ≤ length slots.now }
    requires register { r < 32 }
    ensures { result ≡ specified_operand_by shape file.now flushed slots.now stage r }
{
    let first = flushed.max(stage + 1);
    operand_of(shape, true, first, &slots[first..], file, r)
}

/// Whether a token of this stage of these stops the run in the row.
fn stops_at(shape: Shape, stage: usize, token: &Token, slots: &[Option<Token>]) -> bool
    requires { stage < length slots.now }
    ensures { result ≡ stops_now shape stage token.now (drop (suc stage) slots.now) }
{
    does_stop(shape, stage, token, &slots[stage + 1..])
}

/// What a token shows in its stage of these, where so many stages are flushed.
fn seat_of(
    shape: Shape,
    file: &[u32; 32],
    flushed: usize,
    slots: &[Option<Token>],
    stage: usize,
    token: &Token,
) -> Seat
    requires few { length slots.now ≤ 5 }
    requires inside { stage < length slots.now }
    requires flushed { flushed ≤ length slots.now }
    ensures { result ≡ seat_by shape file.now flushed slots.now stage token.now }
{
    let word = token.cell.word;
    let hold = token.cell.hold;
    let is_left = stage >= flushed;
    let is_going = hold.is_none() && is_left;
    Seat {
        behaviour: own_number(token.decoded),
        time: time_of(shape, stage, token),
        at: token.cell.at,
        word,
        first: operand_by(shape, file, flushed, slots, stage, rs1_of(word)),
        second: operand_by(shape, file, flushed, slots, stage, rs2_of(word)),
        silent: is_silent(hold) && is_left,
        tails: is_tail(hold) && is_left,
        moves: is_going && !stops_at(shape, stage, token, slots),
    }
}

/// The same of a slot, where a token is there.
fn seat_in(
    shape: Shape,
    file: &[u32; 32],
    flushed: usize,
    slots: &[Option<Token>],
    stage: usize,
) -> Option<Seat>
    requires few { length slots.now ≤ 5 }
    requires inside { stage < length slots.now }
    requires flushed { flushed ≤ length slots.now }
    ensures { result ≡ slot_seat shape file.now flushed slots.now stage }
{
    match &slots[stage] {
        None => None,
        Some(token) => Some(seat_of(shape, file, flushed, slots, stage, token)),
    }
}

/// What the tokens of at most five stages show, where so many stages are flushed.
fn seats_in(
    shape: Shape,
    file: &[u32; 32],
    flushed: usize,
    slots: &[Option<Token>],
) -> [Option<Seat>; 5]
    requires few { length slots.now ≤ 5 }
    requires flushed { flushed ≤ length slots.now }
    ensures { result ≡ table (slot_seat shape file.now flushed slots.now) 5 }
{
    let mut seats = [None; 5];
    for stage in 0..slots.len() {
        seats[stage] = seat_in(shape, file, flushed, slots, stage);
    }
    seats
}

/// What the token of a slot loads, where it was tried.
fn slot_load(slot: &Option<Token>) -> Option<Access>
    ensures { result ≡ specified_slot_load slot.now }
{
    match slot {
        None => None,
        Some(token) => match &token.trial {
            None => None,
            Some(trial) => trial.load,
        },
    }
}

/// What the memory holds where the token of a slot loads; 0 where it does not.
fn datum_in(memory: &RandomAccess, slot: &Option<Token>) -> u32
    ensures { result ≡ loaded memory.now (specified_slot_load slot.now) }
{
    match slot_load(slot) {
        None => 0,
        Some(access) => peek(memory, access.at, access.bytes),
    }
}

/// Which units are frozen, by their numbers.
fn frozen_in(owing: &Owing) -> [bool; 64]
    ensures { result ≡ table (is_frozen owing.now.lasts owing.now.entries) 64 }
{
    let mut all = [false; 64];
    if owing.is_idle() {
        return all;
    }
    for unit in 0..64u8 {
        all[usize::from(unit)] = owing.is_frozen(unit);
    }
    all
}

/// Shows the modules what a row has for them before its writes, where this token turns the fetch.
fn show_all(
    shape: Shape,
    arch: &Arch,
    future: &[Bits; 16],
    owing: &Owing,
    turn: Option<Turn>,
    slots: &[Option<Token>],
    shown: &mut Shown,
)
    requires few { length slots.now ≤ 5 }
    requires inside { shape.mem < length slots.now }
    requires turn { IfSome turn (λ turn. turn.stage < length slots.now) }
    ensures { shown.new ≡ shown_with shape arch.now future.now owing.now (specified_struck turn) slots.now }
{
    shown.seats = seats_in(shape, &arch.x, struck(turn), slots);
    shown.custom = *future;
    shown.datum = datum_in(&arch.mem, &slots[usize::from(shape.mem)]);
    shown.frozen = frozen_in(owing);
}

/// The same where modules are there to see it.
pub fn show(
    shape: Shape,
    arch: &Arch,
    future: &[Bits; 16],
    owing: &Owing,
    turn: Option<Turn>,
    slots: &[Option<Token>],
    shows: bool,
    shown: &mut Shown,
)
    requires few { length slots.now ≤ 5 }
    requires inside { shape.mem < length slots.now }
    requires turn { IfSome turn (λ turn. turn.stage < length slots.now) }
    ensures { shows ≡ true → shown.new ≡ shown_with shape arch.now future.now owing.now (specified_struck turn) slots.now }
{
    if shows {
        show_all(shape, arch, future, owing, turn, slots, shown);
    }
}

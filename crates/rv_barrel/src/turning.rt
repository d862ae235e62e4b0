ghost use Rattle.std.specs.Prelude.{◌≡◌, ◌++◌, ◌+◌, ◌<◌, ◌≤◌, ◌==◌, None, if◌then◌else◌, ℕ, List, suc, length, reverse};
ghost use Rattle.rv_harts.specs.Harts.{Fetched};
ghost use Rattle.rv_harts.specs.Events.{standing as standing_of, undone};
ghost use Rattle.rv_harts.specs.Turns.{board_of, operand_of, unit_turn, drain_turn, reading_turn, executing_turn, stop_due as specified_stop_due, turn_of as specified_turn_of};
ghost use Rattle.rv_holds.specs.Holds.{least_from, register_at as specified_register_at};
ghost use Rattle.rv_lawful.specs.LawfulTrace.{reads_of};
ghost use Rattle.rv_lawful.specs.Settings.{Setting};
ghost use Rattle.rv_barrel.specs.Cells.{fetched_of, AreAsked, AreOwed};
ghost use Rattle.rv_barrel.specs.Older.{kept_of};
ghost use Rattle.rv_barrel.specs.Turning.{waited, register_bound, IsCore, IsTriedAt};

use crate::cell::{InFlight, Owed};
use crate::older::{Wanted, eldest_left, eldest_standing, eldest_unwritten};
use ix_plan::Target;
use rv_asks::Asks;
use rv_core::Shape;
use rv_harts::Turn;
use rv_holds::does_touch;
use rv_seq::{StepAnswer, Stop};

/// The registers of the base, and all with the custom ones behind them.
const BASE: u8 = 32;

const CUSTOM: u8 = 16;

const ALL: u8 = 48;

/// What an instruction waits for, register by register.
#[derive(Clone, Copy)]
enum Wait {
    Operand,
    Board,
    Custom,
}

// Does an instruction read this x register?
fn does_read(asks: &Asks, register: u8) -> bool
    ensures { result ≡ reads_of asks.now register }
{
    register != 0 && (register == asks.first || register == asks.second)
}

// The oldest for which an instruction waits at a register.
fn waits_at(
    wait: Wait,
    asks: &Asks,
    owed: &[Owed],
    older: &[Option<InFlight>],
    number: u8,
) -> Option<u32>
    requires { number < register_bound wait }
    ensures { (k : Setting) (q : ℕ) (all : List Fetched) (c : Fetched) → asks.now ≡ k.asks c.word → AreAsked k older.now → AreOwed k owed.now all → result ≡ waited wait k c (reverse (standing_of (fetched_of q older.now))) (all ++ reverse (standing_of (fetched_of q older.now))) number }
{
    match wait {
        Wait::Operand => {
            if does_read(asks, number) {
                eldest_standing(older, Wanted::Destination(number))
            } else {
                None
            }
        }
        Wait::Board => {
            if does_touch(asks, number) {
                eldest_unwritten(owed, older, Wanted::Target(number))
            } else {
                None
            }
        }
        Wait::Custom => {
            if asks.customs[usize::from(number)] {
                eldest_standing(older, Wanted::LateCustom(number))
            } else {
                None
            }
        }
    }
}

// The least register at which an instruction waits, of so many, and for which.
fn least_wait(
    wait: Wait,
    asks: &Asks,
    owed: &[Owed],
    older: &[Option<InFlight>],
    count: u8,
) -> Option<(u8, u32)>
    requires { count ≤ register_bound wait }
    ensures { (k : Setting) (q : ℕ) (all : List Fetched) (c : Fetched) → asks.now ≡ k.asks c.word → AreAsked k older.now → AreOwed k owed.now all → result ≡ least_from (waited wait k c (reverse (standing_of (fetched_of q older.now))) (all ++ reverse (standing_of (fetched_of q older.now)))) 0 count }
{
    for number in 0..count {
        let found = waits_at(wait, asks, owed, older, number);
        if let Some(serial) = found {
            return Some((number, serial));
        }
    }
    None
}

// The least x register that an instruction reads and an older one writes, and whose write that is. Where none writes one of both, none is looked for register by register.
fn least_operand(asks: &Asks, owed: &[Owed], older: &[Option<InFlight>]) -> Option<(u8, u32)>
    ensures { (k : Setting) (q : ℕ) (all : List Fetched) (c : Fetched) → asks.now ≡ k.asks c.word → AreAsked k older.now → AreOwed k owed.now all → result ≡ least_from (operand_of k c (reverse (standing_of (fetched_of q older.now)))) 0 32 }
{
    match eldest_standing(older, Wanted::Either(asks.first, asks.second)) {
        None => None,
        Some(_) => least_wait(Wait::Operand, asks, owed, older, BASE),
    }
}

// The least register with an outstanding write that an instruction reads or writes, and whose it is. Where nothing is to be written later, none is looked for register by register.
fn least_outstanding(asks: &Asks, owed: &[Owed], older: &[Option<InFlight>]) -> Option<(u8, u32)>
    ensures { (k : Setting) (q : ℕ) (all : List Fetched) (c : Fetched) → asks.now ≡ k.asks c.word → AreAsked k older.now → AreOwed k owed.now all → result ≡ least_from (board_of k c (all ++ reverse (standing_of (fetched_of q older.now)))) 0 48 }
{
    match eldest_unwritten(owed, older, Wanted::Spawner) {
        None => None,
        Some(_) => least_wait(Wait::Board, asks, owed, older, ALL),
    }
}

// A register by its number: those of the base, then the custom ones.
fn register_at(number: u8) -> Target
    ensures { result ≡ specified_register_at number }
{
    if number < BASE {
        Target::X(number)
    } else {
        Target::Custom(number - BASE)
    }
}

// The turn at RD.
fn reading(asks: &Asks, owed: &[Owed], older: &[Option<InFlight>]) -> Option<Turn>
    ensures { (k : Setting) (q : ℕ) (all : List Fetched) (c : Fetched) → asks.now ≡ k.asks c.word → AreAsked k older.now → AreOwed k owed.now all → result ≡ reading_turn k c (reverse (standing_of (fetched_of q older.now))) (all ++ reverse (standing_of (fetched_of q older.now))) }
{
    if let Some((register, serial)) = least_operand(asks, owed, older) {
        return Some(Turn::Operand(register, serial));
    }
    if let Some((number, serial)) = least_outstanding(asks, owed, older) {
        return Some(Turn::Board(register_at(number), serial));
    }
    None
}

// The turn of an instruction whose unit has an older one.
fn unit(asks: &Asks, owed: &[Owed], older: &[Option<InFlight>]) -> Option<Turn>
    ensures { (k : Setting) (q : ℕ) (all : List Fetched) (c : Fetched) → asks.now ≡ k.asks c.word → AreAsked k older.now → AreOwed k owed.now all → result ≡ unit_turn k c (all ++ reverse (standing_of (fetched_of q older.now))) }
{
    match asks.unit {
        None => None,
        Some(number) => match eldest_unwritten(owed, older, Wanted::InUnit(number)) {
            None => None,
            Some(serial) => Some(Turn::Unit(number, serial)),
        },
    }
}

/// The stop that an instruction makes, where it has been tried and makes one.
pub fn stop_due(one: &InFlight) -> Option<Stop>
    ensures { (k : Setting) (c : Fetched) → IsTriedAt k c.place one.now → result ≡ specified_stop_due k c }
{
    match &one.step {
        Some(step) => match &step.answer {
            StepAnswer::Stopped(stop) => Some(*stop),
            StepAnswer::Done(_) => None,
        },
        None => None,
    }
}

// The turn of an instruction that is due to stop.
fn drain(
    shape: Shape,
    one: &InFlight,
    owed: &[Owed],
    out: Option<u32>,
    stage: u8,
    older: &[Option<InFlight>],
) -> Option<Turn>
    requires { stage + length older.now < 255 }
    ensures { (k : Setting) (q : ℕ) (all : List Fetched) (c : Fetched) → k.shape.stages ≡ shape.stages → IsTriedAt k c.place one.now → AreAsked k older.now → AreOwed k owed.now all → result ≡ drain_turn k c (kept_of out all ++ reverse (undone k stage (fetched_of q older.now))) }
{
    match stop_due(one) {
        None => None,
        Some(_) => match eldest_left(shape, owed, out, stage, older) {
            None => None,
            Some(serial) => Some(Turn::Drain(serial)),
        },
    }
}

// The turn at EX; the older ones stand from this stage on.
fn executing(
    shape: Shape,
    one: &InFlight,
    owed: &[Owed],
    out: Option<u32>,
    stage: u8,
    older: &[Option<InFlight>],
) -> Option<Turn>
    requires { stage + length older.now < 255 }
    ensures { (k : Setting) (q : ℕ) (all : List Fetched) (c : Fetched) → k.shape.stages ≡ shape.stages → one.now.asks ≡ k.asks c.word → IsTriedAt k c.place one.now → AreAsked k older.now → AreOwed k owed.now all → result ≡ executing_turn k c (reverse (standing_of (fetched_of q older.now))) (all ++ reverse (standing_of (fetched_of q older.now))) (kept_of out all ++ reverse (undone k stage (fetched_of q older.now))) }
{
    if let Some((register, serial)) = least_wait(Wait::Custom, &one.asks, owed, older, CUSTOM) {
        return Some(Turn::Custom(register, serial));
    }
    if let Some(serial) = eldest_standing(older, Wanted::Late) {
        return Some(Turn::Late(serial));
    }
    if let Some(turn) = unit(&one.asks, owed, older) {
        return Some(turn);
    }
    drain(shape, one, owed, out, stage, older)
}

// The turn at RD, where this stage is RD.
fn reading_in(
    shape: Shape,
    stage: u8,
    asks: &Asks,
    owed: &[Owed],
    older: &[Option<InFlight>],
) -> Option<Turn>
    ensures { (k : Setting) (q : ℕ) (all : List Fetched) (c : Fetched) → IsCore k shape → asks.now ≡ k.asks c.word → AreAsked k older.now → AreOwed k owed.now all → result ≡ (if stage == k.shape.rd then reading_turn k c (reverse (standing_of (fetched_of q older.now))) (all ++ reverse (standing_of (fetched_of q older.now))) else None) }
{
    if stage == shape.rd {
        reading(asks, owed, older)
    } else {
        None
    }
}

// The turn at EX, where this stage is EX.
fn executing_in(
    shape: Shape,
    stage: u8,
    one: &InFlight,
    owed: &[Owed],
    out: Option<u32>,
    older: &[Option<InFlight>],
) -> Option<Turn>
    requires { stage + 1 + length older.now < 255 }
    ensures { (k : Setting) (q : ℕ) (all : List Fetched) (c : Fetched) → IsCore k shape → one.now.asks ≡ k.asks c.word → (k.shape.ex ≤ stage → IsTriedAt k c.place one.now) → AreAsked k older.now → AreOwed k owed.now all → result ≡ (if stage == k.shape.ex then executing_turn k c (reverse (standing_of (fetched_of q older.now))) (all ++ reverse (standing_of (fetched_of q older.now))) (kept_of out all ++ reverse (undone k (suc stage) (fetched_of q older.now))) else None) }
{
    if stage == shape.ex {
        executing(shape, one, owed, out, stage + 1, older)
    } else {
        None
    }
}

/// Why an instruction in this stage is turned, if it is: older ones stand in the stages above and among what is owed, of which one is written in the row, if any.
pub fn turn_of(
    shape: Shape,
    stage: u8,
    one: &InFlight,
    owed: &[Owed],
    out: Option<u32>,
    older: &[Option<InFlight>],
) -> Option<Turn>
    requires { stage + 1 + length older.now < 255 }
    ensures { (k : Setting) (q : ℕ) (all : List Fetched) (c : Fetched) → IsCore k shape → one.now.asks ≡ k.asks c.word → (k.shape.ex ≤ stage → IsTriedAt k c.place one.now) → AreAsked k older.now → AreOwed k owed.now all → result ≡ specified_turn_of k stage c (reverse (standing_of (fetched_of q older.now))) (all ++ reverse (standing_of (fetched_of q older.now))) (kept_of out all ++ reverse (undone k (suc stage) (fetched_of q older.now))) }
{
    match reading_in(shape, stage, &one.asks, owed, older) {
        None => executing_in(shape, stage, one, owed, out, older),
        turn => turn,
    }
}

ghost use Rattle.std.specs.Prelude.{◌≡◌, ◌<◌};
ghost use Rattle.rv_lawful.specs.Outstanding.{is_register, has_target, touches};
ghost use Rattle.rv_holds.specs.Holds.{register_at as specified_register_at, register_count, spawner, least_from, lower_of as specified_lower_of, board, board_hold};

use crate::asked::{Asked, any_spawns, oldest_asked};
use crate::token::Token;
use ix_plan::Target;
use rv_asks::Asks;
use rv_trace::Hold;

/// A register by its number: those of the base, then the custom ones.
fn register_at(number: u8) -> Target
    ensures { result ≡ specified_register_at number }
{
    if number < 32 {
        Target::X(number)
    } else {
        Target::Custom(number - 32)
    }
}

/// Whether an x register is this one.
fn is_x(register: Option<u8>, number: u8) -> bool
    ensures { result ≡ is_register register number }
{
    match register {
        None => false,
        Some(other) => other == number,
    }
}

/// Whether an instruction reads or writes a register, given by its number. Reads of x0, and writes of x0 in its own body, do not count.
pub fn does_touch(asks: &Asks, number: u8) -> bool
    requires { number < 48 }
    ensures { result ≡ touches asks.now (specified_register_at number) }
{
    if number >= 32 {
        return asks.customs[usize::from(number - 32)];
    }
    if is_x(asks.spawned, number) {
        return true;
    }
    number != 0 && (number == asks.first || number == asks.second || number == asks.destination)
}

/// Whether the `spawn` body of an instruction writes a register, given by its number.
pub fn does_spawn(asks: &Asks, number: u8) -> bool
    requires { number < 48 }
    ensures { result ≡ has_target asks.now (specified_register_at number) }
{
    if number < 32 {
        is_x(asks.spawned, number)
    } else {
        asks.spawned_customs[usize::from(number - 32)]
    }
}

/// The oldest token whose `spawn` body writes this register, where the instruction touches it.
fn spawner_for(older: &[Option<Token>], asks: &Asks, number: u8) -> Option<u32>
    requires { number < 48 }
    ensures { result ≡ spawner older.now asks.now number }
{
    if does_touch(asks, number) {
        oldest_asked(older, Asked::Spawner(number))
    } else {
        None
    }
}

/// The least register that an instruction touches and the `spawn` body of an older token writes, with the oldest such token.
fn least_spawned(older: &[Option<Token>], asks: &Asks) -> Option<(u8, u32)>
    ensures { result ≡ least_from (spawner older.now asks.now) 0 register_count }
{
    if !any_spawns(older) {
        return None;
    }
    for number in 0..48 {
        let found = spawner_for(older, asks, number);
        if let Some(serial) = found {
            return Some((number, serial));
        }
    }
    None
}

/// The lower one of two registers, and the first where they are one.
fn lower_of(one: Option<(u8, u32)>, other: Option<(u8, u32)>) -> Option<(u8, u32)>
    ensures { result ≡ specified_lower_of one other }
{
    match one {
        None => other,
        Some(first) => match other {
            None => one,
            Some(second) => { if second.0 < first.0 { other } else { one } }
        },
    }
}

/// The hold by this register and serial.
fn hold_by(found: Option<(u8, u32)>) -> Option<Hold>
    ensures { result ≡ board found }
{
    match found {
        None => None,
        Some((number, serial)) => Some(Hold::Board(register_at(number), serial)),
    }
}

/// The hold of an instruction that waits for an outstanding register, the least register first.
pub fn board_of(token: &Token, older: &[Option<Token>]) -> Option<Hold>
    ensures { result ≡ board_hold token.now older.now }
{
    hold_by(lower_of(token.beside.board, least_spawned(older, &token.asks)))
}

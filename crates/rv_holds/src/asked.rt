ghost use Rattle.std.specs.Prelude.{◌≡◌};
ghost use Rattle.rv_holds.specs.Holds.{oldest};
ghost use Rattle.rv_holds.specs.Meets.{meets, IsAskable, is_any, has_targets, is_spawned};

use crate::board::does_spawn;
use crate::token::Token;
use rv_asks::Asks;

/// What the oldest token is looked for by.
#[derive(Clone, Copy)]
pub enum Asked {
    /// Its `spawn` body writes this register, given by its number: 32 of the base, then the custom ones.
    Spawner(u8),
    /// It writes this custom register late.
    LateWriter(u8),
    /// It stores.
    Store,
    /// It writes the pc late.
    Late,
}

/// Whether a token is one that is looked for.
fn is_asked(token: &Token, asked: Asked) -> bool
    requires { IsAskable asked }
    ensures { result ≡ meets asked token.now }
{
    match asked {
        Asked::Spawner(number) => does_spawn(&token.asks, number),
        Asked::LateWriter(register) => token.asks.late_customs[usize::from(register)],
        Asked::Store => token.asks.stores,
        Asked::Late => token.asks.late,
    }
}

/// The oldest token that is looked for.
pub fn oldest_asked(older: &[Option<Token>], asked: Asked) -> Option<u32>
    requires { IsAskable asked }
    ensures { result ≡ oldest (meets asked) older.now }
{
    let mut found = None;
    for slot in older {
        if let Some(token) = slot {
            if is_asked(token, asked) {
                found = Some(token.cell.serial);
            }
        }
    }
    found
}

/// Whether one of these flags is set.
fn any_set(flags: &[bool]) -> bool
    ensures { result ≡ is_any flags.now }
{
    match flags {
        [] => false,
        [flag, rest @ ..] => *flag || any_set(rest),
    }
}

/// Whether the `spawn` body of an instruction writes a register.
pub fn spawns_any(asks: &Asks) -> bool
    ensures { result ≡ has_targets asks.now }
{
    asks.spawned.is_some() || any_set(&asks.spawned_customs)
}

/// Whether the `spawn` body of one of these tokens writes a register. Where none does, none need be looked for register by register.
pub fn any_spawns(older: &[Option<Token>]) -> bool
    ensures { result ≡ is_spawned older.now }
{
    match older {
        [] => false,
        [None, rest @ ..] => any_spawns(rest),
        [Some(token), rest @ ..] => spawns_any(&token.asks) || any_spawns(rest),
    }
}

ghost use Rattle.std.specs.Prelude.{◌≡◌, ◌+◌, ◌≤◌, List, length, slice_get};
ghost use Rattle.rv_harts.specs.Harts.{Fetched};
ghost use Rattle.rv_lawful.specs.Outstanding.{custom_targets, targets_of};
ghost use Rattle.rv_lawful.specs.Settings.{Setting};
ghost use Rattle.rv_barrel.specs.Barrels.{targets_owed};
ghost use Rattle.rv_barrel.specs.Cells.{AreOwed};
ghost use Rattle.rv_barrel.specs.Nth.{IsNth};
ghost use Rattle.rv_barrel.specs.Owing.{listed};

use crate::cell::Owed;
use ix_plan::Target;
use rv_asks::Asks;

// The k-th of the custom registers whose flag is set, where the first flag is that of this register, or how many k is past them.
fn nth_custom(flags: &[bool], first: u8, k: u32) -> Result<Target, u32>
    requires { first + length flags.now ≤ 16 }
    ensures { IsNth (custom_targets first flags.now) k result }
{
    match flags {
        [] => Err(k),
        [true, rest @ ..] => {
            if k == 0 {
                Ok(Target::Custom(first))
            } else {
                nth_custom(rest, first + 1, k - 1)
            }
        }
        [false, rest @ ..] => nth_custom(rest, first + 1, k),
    }
}

// The k-th register that the `spawn` body of an instruction writes, the x register before the custom ones, or how many k is past them.
fn nth_target(asks: &Asks, k: u32) -> Result<Target, u32>
    ensures { IsNth (targets_of asks.now) k result }
{
    match asks.spawned {
        None => nth_custom(&asks.spawned_customs, 0, k),
        Some(r) => {
            if k == 0 {
                Ok(Target::X(r))
            } else {
                nth_custom(&asks.spawned_customs, 0, k - 1)
            }
        }
    }
}

// The k-th register of what is owed, the oldest of which is first, with its serial, or how many k is past them.
fn nth_owed(owed: &[Owed], k: u32) -> Result<(u32, Target), u32>
    ensures { IsNth (listed owed.now) k result }
{
    match owed {
        [] => Err(k),
        [oldest, newer @ ..] => match nth_target(&oldest.asks, k) {
            Ok(target) => Ok((oldest.serial, target)),
            Err(past) => nth_owed(newer, past),
        },
    }
}

/// The k-th register with an outstanding write, in the order of retirement, the x register of an instruction before its custom ones, with the serial of the instruction; none where
/// there are no more than k.
pub fn nth_outstanding(owed: &[Owed], k: u32) -> Option<(u32, Target)>
    ensures { (s : Setting) (all : List Fetched) → AreOwed s owed.now all → result ≡ slice_get (targets_owed s all) k }
{
    match nth_owed(owed, k) {
        Ok(found) => Some(found),
        Err(_) => None,
    }
}

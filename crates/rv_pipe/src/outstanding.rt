ghost use Rattle.std.specs.Prelude.{◌+◌, ◌≤◌, length, map};
ghost use Rattle.rv_lawful.specs.Outstanding.{custom_targets, targets_of};
ghost use Rattle.rv_machine.specs.Owing.{targets_owed};
ghost use Rattle.rv_pipe.specs.Nth.{IsNth};

use ix_plan::Target;
use rv_asks::Asks;
use rv_engine::Owed;

/// The k-th of the custom registers whose flag is set, where the first flag is that of this register, or how many k is past them.
fn nth_custom(flags: &[bool], first: u8, k: u32) -> Result<Target, u32>
    requires { first + length flags.now ≤ 16 }
    ensures { IsNth (custom_targets first flags.now) k result }
{
    match flags {
        [] => Err(k),
        [true, rest @ ..] => {
            if k == 0 {
                Ok(Target::Custom(first))
            } else {
                nth_custom(rest, first + 1, k - 1)
            }
        }
        [false, rest @ ..] => nth_custom(rest, first + 1, k),
    }
}

/// The k-th register that the `spawn` body of an instruction writes, the x register before the custom ones, or how many k is past them.
fn nth_target(asks: &Asks, k: u32) -> Result<Target, u32>
    ensures { IsNth (targets_of asks.now) k result }
{
    match asks.spawned {
        None => nth_custom(&asks.spawned_customs, 0, k),
        Some(r) => {
            if k == 0 {
                Ok(Target::X(r))
            } else {
                nth_custom(&asks.spawned_customs, 0, k - 1)
            }
        }
    }
}

/// The k-th register of what is owed, the newest of which is first, in the order of retirement, with its serial, or how many k is past them.
pub fn nth_owed(owed: &[Owed], k: u32) -> Result<(u32, Target), u32>
    ensures { IsNth (targets_owed owed.now) k result }
{
    match owed {
        [] => Err(k),
        [newest, older @ ..] => match nth_owed(older, k) {
            Ok(found) => Ok(found),
            Err(past) => match nth_target(&newest.asks, past) {
                Ok(target) => Ok((newest.serial, target)),
                Err(past) => Err(past),
            },
        },
    }
}

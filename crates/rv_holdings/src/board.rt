ghost use Rattle.std.specs.Prelude.{◌≡◌, ◌<◌};
ghost use Rattle.rv_lawful.specs.Outstanding.{is_register, has_target, touches};
ghost use Rattle.rv_holdings.specs.Expected.{register_at as specified_register_at};

use ix_plan::Target;
use rv_asks::Asks;

/// A register by its number: those of the base, then the custom ones.
pub fn register_at(number: u8) -> Target
    ensures { result ≡ specified_register_at number }
{
    if number < 32 {
        Target::X(number)
    } else {
        Target::Custom(number - 32)
    }
}

fn is_x(register: Option<u8>, number: u8) -> bool
    ensures { result ≡ is_register register number }
{
    match register {
        None => false,
        Some(other) => other == number,
    }
}

/// Whether an instruction reads or writes a register, given by its number. Reads of x0, and writes
/// of x0 in its own body, do not count.
pub fn does_touch(asks: &Asks, number: u8) -> bool
    requires { number < 48 }
    ensures { result ≡ touches asks.now (specified_register_at number) }
{
    if number >= 32 {
        return asks.customs[usize::from(number - 32)];
    }
    if is_x(asks.spawned, number) {
        return true;
    }
    number != 0 && (number == asks.first || number == asks.second || number == asks.destination)
}

/// Whether the `spawn` body of an instruction writes a register, given by its number.
pub fn does_spawn(asks: &Asks, number: u8) -> bool
    requires { number < 48 }
    ensures { result ≡ has_target asks.now (specified_register_at number) }
{
    if number < 32 {
        is_x(asks.spawned, number)
    } else {
        asks.spawned_customs[usize::from(number - 32)]
    }
}

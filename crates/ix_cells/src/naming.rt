ghost use Rattle.std.specs.Prelude.{◌≡◌, ◌∷◌, [], IfOk};
ghost use Rattle.ix_cells.specs.Naming.{name_of, node_name, register_name};
ghost use Rattle.ix_ports.specs.Ports.{enable_name, input_name, output_name, byte_of};

use crate::Signal;
use ix_bits::{Memory, Name};
use ix_ports::Letter;
use std::alloc::Global;

fn enable(alloc: Global, time: u8) -> Result<Name, Memory>
    ensures { IfOk result (λ name. name ≡ enable_name time) }
{
    let text = format!(in alloc; "en{time}")?;
    Name::from_text(alloc, text.as_str())
}

fn input(alloc: Global, number: usize) -> Result<Name, Memory>
    ensures { IfOk result (λ name. name ≡ input_name number) }
{
    let text = format!(in alloc; "in{number}")?;
    Name::from_text(alloc, text.as_str())
}

fn node(alloc: Global, number: usize) -> Result<Name, Memory>
    ensures { IfOk result (λ name. name ≡ node_name number) }
{
    let text = format!(in alloc; "n{number}")?;
    Name::from_text(alloc, text.as_str())
}

fn register(alloc: Global, number: usize, time: u8) -> Result<Name, Memory>
    ensures { IfOk result (λ name. name ≡ register_name number time) }
{
    let text = format!(in alloc; "r{number}_{time}")?;
    Name::from_text(alloc, text.as_str())
}

fn letter_text(letter: Letter) -> &'static str
    ensures { result.now ≡ byte_of letter ∷ [] }
{
    match letter {
        Letter::Address => "a",
        Letter::Value => "v",
        Letter::Condition => "c",
    }
}

fn output(alloc: Global, number: usize, letter: Letter) -> Result<Name, Memory>
    ensures { IfOk result (λ name. name ≡ output_name number letter) }
{
    let word = letter_text(letter);
    let text = format!(in alloc; "out{number}_{word}")?;
    Name::from_text(alloc, text.as_str())
}

/// The name of a signal.
#[tactic(auto, unfolding(crate::specs::Naming::name_of))]
pub fn name(alloc: Global, signal: Signal) -> Result<Name, Memory>
    ensures { IfOk result (λ name. name ≡ name_of signal) }
{
    match signal {
        Signal::Enable(time) => enable(alloc, time),
        Signal::Input(number) => input(alloc, number),
        Signal::Node(number) => node(alloc, number),
        Signal::Output(number, letter) => output(alloc, number, letter),
        Signal::Register(number, time) => register(alloc, number, time),
    }
}

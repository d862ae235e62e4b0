ghost use Rattle.std.specs.Prelude.{◌≡◌, ◌≤◌};
ghost use Rattle.ix_net.specs.Valid.{IsValid};

use crate::module::Why;
use ix_bits::{Bits, Memory, range};
use ix_net::{Net, Port};
use ix_neteval::{Sim, prepare};
use std::alloc::{AllocError, Global};
use std::fmt::Write;

fn put_ports(out: &mut String, ports: &[Port]) -> Result<(), AllocError> {
    for port in ports {
        write!(out, " {}:{}", port.name.as_str(), port.width)?;
    }
    Ok(())
}

/// Puts the line of a module.
pub fn put_head(out: &mut String, net: &Net) -> Result<(), AllocError> {
    write!(out, "module {}", net.name.as_str())?;
    put_ports(out, net.inputs.as_slice())?;
    out.push_str(" ->")?;
    put_ports(out, net.outputs.as_slice())?;
    out.push_str("\n")
}

/// The value of hexadecimal digits as a pattern of a width.
fn pattern(word: &str, width: u8) -> Option<Bits> {
    if width < 1 || 128 < width {
        return None;
    }
    match u128::from_str_radix(word, 16) {
        Ok(raw) => Some(range(Bits { raw, width: 128 }, width - 1, 0)),
        Err(_) => None,
    }
}

/// The values of the inputs, one for each port, and the word behind them.
fn inputs_of<'a>(
    alloc: Global,
    ports: &[Port],
    line: &'a str,
) -> Result<(Vec<Bits>, &'a str), Why> {
    let mut inputs = Vec::new(alloc);
    let mut words = line.split_whitespace();
    for port in ports {
        let Some(word) = words.next() else {
            return Err(Why::NoCase);
        };
        let Some(bits) = pattern(word, port.width) else {
            return Err(Why::NoCase);
        };
        if inputs.push(bits).is_err() {
            return Err(Why::Memory);
        }
    }
    Ok((inputs, words.next().unwrap_or("")))
}

/// Puts the outputs whose sign is a star, and a hyphen for each other one.
fn put_outputs(out: &mut String, sim: &Sim<'_>, net: &Net, signs: &[u8]) -> Result<(), AllocError>
    requires { sim.now.net ≡ net.now }
{
    for number in 0..net.outputs.len() {
        if signs.get(number) == Some(&b'*')
            && let Ok(number) = u32::try_from(number)
        {
            write!(out, "{:x} ", sim.output(number).raw)?;
        } else {
            out.push_str("- ")?;
        }
    }
    out.push_str("\n")
}

/// Puts the outputs of a cycle, and ends it.
fn put_cycle(
    alloc: Global,
    out: &mut String,
    sim: &mut Sim<'_>,
    net: &Net,
    line: &str,
) -> Result<(), Why>
    requires { sim.old.net ≡ net.now }
    ensures { sim.new.net ≡ sim.old.net }
{
    let (inputs, signs) = match inputs_of(alloc, net.inputs.as_slice(), line) {
        Ok(parts) => parts,
        Err(why) => return Err(why),
    };
    if !sim.accepts(&inputs) {
        return Err(Why::NoCase);
    }
    sim.settle(&inputs);
    let told = put_outputs(out, sim, net, signs.as_bytes());
    sim.clock();
    match told {
        Ok(()) => Ok(()),
        Err(_) => Err(Why::Memory),
    }
}

/// Puts the outputs of the cycles of one life.
fn put_life(alloc: Global, out: &mut String, net: &Net, life: &str) -> Result<(), Why>
    requires { IsValid net.now }
{
    let Ok(mut sim) = prepare(alloc, net) else {
        return Err(Why::Memory);
    };
    for line in life.lines() {
        if !line.is_empty() {
            put_cycle(alloc, out, &mut sim, net, line)?;
        }
    }
    Ok(())
}

/// Puts the outputs of a module, life after life.
pub fn put_lives(alloc: Global, out: &mut String, net: &Net, lives: &str) -> Result<(), Why>
    requires { IsValid net.now }
{
    for life in lives.split("life\n") {
        if !life.is_empty() {
            writeln!(out, "life")?;
            put_life(alloc, out, net, life)?;
        }
    }
    Ok(())
}

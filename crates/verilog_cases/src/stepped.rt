ghost use Rattle.std.specs.Prelude.{◌≡◌, ◌≤◌};
ghost use Rattle.ix_net.specs.Valid.{IsValid};

use crate::parted;
use crate::words::TOO_MANY;
use ix_bits::{Bits, range};
use ix_net::{Net, Port, is_valid};
use ix_neteval::{Sim, prepare};
use ix_vread::read;
use std::alloc::{AllocError, Global};

/// The next number of a row that looks random (Knuth's MMIX).
fn next(seed: u64) -> u64 {
    seed.wrapping_mul(6_364_136_223_846_793_005)
        .wrapping_add(1_442_695_040_888_963_407)
}

/// A pattern of a width: one in eight is 0, one in eight the greatest.
fn pattern(seed: u64, width: u8) -> Bits
    requires least { 1 ≤ width }
    requires most { width ≤ 128 }
{
    let high = next(seed);
    let low = next(high);
    let raw = match seed >> 61 {
        0 => 0,
        1 => u128::MAX,
        _ => (u128::from(high) << 64) | u128::from(low),
    };
    range(Bits { raw, width: 128 }, width - 1, 0)
}

/// A pattern for each port, and the seed of the patterns of the next cycle.
fn inputs_of(alloc: Global, ports: &[Port], seed: u64) -> Result<(Vec<Bits>, u64), AllocError> {
    let mut inputs = Vec::new(alloc);
    let mut seed = seed;
    for port in ports {
        if port.width >= 1 && port.width <= 128 {
            inputs.push(pattern(seed, port.width))?;
        }
        seed = next(next(next(seed)));
    }
    Ok((inputs, next(seed)))
}

fn put_inputs(out: &mut String, ports: &[Port], inputs: &[Bits]) -> Result<(), AllocError> {
    for (port, bits) in ports.iter().zip(inputs) {
        write!(out, " {}={:x}", port.name.as_str(), bits.raw)?;
    }
    Ok(())
}

fn put_outputs(out: &mut String, sim: &Sim<'_>, net: &Net) -> Result<(), AllocError>
    requires { sim.now.net ≡ net.now }
{
    for (k, port) in net.outputs.as_slice().iter().enumerate() {
        if let Ok(number) = u32::try_from(k) {
            write!(out, " {}={:x}", port.name.as_str(), sim.output(number).raw)?;
        }
    }
    out.push_str("\n")
}

/// Puts the outputs of a cycle with these inputs, and ends it.
fn put_cycle(
    out: &mut String,
    sim: &mut Sim<'_>,
    net: &Net,
    inputs: &[Bits],
) -> Result<(), AllocError>
    requires { sim.old.net ≡ net.now }
    ensures { sim.new.net ≡ sim.old.net }
{
    if !sim.accepts(inputs) {
        return Ok(());
    }
    sim.settle(inputs);
    let told = put_outputs(out, sim, net);
    sim.clock();
    told
}

/// Puts the lines of so many cycles.
fn put_cycles(alloc: Global, out: &mut String, net: &Net, cycles: u32) -> Result<(), AllocError>
    requires { IsValid net.now }
{
    let Ok(mut sim) = prepare(alloc, net) else {
        return Err(AllocError);
    };
    let mut seed = 1;
    for _ in 0..cycles {
        let (inputs, following) = inputs_of(alloc, net.inputs.as_slice(), seed)?;
        seed = following;
        put_inputs(out, net.inputs.as_slice(), &inputs)?;
        put_cycle(out, &mut sim, net, &inputs)?;
    }
    Ok(())
}

fn put_net(alloc: Global, out: &mut String, net: &Net, cycles: u32) -> Result<(), AllocError> {
    let Ok(valid) = is_valid(alloc, net) else {
        return Err(AllocError);
    };
    if valid {
        write!(out, "module {}\n", net.name.as_str())?;
        put_cycles(alloc, out, net, cycles)?;
    }
    Ok(())
}

/// Puts the lines of the modules of a text, after the count of cycles that stands before it.
pub fn put_stepped(out: &mut String, alloc: Global, case: &[u8]) -> Result<(), AllocError> {
    let (count, text) = parted(case);
    let Ok(cycles) = count.parse::<u32>() else {
        return out.push_str("no count\n");
    };
    if text.len() >= TOO_MANY {
        return out.push_str("too long\n");
    }
    let Ok(nets) = read(alloc, text) else {
        return out.push_str("not read\n");
    };
    for net in nets.as_slice() {
        put_net(alloc, out, net, cycles)?;
    }
    Ok(())
}

ghost use Rattle.std.specs.Prelude.{◌≡◌};
ghost use Rattle.ix_net.specs.Valid.{IsValid};

use crate::words::TOO_MANY;
use ix_bits::Bits;
use ix_net::{Net, Port, is_valid};
use ix_neteval::{Sim, prepare};
use ix_vread::read;
use std::alloc::{AllocError, Global};

/// The byte between the text of modules and a dump.
const MIDDLE: u8 = 31;

/// The line behind which the rows of a dump stand.
const LAST_OF_HEAD: &str = "$enddefinitions $end\n";

/// The number of the port and the value of a line of a dump, if it is that of a value.
fn change_of(line: &str) -> Option<(usize, u128)> {
    let (value, number) = line.split_once('p')?;
    let place = number.parse::<usize>().ok()?;
    let raw = value
        .bytes()
        .filter(|byte| *byte == b'0' || *byte == b'1')
        .fold(0u128, |raw, byte| (raw << 1) | u128::from(byte == b'1'));
    Some((place, raw))
}

/// Puts the value of a line into its place, if that is among these; the first of them has the number `base`.
fn put_change(values: &mut [u128], base: usize, line: &str) {
    let Some((number, raw)) = change_of(line) else {
        return;
    };
    let Some(place) = number.checked_sub(base) else {
        return;
    };
    if let Some(value) = values.get_mut(place) {
        *value = raw;
    }
}

/// The values of the first ports, in as many bits as these have.
fn inputs_of(alloc: Global, ports: &[Port], values: &[u128]) -> Result<Vec<Bits>, AllocError> {
    let mut inputs = Vec::new(alloc);
    for (port, raw) in ports.iter().zip(values) {
        if port.width >= 1
            && port.width <= 128
            && (port.width == 128 || *raw < 1u128 << port.width)
        {
            inputs.push(Bits {
                raw: *raw,
                width: port.width,
            })?;
        }
    }
    Ok(inputs)
}

/// Puts a line for each output of a row that has another value than the dump.
fn put_differences(
    out: &mut String,
    sim: &Sim<'_>,
    net: &Net,
    row: u32,
    told: &[u128],
) -> Result<(), AllocError>
    requires { sim.now.net ≡ net.now }
{
    for (k, port) in net.outputs.as_slice().iter().enumerate() {
        if let Ok(number) = u32::try_from(k) {
            let value = sim.output(number).raw;
            if told.get(k) != Some(&value) {
                write!(out, "row {row}: {} is {:x}\n", port.name.as_str(), value)?;
            }
        }
    }
    Ok(())
}

/// Lets a module take one row with the inputs that the dump shows, and compares its outputs.
fn put_row(
    alloc: Global,
    out: &mut String,
    sim: &mut Sim<'_>,
    net: &Net,
    row: u32,
    values: &[u128],
) -> Result<(), AllocError>
    requires { sim.old.net ≡ net.now }
    ensures { sim.new.net ≡ sim.old.net }
{
    let inputs = inputs_of(alloc, net.inputs.as_slice(), values)?;
    if !sim.accepts(&inputs) {
        return write!(out, "row {row}: no inputs\n");
    }
    sim.settle(&inputs);
    let outputs = values.get(inputs.len()..).unwrap_or(&[]);
    let told = put_differences(out, sim, net, row, outputs);
    sim.clock();
    told
}

/// Steps a module through the rows of a dump, in which its first port has this number. The answer is how many rows there are.
fn put_rows(
    alloc: Global,
    out: &mut String,
    net: &Net,
    base: usize,
    rows: &str,
) -> Result<u32, AllocError>
    requires { IsValid net.now }
{
    let Ok(mut sim) = prepare(alloc, net) else {
        return Err(AllocError);
    };
    let count = net.inputs.len().saturating_add(net.outputs.len());
    let mut values = vec![in alloc; 0u128; count]?;
    let mut row = 0u32;
    for part in rows.split('#').skip(1) {
        for line in part.lines().skip(1) {
            put_change(&mut values, base, line);
        }
        put_row(alloc, out, &mut sim, net, row, &values)?;
        row = row.wrapping_add(1);
    }
    Ok(row)
}

/// Puts a line with the name of a module and the count of rows, behind a line for each difference.
fn put_net(
    alloc: Global,
    out: &mut String,
    net: &Net,
    base: usize,
    rows: &str,
) -> Result<(), AllocError> {
    let Ok(valid) = is_valid(alloc, net) else {
        return Err(AllocError);
    };
    if !valid {
        return out.push_str("no valid net\n");
    }
    let count = put_rows(alloc, out, net, base, rows)?;
    write!(out, "{} {count}\n", net.name.as_str())
}

/// Puts a line for each module of a text, which is stepped with the inputs that a dump of its ports shows, behind a line for each output
/// of a row that has another value than in the dump. The text and the dump stand before and behind a byte 31.
pub fn put_followed(out: &mut String, alloc: Global, case: &[u8]) -> Result<(), AllocError> {
    let mut parts = case.split(|byte| *byte == MIDDLE);
    let text = parts.next().unwrap_or(&[]);
    let dump = str::from_utf8(parts.next().unwrap_or(&[])).unwrap_or("");
    if text.len() >= TOO_MANY {
        return out.push_str("too long\n");
    }
    let Ok(nets) = read(alloc, text) else {
        return out.push_str("not read\n");
    };
    let Some((_, rows)) = dump.split_once(LAST_OF_HEAD) else {
        return out.push_str("no dump\n");
    };
    let mut base = 0usize;
    for net in nets.as_slice() {
        put_net(alloc, out, net, base, rows)?;
        base = base
            .saturating_add(net.inputs.len())
            .saturating_add(net.outputs.len());
    }
    Ok(())
}

ghost use Rattle.std.specs.Prelude.{◌≡◌, ◌≤◌, length, IfOk};

use ix_bits::{Bits, List, Memory, Name};
use ix_net::{Bank, Cell, Form, Net, Port, is_valid};
use ix_neteval::{Sim, prepare};
use std::alloc::Global;
use std::process::Abort;
use std::test::Fail;

fn name(alloc: Global, text: &str) -> Result<Name, Fail>
    requires { length text.now ≤ 80 }
{
    Ok(Name::from_text(alloc, text)?)
}

fn port(alloc: Global, text: &str, width: u8) -> Result<Port, Fail>
    requires { length text.now ≤ 80 }
{
    let name = name(alloc, text)?;
    Ok(Port { name, width })
}

fn cell(alloc: Global, text: &str, width: u8, form: Form) -> Result<Cell, Fail>
    requires { length text.now ≤ 80 }
{
    let target = name(alloc, text)?;
    Ok(Cell {
        target,
        width,
        form,
    })
}

fn bits(rt: &impl Abort, raw: u128, width: u8) -> Bits {
    assert!(rt; 1 <= width && width <= 128);
    if width == 128 {
        return Bits { raw, width };
    }
    assert!(rt; raw < 1 << width);
    Bits { raw, width }
}

/// Settles with these inputs.
fn settle(rt: &impl Abort, sim: &mut Sim, inputs: &[Bits])
    ensures { sim.new.net ≡ sim.old.net }
{
    assert!(rt; sim.accepts(inputs));
    sim.settle(inputs);
}

/// The inputs `a0` and `b0` of a width and `c0` of one bit.
fn operands(alloc: Global, width: u8) -> Result<Vec<Port>, Fail> {
    let mut ports = Vec::new(alloc);
    ports.push(port(alloc, "a0", width)?)?;
    ports.push(port(alloc, "b0", width)?)?;
    ports.push(port(alloc, "c0", 1)?)?;
    Ok(ports)
}

fn one_port(alloc: Global, text: &str, width: u8) -> Result<Vec<Port>, Fail>
    requires { length text.now ≤ 80 }
{
    let mut ports = Vec::new(alloc);
    ports.push(port(alloc, text, width)?)?;
    Ok(ports)
}

/// A net with no bank.
fn plain(
    alloc: Global,
    inputs: Vec<Port>,
    cells: Vec<Cell>,
    outputs: Vec<Port>,
) -> Result<Net, Fail> {
    let name = name(alloc, "m_0")?;
    Ok(Net {
        name,
        inputs: List::from_vec(inputs),
        cells: List::from_vec(cells),
        banks: List::new(alloc),
        outputs: List::from_vec(outputs),
    })
}

/// A net of one cell `n0` over these operands.
fn net_of(alloc: Global, width: u8, form: Form, target: u8) -> Result<Net, Fail> {
    let mut cells = Vec::new(alloc);
    cells.push(cell(alloc, "n0", target, form)?)?;
    let inputs = operands(alloc, width)?;
    let outputs = one_port(alloc, "n0", target)?;
    plain(alloc, inputs, cells, outputs)
}

/// A valid net, ready to run, with this many outputs; want of memory stands for a net that is not.
fn ready<'a>(alloc: Global, net: &'a Net, outputs: usize) -> Result<Sim<'a>, Memory>
    ensures { IfOk result (λ s. length s.net.outputs ≡ outputs) }
{
    if !is_valid(alloc, net)? || net.outputs.len() != outputs {
        return Err(Memory);
    }
    prepare(alloc, net)
}

/// Right side `k` in the order of `Form`, over `a0`, `b0` and `c0`; a range is the top bit.
fn form_of(rt: &impl Abort, alloc: Global, k: u8, width: u8) -> Result<Form, Fail> {
    let a = name(alloc, "a0")?;
    let b = name(alloc, "b0")?;
    let c = name(alloc, "c0")?;
    assert!(rt; 1 <= width);
    let top = width - 1;
    Ok(match k {
        0 => Form::Hex(bits(rt, 1, width)),
        1 => Form::Copy(a),
        2 => Form::Add(a, b),
        3 => Form::Sub(a, b),
        4 => Form::Mul(a, b),
        5 => Form::And(a, b),
        6 => Form::Or(a, b),
        7 => Form::Xor(a, b),
        8 => Form::Not(a),
        9 => Form::Eq(a, b),
        10 => Form::Lt(a, b),
        11 => Form::LtSigned(a, b),
        12 => Form::Join(c, a),
        13 => Form::Range {
            source: a,
            hi: top,
            lo: top,
        },
        _ => Form::Choose(c, a, b),
    })
}

/// The value of right side `k` at these operands, with `c0` 1.
fn value_of(
    rt: &impl Abort,
    alloc: Global,
    k: u8,
    width: u8,
    target: u8,
    a: u128,
    b: u128,
) -> Result<u128, Fail> {
    let net = net_of(alloc, width, form_of(rt, alloc, k, width)?, target)?;
    let mut sim = ready(alloc, &net, 1)?;
    let inputs = [bits(rt, a, width), bits(rt, b, width), bits(rt, 1, 1)];
    settle(rt, &mut sim, &inputs);
    let found = sim.output(0);
    assert!(rt; found.width == target);
    Ok(found.raw)
}

#[test]
fn right_sides_at_width_1(rt: HostRuntime) -> Result<(), Fail> {
    let alloc = rt.alloc();
    let expected = [1, 0, 1, 1, 0, 0, 1, 1, 1, 0, 1, 0, 2, 0, 0];
    for k in 0..15u8 {
        let target = if k == 12 { 2 } else { 1 };
        assert_eq!(rt;
            value_of(&rt, alloc, k, 1, target, 0, 1)?,
            expected[k as usize],
            "form {k}"
        );
    }
    Ok(())
}

#[test]
fn right_sides_at_width_128(rt: HostRuntime) -> Result<(), Fail> {
    let alloc = rt.alloc();
    let most = u128::MAX;
    for (k, width, target, a, expected) in [
        (0, 128, 128, most, 1),
        (1, 128, 128, most, most),
        (2, 128, 128, most, 1),
        (3, 128, 128, most, most - 2),
        (4, 128, 128, most, most - 1),
        (5, 128, 128, most, 2),
        (6, 128, 128, most, most),
        (7, 128, 128, most, most - 2),
        (8, 128, 128, most, 0),
        (9, 128, 1, most, 0),
        (10, 128, 1, most, 0),
        (11, 128, 1, most, 1),
        (12, 127, 128, most >> 1, most),
        (13, 128, 1, most, 1),
        (14, 128, 128, most, most),
    ] {
        assert_eq!(rt;
            value_of(&rt, alloc, k, width, target, a, 2)?,
            expected,
            "form {k}"
        );
    }
    Ok(())
}

/// A chain of cells of 8 bits, each the last one turned, listed from the last to the first, which turns the input `n0`.
fn chain(rt: &impl Abort, alloc: Global, count: u32) -> Result<Net, Fail> {
    let mut cells = Vec::new(alloc);
    for k in 0..count {
        let target = format!(in alloc; "n{}", count - k)?;
        let source = format!(in alloc; "n{}", count - k - 1)?;
        assert!(rt; target.len() <= 80 && source.len() <= 80);
        let form = Form::Not(name(alloc, source.as_str())?);
        cells.push(cell(alloc, target.as_str(), 8, form)?)?;
    }
    let last = format!(in alloc; "n{count}")?;
    assert!(rt; last.len() <= 80);
    let inputs = one_port(alloc, "n0", 8)?;
    let outputs = one_port(alloc, last.as_str(), 8)?;
    plain(alloc, inputs, cells, outputs)
}

#[test]
fn a_chain_in_reverse_order(rt: HostRuntime) -> Result<(), Fail> {
    let alloc = rt.alloc();
    let net = chain(&rt, alloc, 1000)?;
    let mut sim = ready(alloc, &net, 1)?;
    settle(&rt, &mut sim, &[bits(&rt, 0xa5, 8)]);
    assert_eq!(rt; sim.output(0).raw, 0xa5);
    Ok(())
}

fn join(alloc: Global, text: &str, high: &str, low: &str) -> Result<Cell, Fail>
    requires text { length text.now ≤ 80 }
    requires high { length high.now ≤ 80 }
    requires low { length low.now ≤ 80 }
{
    let high = name(alloc, high)?;
    let low = name(alloc, low)?;
    cell(alloc, text, 33, Form::Join(high, low))
}

fn adder_cells(alloc: Global) -> Result<Vec<Cell>, Fail> {
    let mut cells = Vec::new(alloc);
    cells.push(cell(alloc, "n0", 1, Form::Hex(Bits { raw: 0, width: 1 }))?)?;
    cells.push(join(alloc, "n1", "n0", "in0")?)?;
    cells.push(join(alloc, "n2", "n0", "in1")?)?;
    let a = name(alloc, "n1")?;
    let b = name(alloc, "n2")?;
    cells.push(cell(alloc, "n3", 33, Form::Add(a, b))?)?;
    let source = name(alloc, "n3")?;
    cells.push(cell(
        alloc,
        "n4",
        32,
        Form::Range {
            source,
            hi: 31,
            lo: 0,
        },
    )?)?;
    let held = name(alloc, "r0")?;
    cells.push(cell(alloc, "out4_v", 32, Form::Copy(held))?)?;
    cells.push(cell(alloc, "out4_c", 1, Form::Hex(Bits { raw: 1, width: 1 }))?)?;
    Ok(cells)
}

fn adder_inputs(alloc: Global) -> Result<Vec<Port>, Fail> {
    let mut ports = Vec::new(alloc);
    ports.push(port(alloc, "en1", 1)?)?;
    ports.push(port(alloc, "in0", 32)?)?;
    ports.push(port(alloc, "in1", 32)?)?;
    Ok(ports)
}

fn adder_outputs(alloc: Global) -> Result<Vec<Port>, Fail> {
    let mut ports = Vec::new(alloc);
    ports.push(port(alloc, "out4_v", 32)?)?;
    ports.push(port(alloc, "out4_c", 1)?)?;
    Ok(ports)
}

fn adder_banks(alloc: Global) -> Result<Vec<Bank>, Fail> {
    let target = name(alloc, "r0")?;
    let enable = name(alloc, "en1")?;
    let source = name(alloc, "n4")?;
    let mut banks = Vec::new(alloc);
    banks.push(Bank {
        target,
        width: 32,
        enable,
        source,
    })?;
    Ok(banks)
}

/// A sum of two inputs of 32 bits, held in a bank: the module of an instruction that adds two registers on five stages.
fn adder(alloc: Global) -> Result<Net, Fail> {
    let name = name(alloc, "ixt_addx")?;
    let inputs = adder_inputs(alloc)?;
    let cells = adder_cells(alloc)?;
    let banks = adder_banks(alloc)?;
    let outputs = adder_outputs(alloc)?;
    Ok(Net {
        name,
        inputs: List::from_vec(inputs),
        cells: List::from_vec(cells),
        banks: List::from_vec(banks),
        outputs: List::from_vec(outputs),
    })
}

/// The two outputs of the adder after cycles with these enables and operands.
fn add_in_cycles(
    rt: &impl Abort,
    alloc: Global,
    cycles: &[(u128, u128, u128)],
) -> Result<(u128, u128), Fail> {
    let net = adder(alloc)?;
    let mut sim = ready(alloc, &net, 2)?;
    for (enable, a, b) in cycles {
        settle(
            rt,
            &mut sim,
            &[bits(rt, *enable, 1), bits(rt, *a, 32), bits(rt, *b, 32)],
        );
        sim.clock();
    }
    settle(
        rt,
        &mut sim,
        &[bits(rt, 0, 1), bits(rt, 0, 32), bits(rt, 0, 32)],
    );
    Ok((sim.output(0).raw, sim.output(1).raw))
}

#[test]
fn a_bank_keeps_a_sum(rt: HostRuntime) -> Result<(), Fail> {
    let alloc = rt.alloc();
    for (cycles, expected) in [
        ([(1, 5, 7)].as_slice(), 12),
        ([(0, 5, 7)].as_slice(), 0),
        ([(1, 5, 7), (0, 1, 1)].as_slice(), 12),
        ([(1, 5, 7), (0, 1, 1), (0, 8, 9)].as_slice(), 12),
        ([(1, 5, 7), (1, 1, 0xffffffff)].as_slice(), 0),
    ] {
        assert_eq!(rt; add_in_cycles(&rt, alloc, cycles)?, (expected, 1));
    }
    Ok(())
}

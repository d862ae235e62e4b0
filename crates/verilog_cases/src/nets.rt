use ix_bits::{Bits, List, Memory, Name};
use ix_net::{Bank, Cell, Form, Net, Port};
use std::alloc::Global;

fn name(alloc: Global, text: &str) -> Result<Name, Memory> {
    if text.len() > 80 {
        return Err(Memory);
    }
    Name::from_text(alloc, text)
}

fn port(alloc: Global, text: &str, width: u8) -> Result<Port, Memory> {
    let name = name(alloc, text)?;
    Ok(Port { name, width })
}

// A right side of one operand, by number.
fn one(alloc: Global, k: u8, a: &str, width: u8) -> Result<Form, Memory> {
    let a = name(alloc, a)?;
    Ok(match k {
        0 => Form::Not(a),
        1 => Form::Copy(a),
        _ => Form::Range {
            source: a,
            hi: width,
            lo: 0,
        },
    })
}

// A right side of two operands, by number.
fn two(alloc: Global, k: u8, a: &str, b: &str) -> Result<Form, Memory> {
    let a = name(alloc, a)?;
    let b = name(alloc, b)?;
    Ok(match k {
        0 => Form::Add(a, b),
        1 => Form::Sub(a, b),
        2 => Form::Mul(a, b),
        3 => Form::And(a, b),
        4 => Form::Or(a, b),
        5 => Form::Xor(a, b),
        6 => Form::Eq(a, b),
        7 => Form::Lt(a, b),
        8 => Form::LtSigned(a, b),
        _ => Form::Join(a, b),
    })
}

fn choice(alloc: Global) -> Result<Form, Memory> {
    let c = name(alloc, "c0")?;
    let a = name(alloc, "a0")?;
    let b = name(alloc, "b0")?;
    Ok(Form::Choose(c, a, b))
}

// The cells of a sum of two words whose low half waits in a register.
fn sum_form(alloc: Global, k: u8) -> Result<Form, Memory> {
    match k {
        0 => Ok(Form::Hex(Bits { raw: 0, width: 1 })),
        1 => two(alloc, 9, "n0", "in0"),
        2 => two(alloc, 9, "n0", "in1"),
        3 => two(alloc, 0, "n1", "n2"),
        4 => one(alloc, 2, "n3", 31),
        5 => one(alloc, 1, "r0", 32),
        _ => Ok(Form::Hex(Bits { raw: 1, width: 1 })),
    }
}

fn sum_target(k: u8) -> (&'static str, u8) {
    match k {
        0 => ("n0", 1),
        1 => ("n1", 33),
        2 => ("n2", 33),
        3 => ("n3", 33),
        4 => ("n4", 32),
        5 => ("out4_v", 32),
        _ => ("out4_c", 1),
    }
}

fn cell(alloc: Global, text: &str, width: u8, form: Form) -> Result<Cell, Memory> {
    match name(alloc, text) {
        Ok(target) => Ok(Cell {
            target,
            width,
            form,
        }),
        Err(_) => Err(Memory),
    }
}

fn sum_cell(alloc: Global, k: u8) -> Result<Cell, Memory> {
    let (text, width) = sum_target(k);
    let form = sum_form(alloc, k)?;
    cell(alloc, text, width, form)
}

fn sum_cells(alloc: Global) -> Result<List<Cell>, Memory> {
    let mut cells = List::new(alloc);
    for k in 0u8..7 {
        cells.push(sum_cell(alloc, k)?)?;
    }
    Ok(cells)
}

fn sum_bank(alloc: Global) -> Result<Bank, Memory> {
    let target = name(alloc, "r0")?;
    let enable = name(alloc, "en1")?;
    let source = name(alloc, "n4")?;
    Ok(Bank {
        target,
        width: 32,
        enable,
        source,
    })
}

fn sum_port(alloc: Global, k: u8) -> Result<Port, Memory> {
    match k {
        0 => port(alloc, "en1", 1),
        1 => port(alloc, "in0", 32),
        2 => port(alloc, "in1", 32),
        3 => port(alloc, "out4_v", 32),
        _ => port(alloc, "out4_c", 1),
    }
}

fn sum_ports(alloc: Global, from: u8, to: u8) -> Result<List<Port>, Memory> {
    let mut ports = List::new(alloc);
    for k in from..to {
        ports.push(sum_port(alloc, k)?)?;
    }
    Ok(ports)
}

fn sum_banks(alloc: Global) -> Result<List<Bank>, Memory> {
    let mut banks = List::new(alloc);
    banks.push(sum_bank(alloc)?)?;
    Ok(banks)
}

/// A sum of two words whose low half waits in a register.
pub fn sum(alloc: Global) -> Result<Net, Memory> {
    let name = name(alloc, "ixt_addx")?;
    let inputs = sum_ports(alloc, 0, 3)?;
    let outputs = sum_ports(alloc, 3, 5)?;
    let banks = sum_banks(alloc)?;
    let cells = sum_cells(alloc)?;
    Ok(Net {
        name,
        inputs,
        cells,
        banks,
        outputs,
    })
}

// Each right side but `{a, b}`, by number.
fn any_form(alloc: Global, k: u8, width: u8) -> Result<Form, Memory> {
    if k < 9 {
        return two(alloc, k, "a0", "b0");
    }
    match k {
        9 => one(alloc, 0, "a0", width),
        10 => Ok(Form::Hex(ones(width))),
        11 => one(alloc, 1, "b0", width),
        12 => choice(alloc),
        _ => one(alloc, 2, "a0", if width == 1 { 0 } else { 127 }),
    }
}

fn ones(width: u8) -> Bits {
    if width == 1 {
        Bits { raw: 1, width: 1 }
    } else {
        Bits {
            raw: u128::MAX,
            width: 128,
        }
    }
}

fn any_cell(alloc: Global, k: u8, width: u8) -> Result<Cell, Memory> {
    let Ok(text) = format!(in alloc; "w{k}") else {
        return Err(Memory);
    };
    let form = any_form(alloc, k, width)?;
    cell(
        alloc,
        text.as_str(),
        if k < 6 || k > 8 { width } else { 1 },
        form,
    )
}

fn any_cells(alloc: Global, width: u8) -> Result<List<Cell>, Memory> {
    let mut cells = List::new(alloc);
    for k in 0u8..14 {
        cells.push(any_cell(alloc, k, width)?)?;
    }
    Ok(cells)
}

fn any_inputs(alloc: Global, width: u8) -> Result<List<Port>, Memory> {
    let mut ports = List::new(alloc);
    ports.push(port(alloc, "a0", width)?)?;
    ports.push(port(alloc, "b0", width)?)?;
    ports.push(port(alloc, "c0", 1)?)?;
    Ok(ports)
}

/// A module of the words at widths 1 or 128, with each right side but `{a, b}`.
pub fn every_form(alloc: Global, text: &str, width: u8) -> Result<Net, Memory> {
    let name = name(alloc, text)?;
    let inputs = any_inputs(alloc, width)?;
    let cells = any_cells(alloc, width)?;
    Ok(Net {
        name,
        inputs,
        cells,
        banks: List::new(alloc),
        outputs: List::new(alloc),
    })
}

fn far_name(alloc: Global, k: u32) -> Result<Name, Memory> {
    let Ok(text) = format!(in alloc; "n{k}") else {
        return Err(Memory);
    };
    name(alloc, text.as_str())
}

// A cell that adds the one before it to itself.
fn far_cell(alloc: Global, k: u32) -> Result<Cell, Memory> {
    let target = far_name(alloc, k.wrapping_add(1))?;
    let a = far_name(alloc, k)?;
    let b = far_name(alloc, k)?;
    Ok(Cell {
        target,
        width: 32,
        form: Form::Add(a, b),
    })
}

fn far_cells(alloc: Global, count: u32) -> Result<List<Cell>, Memory> {
    let mut cells = List::new(alloc);
    for k in 0..count {
        cells.push(far_cell(alloc, k)?)?;
    }
    Ok(cells)
}

/// A chain of so many cells.
pub fn far(alloc: Global, count: u32) -> Result<Net, Memory> {
    let name = name(alloc, "far_0")?;
    let mut inputs = List::new(alloc);
    inputs.push(port(alloc, "n0", 32)?)?;
    let cells = far_cells(alloc, count)?;
    Ok(Net {
        name,
        inputs,
        cells,
        banks: List::new(alloc),
        outputs: List::new(alloc),
    })
}

ghost use Rattle.std.specs.Prelude.{◌≤◌, length};

use ix_bits::{Bits, List, Name};
use ix_net::{Bank, Cell, Form, Net, Port, is_valid};
use std::alloc::Global;
use std::test::Fail;

fn name(alloc: Global, text: &str) -> Result<Name, Fail>
    requires { length text.now ≤ 80 }
{
    Ok(Name::from_text(alloc, text)?)
}

fn port(alloc: Global, text: &str, width: u8) -> Result<Port, Fail>
    requires { length text.now ≤ 80 }
{
    let name = name(alloc, text)?;
    Ok(Port { name, width })
}

fn cell(alloc: Global, text: &str, width: u8, form: Form) -> Result<Cell, Fail>
    requires { length text.now ≤ 80 }
{
    match name(alloc, text) {
        Ok(target) => Ok(Cell {
            target,
            width,
            form,
        }),
        Err(error) => Err(error),
    }
}

/// Whether the net `m_0` with these parts, the inputs `a0` and `e0` of 8 and 1 bits and the output `n0` of 8 bits is valid.
fn judge(alloc: Global, cells: Vec<Cell>, banks: Vec<Bank>) -> Result<bool, Fail> {
    let inputs = vec![in alloc; port(alloc, "a0", 8)?, port(alloc, "e0", 1)?]?;
    let outputs = vec![in alloc; port(alloc, "n0", 8)?]?;
    let net = Net {
        name: name(alloc, "m_0")?,
        inputs: List::from_vec(inputs),
        cells: List::from_vec(cells),
        banks: List::from_vec(banks),
        outputs: List::from_vec(outputs),
    };
    Ok(is_valid(alloc, &net)?)
}

/// Whether the net with two cells of 8 bits, copies of these names, is valid.
fn judge_copies(alloc: Global, first: &str, second: &str) -> Result<bool, Fail>
    requires first { length first.now ≤ 80 }
    requires second { length second.now ≤ 80 }
{
    let n0 = cell(alloc, "n0", 8, Form::Copy(name(alloc, first)?))?;
    let n1 = cell(alloc, "n1", 8, Form::Copy(name(alloc, second)?))?;
    let cells = vec![in alloc; n0, n1]?;
    judge(alloc, cells, Vec::new(alloc))
}

/// Whether the net of this name that declares nothing is valid.
fn judge_name(alloc: Global, text: &str) -> Result<bool, Fail>
    requires { length text.now ≤ 80 }
{
    let net = Net {
        name: name(alloc, text)?,
        inputs: List::new(alloc),
        cells: List::new(alloc),
        banks: List::new(alloc),
        outputs: List::new(alloc),
    };
    Ok(is_valid(alloc, &net)?)
}

#[test]
fn names_follow_the_rule(rt: HostRuntime) -> Result<(), Fail> {
    for (text, right) in [
        ("n0", true),
        ("_", true),
        ("a_b", true),
        ("tri2", true),
        ("x1y", true),
        ("", false),
        ("clk", false),
        ("0a", false),
        ("a-1", false),
        ("tri0", false),
        ("pulsestyle_onevent", false),
    ] {
        assert!(rt; text.len() <= 80);
        assert_eq!(rt; judge_name(rt.alloc(), text)?, right, "at {text:?}");
    }
    Ok(())
}

#[test]
fn cells_stand_in_any_order(rt: HostRuntime) -> Result<(), Fail> {
    assert!(rt; judge_copies(rt.alloc(), "n1", "a0")?);
    assert!(rt; judge_copies(rt.alloc(), "a0", "n0")?);
    Ok(())
}

#[test]
fn two_cells_that_copy_each_other_are_refused(rt: HostRuntime) -> Result<(), Fail> {
    assert!(rt; !judge_copies(rt.alloc(), "n1", "n0")?);
    assert!(rt; !judge_copies(rt.alloc(), "a0", "n1")?);
    Ok(())
}

#[test]
fn names_and_widths_of_operands_are_judged(rt: HostRuntime) -> Result<(), Fail> {
    assert!(rt; !judge_copies(rt.alloc(), "a0", "n2")?, "no such name");
    assert!(rt; !judge_copies(rt.alloc(), "a0", "e0")?, "a name of one bit");
    Ok(())
}

#[test]
fn a_doubled_driver_is_refused(rt: HostRuntime) -> Result<(), Fail> {
    let alloc = rt.alloc();
    let zero = Bits { raw: 0, width: 8 };
    let first = cell(alloc, "n0", 8, Form::Hex(zero))?;
    let once = vec![in alloc; first]?;
    assert!(rt; judge(alloc, once, Vec::new(alloc))?);
    let first = cell(alloc, "n0", 8, Form::Hex(zero))?;
    let second = cell(alloc, "n0", 8, Form::Hex(zero))?;
    let twice = vec![in alloc; first, second]?;
    assert!(rt; !judge(alloc, twice, Vec::new(alloc))?);
    Ok(())
}

#[test]
fn a_loop_through_a_bank_is_accepted(rt: HostRuntime) -> Result<(), Fail> {
    let alloc = rt.alloc();
    let n0 = cell(alloc, "n0", 8, Form::Not(name(alloc, "r0")?))?;
    let cells = vec![in alloc; n0]?;
    let r0 = Bank {
        target: name(alloc, "r0")?,
        width: 8,
        enable: name(alloc, "e0")?,
        source: name(alloc, "n0")?,
    };
    let banks = vec![in alloc; r0]?;
    assert!(rt; judge(alloc, cells, banks)?);
    Ok(())
}

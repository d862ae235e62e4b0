ghost use Rattle.std.specs.Prelude.{◌≡◌, ◌++◌, ◌+◌, ◌<◌, ◌≤◌, ◌^◌, ◌-◌, ℕ, [], ◌∷◌, codes, decimal, OnOk, suc};
ghost use Rattle.ix_net.specs.Valid.{IsWidth};
ghost use Rattle.ix_verilog.specs.Lines.{hex, hex_upto, hex_digit};
ghost use Rattle.ix_vprint.specs.Short.{IsShort};
ghost use Rattle.ix_vprint.specs.Printed.{port_name, port_text, pair_text, form_text, cell_text, bank_text};

use itoa::Buffer;
use ix_bits::{Bits, Memory};
use ix_net::{Bank, Cell, Form, Port};

/// Appends a text.
pub fn put(out: &mut Vec<u8>, text: &str) -> Result<(), Memory>
    ensures { OnOk result (out.new.items ≡ out.old.items ++ text.now) }
{
    match out.extend_from_slice(text.as_bytes()) {
        Ok(()) => Ok(()),
        Err(_) => Err(Memory),
    }
}

/// Appends a number in decimal digits.
fn put_number(out: &mut Vec<u8>, number: u8) -> Result<(), Memory>
    ensures { OnOk result (out.new.items ≡ out.old.items ++ decimal number) }
{
    put(out, Buffer::new().format(number))
}

/// The lower-case character of a hexadecimal digit.
fn digit(value: u8) -> u8
    requires { value < 16 }
    ensures { result ≡ hex_digit value }
{
    if value < 10 {
        b'0' + value
    } else {
        b'a' - 10 + value
    }
}

/// Appends a hexadecimal digit.
fn put_digit(out: &mut Vec<u8>, value: u8) -> Result<(), Memory>
    requires { value < 16 }
    ensures { OnOk result (out.new.items ≡ out.old.items ++ hex_digit value ∷ []) }
{
    out.push(digit(value))?;
    Ok(())
}

/// Appends a number in lower-case hexadecimal digits without leading zeros.
fn put_digits(out: &mut Vec<u8>, number: u128) -> Result<(), Memory>
    ensures { OnOk result ((n : ℕ) → number < 16 ^ suc n → out.new.items ≡ out.old.items ++ hex_upto (suc n) number) }
{
    if number < 16 {
        put_digit(out, number as u8)
    } else {
        put_digits(out, number / 16)?;
        put_digit(out, (number % 16) as u8)
    }
}

/// Appends a number of a width, as `8'h2a`.
fn put_hex(out: &mut Vec<u8>, number: Bits) -> Result<(), Memory>
    ensures { OnOk result (out.new.items ≡ out.old.items ++ form_text (Form.Hex number)) }
{
    put_number(out, number.width)?;
    put(out, "'h")?;
    put_digits(out, number.raw)?;
    put(out, ";\n")
}

/// Appends a port behind a comma.
pub fn put_name(out: &mut Vec<u8>, port: &Port) -> Result<(), Memory>
    ensures text { OnOk result (out.new.items ≡ out.old.items ++ port_name port.now) }
    ensures short { OnOk result (IsShort port.now.name) }
{
    put(out, ", ")?;
    put(out, port.name.as_str())
}

/// Appends a line that declares a name.
pub fn put_port(out: &mut Vec<u8>, front: &str, name: &str, width: u8) -> Result<(), Memory>
    requires { 1 ≤ width }
    ensures { OnOk result (out.new.items ≡ out.old.items ++ port_text front.now (record { name = name.now; width = width })) }
{
    put(out, front)?;
    put_number(out, width - 1)?;
    put(out, ":0] ")?;
    put(out, name)?;
    put(out, ";\n")
}

/// Appends two operands with a sign between, and the end of the line.
fn put_pair(out: &mut Vec<u8>, a: &str, sign: &str, b: &str) -> Result<(), Memory>
    ensures { OnOk result (out.new.items ≡ out.old.items ++ pair_text a.now sign.now b.now) }
{
    put(out, a)?;
    put(out, sign)?;
    put(out, b)?;
    put(out, ";\n")
}

/// Appends an operand between two texts.
fn put_between(out: &mut Vec<u8>, front: &str, a: &str, end: &str) -> Result<(), Memory>
    ensures { OnOk result (out.new.items ≡ out.old.items ++ (front.now ++ (a.now ++ end.now))) }
{
    put(out, front)?;
    put(out, a)?;
    put(out, end)
}

fn put_signed(out: &mut Vec<u8>, a: &str, b: &str) -> Result<(), Memory>
    ensures { OnOk result (out.new.items ≡ out.old.items ++ form_text (Form.LtSigned a.now b.now)) }
{
    put_between(out, "$signed(", a, ") < $signed(")?;
    put(out, b)?;
    put(out, ");\n")
}

fn put_join(out: &mut Vec<u8>, a: &str, b: &str) -> Result<(), Memory>
    ensures { OnOk result (out.new.items ≡ out.old.items ++ form_text (Form.Join a.now b.now)) }
{
    put_between(out, "{", a, ", ")?;
    put(out, b)?;
    put(out, "};\n")
}

fn put_range(out: &mut Vec<u8>, a: &str, hi: u8, lo: u8) -> Result<(), Memory>
    ensures { OnOk result (out.new.items ≡ out.old.items ++ form_text (Form.Range a.now hi lo)) }
{
    put(out, a)?;
    put(out, "[")?;
    put_number(out, hi)?;
    put(out, ":")?;
    put_number(out, lo)?;
    put(out, "];\n")
}

fn put_choice(out: &mut Vec<u8>, c: &str, a: &str, b: &str) -> Result<(), Memory>
    ensures { OnOk result (out.new.items ≡ out.old.items ++ form_text (Form.Choose c.now a.now b.now)) }
{
    put(out, c)?;
    put(out, " ? ")?;
    put_pair(out, a, " : ", b)
}

/// Appends a right side, and the end of the line.
fn put_form(out: &mut Vec<u8>, form: &Form) -> Result<(), Memory>
    ensures { OnOk result (out.new.items ≡ out.old.items ++ form_text form.now) }
{
    match form {
        Form::Hex(number) => put_hex(out, *number),
        Form::Copy(a) => put_between(out, "", a.as_str(), ";\n"),
        Form::Add(a, b) => put_pair(out, a.as_str(), " + ", b.as_str()),
        Form::Sub(a, b) => put_pair(out, a.as_str(), " - ", b.as_str()),
        Form::Mul(a, b) => put_pair(out, a.as_str(), " * ", b.as_str()),
        Form::And(a, b) => put_pair(out, a.as_str(), " & ", b.as_str()),
        Form::Or(a, b) => put_pair(out, a.as_str(), " | ", b.as_str()),
        Form::Xor(a, b) => put_pair(out, a.as_str(), " ^ ", b.as_str()),
        Form::Not(a) => put_between(out, "~", a.as_str(), ";\n"),
        Form::Eq(a, b) => put_pair(out, a.as_str(), " == ", b.as_str()),
        Form::Lt(a, b) => put_pair(out, a.as_str(), " < ", b.as_str()),
        Form::LtSigned(a, b) => put_signed(out, a.as_str(), b.as_str()),
        Form::Join(a, b) => put_join(out, a.as_str(), b.as_str()),
        Form::Range { source, hi, lo } => put_range(out, source.as_str(), *hi, *lo),
        Form::Choose(c, a, b) => put_choice(out, c.as_str(), a.as_str(), b.as_str()),
    }
}

/// Appends an assignment.
pub fn put_cell(out: &mut Vec<u8>, cell: &Cell) -> Result<(), Memory>
    ensures text { OnOk result (out.new.items ≡ out.old.items ++ cell_text cell.now) }
    ensures short { OnOk result (IsShort cell.now.target) }
{
    put(out, "  assign ")?;
    put(out, cell.target.as_str())?;
    put(out, " = ")?;
    put_form(out, &cell.form)
}

/// Appends what a register does at the edge of the clock.
pub fn put_bank(out: &mut Vec<u8>, bank: &Bank) -> Result<(), Memory>
    ensures text { OnOk result (out.new.items ≡ out.old.items ++ bank_text bank.now) }
    ensures short { OnOk result (IsShort bank.now.target) }
{
    put(out, "    if (")?;
    put(out, bank.enable.as_str())?;
    put(out, ") ")?;
    put(out, bank.target.as_str())?;
    put(out, " <= ")?;
    put(out, bank.source.as_str())?;
    put(out, ";\n")
}

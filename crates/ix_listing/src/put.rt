ghost use Rattle.std.specs.Prelude.{◌≡◌, ◌<◌, ◌/◌, ◌%◌, ◌^◌, ◌++◌, [], ◌∷◌, decimal, string_bytes, OnOk};
ghost use Rattle.ix_io.specs.Out.{hex_digit, hex_digits};
ghost use Rattle.ix_listing.specs.Listing.{type_text, named_line};

use itoa::Buffer;
use ix_bits::{Memory, Ty};

/// Appends a text.
pub fn put(out: &mut String, text: &str) -> Result<(), Memory>
    ensures { OnOk result (string_bytes out.new ≡ string_bytes out.old ++ text.now) }
{
    match out.push_str(text) {
        Ok(()) => Ok(()),
        Err(_) => Err(Memory),
    }
}

/// Appends a number in decimal digits.
pub fn put_number(out: &mut String, number: u64) -> Result<(), Memory>
    ensures { OnOk result (string_bytes out.new ≡ string_bytes out.old ++ decimal number) }
{
    put(out, Buffer::new().format(number))
}

/// The lower-case character of a hexadecimal digit.
fn digit(value: u8) -> &'static str
    requires { value < 16 }
    ensures { result.now ≡ hex_digit value ∷ [] }
{
    match value {
        0 => "0",
        1 => "1",
        2 => "2",
        3 => "3",
        4 => "4",
        5 => "5",
        6 => "6",
        7 => "7",
        8 => "8",
        9 => "9",
        10 => "a",
        11 => "b",
        12 => "c",
        13 => "d",
        14 => "e",
        15 => "f",
        _ => unreachable!(),
    }
}

/// The hexadecimal digit at a place, counted from the last digit.
fn digit_at(word: u32, place: u8) -> &'static str
    requires { place < 8 }
    ensures { result.now ≡ hex_digit (word / 16 ^ place % 16) ∷ [] }
{
    digit(((word >> (4 * place)) % 16) as u8)
}

/// Appends a word in eight lower-case hexadecimal digits.
pub fn put_word(out: &mut String, word: u32) -> Result<(), Memory>
    ensures { OnOk result (string_bytes out.new ≡ string_bytes out.old ++ hex_digits 8 word) }
{
    for place in (0..8u8).rev() {
        put(out, digit_at(word, place))?;
    }
    Ok(())
}

/// Appends a type, as `unsigned<32>`.
pub fn put_type(out: &mut String, ty: Ty) -> Result<(), Memory>
    ensures { OnOk result (string_bytes out.new ≡ string_bytes out.old ++ type_text ty) }
{
    put(out, if ty.signed { "signed<" } else { "unsigned<" })?;
    put_number(out, u64::from(ty.width))?;
    put(out, ">")
}

/// Appends a line of a word, a space and a name.
pub fn put_named(out: &mut String, word: &str, name: &str) -> Result<(), Memory>
    ensures { OnOk result (string_bytes out.new ≡ string_bytes out.old ++ named_line word.now name.now) }
{
    put(out, word)?;
    put(out, " ")?;
    put(out, name)?;
    put(out, "\n")
}

ghost use Rattle.std.specs.Prelude.{◌≡◌, ◌↔◌, ◌<◌, ◌≤◌, ◌^◌, true, take, drop, length, IsTrue, MatchOption, decimal, ℕ};
ghost use Rattle.std.specs.List.{list_all};
ghost use Rattle.ix_net.specs.Name.{IsName};
ghost use Rattle.ix_verilog.specs.Words.{Stops, is_digit as specified_is_digit};

use itoa::Buffer;
use ix_net::is_name;

/// Whether the byte is a decimal digit.
pub fn is_digit(byte: u8) -> bool
    ensures { result ≡ specified_is_digit byte }
{
    byte.is_ascii_digit()
}

/// The length of the longest front of decimal digits.
pub fn leading_digits(word: &[u8]) -> usize
    ensures within { result ≤ length word.now }
    ensures inside { list_all specified_is_digit (take result word.now) ≡ true }
    ensures stops { Stops specified_is_digit (drop result word.now) }
{
    for (i, byte) in word.iter().enumerate() {
        if !is_digit(*byte) {
            return i;
        }
    }
    word.len()
}

/// Whether the word is the number in decimal digits.
fn is_written(number: u8, word: &[u8]) -> bool
    ensures { IsTrue result ↔ (decimal number ≡ word.now) }
{
    Buffer::new().format(number).as_bytes() == word
}

/// A number below 256, in decimal digits without leading zeros.
pub fn decimal_in(word: &[u8]) -> Option<u8>
    ensures { MatchOption result ((n : ℕ) → n < 2 ^ 8 → decimal n ≡ word.now → ⊥) (λ n. decimal n ≡ word.now) }
{
    let Ok(text) = str::from_utf8(word) else {
        return None;
    };
    let Ok(number) = text.parse::<u8>() else {
        return None;
    };
    if is_written(number, word) {
        Some(number)
    } else {
        None
    }
}

/// The place of a bit of an operand, 0 to 127, in decimal digits without leading zeros.
pub fn place_in(word: &[u8]) -> Option<u8>
    ensures { MatchOption result ((n : ℕ) → n ≤ 127 → decimal n ≡ word.now → ⊥) (λ n. (n ≤ 127) × (decimal n ≡ word.now)) }
{
    let number = decimal_in(word)?;
    if number > 127 {
        return None;
    }
    Some(number)
}

/// The word as a text, where it is a name.
pub fn name_in(word: &[u8]) -> Option<&str>
    ensures { MatchOption result (IsName word.now → ⊥) (λ text. (text.now ≡ word.now) × IsName word.now) }
{
    match str::from_utf8(word) {
        Ok(text) => { if is_name(text) { Some(text) } else { None } }
        Err(_) => None,
    }
}

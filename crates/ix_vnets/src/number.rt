ghost use Rattle.std.specs.Prelude.{◌≡◌, ◌↔◌, ◌+◌, ◌-◌, ◌*◌, ◌<◌, ◌≤◌, ◌^◌, ◌++◌, length, IsTrue, MatchOption, codes, decimal, ℕ};
ghost use Rattle.ix_bits.specs.declared.number.Bits.{Bits as bits_type};
ghost use Rattle.ix_net.specs.Valid.{IsWidth};
ghost use Rattle.ix_verilog.specs.Lines.{hex, hex_upto, hex_digit};
ghost use Rattle.ix_vnets.specs.Numbers.{HasDigits, IsHexOf, literal_word};

use ix_bits::Bits;
use ix_verilog::{decimal_in, leading_digits};

/// The most hexadecimal digits of a number of 128 bits.
const MOST_DIGITS: usize = 32;

/// A width of 1 to 128 bits, in decimal digits without leading zeros.
fn width_in(word: &[u8]) -> Option<u8>
    ensures { MatchOption result ((w : ℕ) → IsWidth w → decimal w ≡ word.now → ⊥) (λ w. IsWidth w × (decimal w ≡ word.now)) }
{
    let number = decimal_in(word)?;
    if number < 1 || number > 128 {
        return None;
    }
    Some(number)
}

/// The number of a hexadecimal digit in lower case.
fn digit_in(byte: u8) -> Option<u8>
    ensures { MatchOption result ((x : ℕ) → x < 16 → hex_digit x ≡ byte → ⊥) (λ x. (x < 16) × (hex_digit x ≡ byte)) }
{
    if byte >= b'0' && byte <= b'9' {
        return Some(byte - b'0');
    }
    if byte >= b'a' && byte <= b'f' {
        return Some(byte - b'a' + 10);
    }
    None
}

/// The number behind whose digits one more stands; None where they are those of 0.
fn joined(front: u128, digit: u8) -> Option<u128>
    requires front_small { front < 16 ^ 31 }
    requires digit_small { digit < 16 }
    ensures { MatchOption result (front ≡ 0) (λ x. (1 ≤ front) × (x ≡ front * 16 + digit)) }
{
    if front == 0 {
        return None;
    }
    Some(front * 16 + u128::from(digit))
}

/// The number of at most 32 hexadecimal digits, which do not begin with 0 where they are more than one.
fn number_in(digits: &[u8]) -> Option<u128>
    requires { length digits.now ≤ 32 }
    ensures { MatchOption result ((x : ℕ) → IsHexOf x digits.now → ⊥) (λ x. HasDigits x digits.now × (x < 16 ^ length digits.now)) }
{
    match digits {
        [] => None,
        [only] => match digit_in(*only) {
            Some(digit) => Some(u128::from(digit)),
            None => None,
        },
        [front @ .., last] => {
            let Some(low) = digit_in(*last) else {
                return None;
            };
            let Some(high) = number_in(front) else {
                return None;
            };
            joined(high, low)
        }
    }
}

/// The greatest number of a width.
fn greatest(width: u8) -> u128
    requires { IsWidth width }
    ensures { result ≡ 2 ^ width - 1 }
{
    u128::MAX >> (128 - width)
}

/// Whether a number is below `2^width`.
fn is_below(number: u128, width: u8) -> bool
    requires { IsWidth width }
    ensures { IsTrue result ↔ (number < 2 ^ width) }
{
    number <= greatest(width)
}

/// The number behind `'h`.
fn based(word: &[u8]) -> Option<u128>
    ensures { MatchOption result ((x : ℕ) → x < 2 ^ 128 → codes "'h" ++ hex x ≡ word.now → ⊥) (λ x. codes "'h" ++ hex x ≡ word.now) }
{
    let [quote, base, number @ ..] = word else {
        return None;
    };
    if *quote != b'\'' || *base != b'h' {
        return None;
    }
    if number.len() > MOST_DIGITS {
        return None;
    }
    number_in(number)
}

/// A number of a width, as `8'h2a`.
pub fn literal_in(word: &[u8]) -> Option<Bits>
    ensures { MatchOption result ((d : bits_type) → literal_word d ≡ word.now → ⊥) (λ d. literal_word d ≡ word.now) }
{
    let (front, rest) = word.split_at(leading_digits(word));
    let Some(width) = width_in(front) else {
        return None;
    };
    let Some(raw) = based(rest) else {
        return None;
    };
    if is_below(raw, width) {
        Some(Bits { raw, width })
    } else {
        None
    }
}

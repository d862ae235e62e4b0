ghost use Rattle.std.specs.Prelude.{◌≡◌, ◌≤◌, length, map, IfOk};
ghost use Rattle.rv_asm.specs.NumbersText.{parts_of, digit_value as specified_digit_value, decimal_number as specified_decimal_number};

use std::alloc::{AllocError, Global};

/// The value of a decimal digit.
fn digit_value(b: u8) -> Option<u8>
    ensures { result ≡ specified_digit_value b }
{
    match b {
        b'0'..=b'9' => Some(b - b'0'),
        _ => None,
    }
}

/// The number that at most six decimal digits write.
pub fn decimal_number(word: &[u8]) -> Option<u32>
    requires { length word.now ≤ 6 }
    ensures { result ≡ specified_decimal_number 0 word.now }
{
    let mut number = 0u32;
    for b in word {
        match digit_value(*b) {
            None => return None,
            Some(digit) => number = 10 * number + u32::from(digit),
        }
    }
    Some(number)
}

/// The parts of a text that white space parts, of which many may be empty.
pub fn parts(alloc: Global, bytes: &[u8]) -> Result<Vec<&[u8]>, AllocError>
    ensures { IfOk result (λ parts. map (λ part. part.now) parts.items ≡ parts_of bytes.now) }
{
    bytes
        .split(|b| *b == b' ' || *b == b'\t' || *b == b'\r' || *b == b'\n')
        .collect(alloc)
}

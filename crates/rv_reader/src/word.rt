ghost use Rattle.std.specs.Prelude.{◌≡◌, ◌≢◌, ℕ, ◌≤◌, ◌++◌, List, MatchOption, Option, Some, None, decimal};
ghost use Rattle.std.specs.Str.{bytes_eq};
ghost use Rattle.rv_reader.specs.Words.{until, from, behind_in, number_in, below_in, digit_in, hex_from, digits_in};

use ix_lines::number;

/// What stands before the first of these bytes, and what stands from it on.
pub fn split(text: &[u8], by: u8) -> (&[u8], &[u8])
    ensures before { result.0.now ≡ until by text.now }
    ensures rest { result.1.now ≡ from by text.now }
{
    for (end, byte) in text.iter().enumerate() {
        if *byte == by {
            return (&text[..end], &text[end..]);
        }
    }
    (text, &text[text.len()..])
}

/// What stands behind a front.
pub fn behind<'a>(text: &'a [u8], front: &[u8]) -> Option<&'a [u8]>
    ensures { MatchOption result (behind_in front.now text.now ≡ None) (λ rest. behind_in front.now text.now ≡ Some rest.now) }
{
    ix_lines::behind(text, front)
}

/// Whether a word is this one.
pub fn is(word: &[u8], label: &[u8]) -> bool
    ensures { result ≡ bytes_eq word.now label.now }
{
    word == label
}

/// The number that a word is, of 32 bits.
pub fn serial(word: &[u8]) -> Option<u32>
    ensures { result ≡ number_in 4294967295 word.now }
{
    match number(word, 0xffff_ffff) {
        Some(number) => Some(number as u32),
        None => None,
    }
}

/// The number that a word is, of 8 bits.
pub fn small(word: &[u8]) -> Option<u8>
    ensures { result ≡ number_in 255 word.now }
{
    match number(word, 255) {
        Some(number) => Some(number as u8),
        None => None,
    }
}

/// The number below this one that a word is.
pub fn below(word: &[u8], count: usize) -> Option<u8>
    ensures { result ≡ below_in count word.now }
{
    let Some(number) = small(word) else {
        return None;
    };
    if (number as usize) < count {
        Some(number)
    } else {
        None
    }
}

fn digit(byte: u8) -> Option<u8>
    ensures { result ≡ digit_in byte }
{
    if 48 <= byte && byte <= 57 {
        return Some(byte - 48);
    }
    if 97 <= byte && byte <= 102 {
        return Some(byte - 87);
    }
    None
}

/// The number that a word is in so many lower-case hexadecimal digits.
pub fn digits(word: &[u8], count: usize) -> Option<u128>
    requires { count ≤ 32 }
    ensures { result ≡ digits_in count word.now }
{
    if word.len() != count {
        return None;
    }
    let mut value = 0u128;
    for byte in word {
        let Some(digit) = digit(*byte) else {
            return None;
        };
        value = value * 16 + digit as u128;
    }
    Some(value)
}

/// The number that a word is in eight lower-case hexadecimal digits.
pub fn address(word: &[u8]) -> Option<u32>
    ensures { result ≡ digits_in 8 word.now }
{
    match digits(word, 8) {
        Some(value) => Some(value as u32),
        None => None,
    }
}

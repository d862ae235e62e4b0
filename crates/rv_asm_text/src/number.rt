ghost use Rattle.std.specs.Prelude.{◌≡◌, ◌<◌, ◌≤◌, IfSome};
ghost use Rattle.rv_asm_text.specs.Numbers.{most_size, digit_value as specified_digit_value, digit_of as specified_digit_of, digits_size, size_of as specified_size_of, has_prefix as specified_has_prefix, without_two as specified_without_two, natural_of as specified_natural_of, positive as specified_positive, negative as specified_negative, number_of};

/// A whole number of a source: its sign and its size. A zero has no sign.
#[derive(Clone, Copy, Debug, PartialEq, Eq)]
pub struct Number {
    pub is_negative: bool,
    /// At most 2^40, which stands for all that is greater.
    pub size: u64,
}

/// The greatest size.
const MOST_SIZE: u64 = 1 << 40;

fn digit_value(b: u8) -> Option<u8>
    ensures { result ≡ specified_digit_value b }
{
    match b {
        b'0'..=b'9' => Some(b - b'0'),
        b'A'..=b'F' => Some(b - b'A' + 10),
        b'a'..=b'f' => Some(b - b'a' + 10),
        _ => None,
    }
}

fn digit_of(base: u8, b: u8) -> Option<u8>
    ensures value { result ≡ specified_digit_of base b }
    ensures below { IfSome result (λ digit. digit < base) }
{
    match digit_value(b) {
        None => None,
        Some(digit) => { if digit < base { Some(digit) } else { None } }
    }
}

/// The number that the digits of a base of at most 16 write.
fn size_of(base: u8, word: &[u8]) -> Option<u64>
    requires { base ≤ 16 }
    ensures value { result ≡ specified_size_of base word.now }
    ensures most { IfSome result (λ size. size ≤ most_size) }
{
    if word.is_empty() {
        return None;
    }
    let mut size = 0u64;
    for b in word {
        match digit_of(base, *b) {
            None => return None,
            Some(digit) => size = (u64::from(base) * size + u64::from(digit)).min(MOST_SIZE),
        }
    }
    Some(size)
}

fn has_prefix(word: &[u8]) -> bool
    ensures { result ≡ specified_has_prefix word.now }
{
    match word {
        [a, b, ..] => *a == b'0' && *b == b'x',
        [_] | [] => false,
    }
}

fn without_two(word: &[u8]) -> &[u8]
    ensures { result.now ≡ specified_without_two word.now }
{
    match word {
        [_, _, rest @ ..] => rest,
        [_] | [] => &[],
    }
}

fn natural_of(word: &[u8]) -> Option<u64>
    ensures value { result ≡ specified_natural_of word.now }
    ensures most { IfSome result (λ size. size ≤ most_size) }
{
    if has_prefix(word) {
        size_of(16, without_two(word))
    } else {
        size_of(10, word)
    }
}

fn positive(size: u64) -> Number
    ensures { result ≡ specified_positive size }
{
    Number {
        is_negative: false,
        size,
    }
}

fn negative(size: u64) -> Number
    ensures { result ≡ specified_negative size }
{
    Number {
        is_negative: size > 0,
        size,
    }
}

/// The number that a word writes: decimal digits with an optional `-`, or hexadecimal digits behind `0x`.
#[tactic(auto, unfolding(crate::specs::Numbers::number_of))]
pub fn read_number(word: &[u8]) -> Option<Number>
    ensures value { result ≡ number_of word.now }
    ensures most { IfSome result (λ number. number.size ≤ most_size) }
{
    let Some((first, rest)) = word.split_first() else {
        return None;
    };
    if *first == b'-' {
        match size_of(10, rest) {
            None => None,
            Some(size) => Some(negative(size)),
        }
    } else {
        match natural_of(word) {
            None => None,
            Some(size) => Some(positive(size)),
        }
    }
}

ghost use Rattle.std.specs.Prelude.{◌≡◌, ℕ, ◌+◌, ◌<◌, ◌≤◌, ◌∷◌, length, take, drop, true, false, IfNone, IfSome};
ghost use Rattle.std.specs.List.{list_all};
ghost use Rattle.ix_verilog.specs.Words.{is_space as specified_is_space, is_opening as specified_is_opening, begins as specified_begins, Stops, IsComment, NoComment, ends_comment};
ghost use Rattle.ix_vread.specs.Fronts.{belongs_to};

use ix_verilog::is_digit;

/// The bytes that a run goes over.
#[derive(Clone, Copy)]
pub enum Class {
    Name,
    Number,
    Line,
}

/// Whether the byte is space, tab, carriage return or line feed.
pub fn is_space(b: u8) -> bool
    ensures { result ≡ specified_is_space b }
{
    b == b' ' || b == b'\t' || b == b'\r' || b == b'\n'
}

/// Whether the byte is a letter, `_` or `$`.
pub fn is_opening(b: u8) -> bool
    ensures { result ≡ specified_is_opening b }
{
    b.is_ascii_alphabetic() || b == b'_' || b == b'$'
}

/// Whether the byte is of the class.
fn belongs(class: Class, b: u8) -> bool
    ensures { result ≡ belongs_to class b }
{
    match class {
        Class::Name => is_opening(b) || is_digit(b),
        Class::Number => is_opening(b) || is_digit(b) || b == b'\'',
        Class::Line => b != b'\n',
    }
}

/// Whether the bytes begin with this one.
pub fn begins(byte: u8, bytes: &[u8]) -> bool
    ensures { result ≡ specified_begins byte bytes.now }
{
    match bytes {
        [first, ..] => *first == byte,
        [] => false,
    }
}

/// The length of the longest front whose bytes are all of the class.
pub fn run(bytes: &[u8], class: Class) -> usize
    ensures within { result ≤ length bytes.now }
    ensures inside { list_all (belongs_to class) (take result bytes.now) ≡ true }
    ensures stops { Stops (belongs_to class) (drop result bytes.now) }
{
    for (i, b) in bytes.iter().enumerate() {
        if !belongs(class, *b) {
            return i;
        }
    }
    bytes.len()
}

/// Whether `*/` stands at this place.
#[tactic(auto, using(crate::proofs::Scans::ends_at, crate::proofs::Scans::ends_past, crate::proofs::Scans::ends_not))]
fn closes(bytes: &[u8], at: usize) -> bool
    requires { at ≤ length bytes.now }
    ensures { result ≡ ends_comment (drop at bytes.now) }
{
    at + 1 < bytes.len() && bytes[at] == b'*' && bytes[at + 1] == b'/'
}

/// The length of the front up to the first `*/` and with it.
pub fn comment(bytes: &[u8]) -> Option<usize>
    ensures some { IfSome result (λ n. (n ≤ length bytes.now) × IsComment (take n bytes.now)) }
    ensures none { IfNone result (NoComment bytes.now) }
{
    for at in 0..bytes.len() {
        if closes(bytes, at) {
            return Some(at + 2);
        }
    }
    None
}

ghost use Rattle.std.specs.Prelude.{◌≡◌, ◌≢◌, ◌+◌, ◌<◌, ◌≤◌, ℕ, length, slice_index};
ghost use Rattle.ix_diagnose.specs.Lines.{StartsLine, EndsLine, line_number as specified_line_number};

/// Bytes of a file, from the first one to the one behind the last, counted from 0.
#[derive(Clone, Copy, Debug, PartialEq, Eq)]
pub struct Place {
    pub from: usize,
    pub to: usize,
}

/// The first byte of the line in which a place stands.
pub(crate) fn line_start(bytes: &[u8], at: usize) -> usize
    requires { at ≤ length bytes.now }
    ensures starts { StartsLine bytes.now result }
    ensures before { result ≤ at }
    ensures inside { (k : ℕ) → result ≤ k → k < at → slice_index bytes.now k ≢ 10 }
{
    let mut start = at;
    while start > 0 && bytes[start - 1] != b'\n' {
        start -= 1;
    }
    start
}

/// The place behind the last byte of the line in which a place stands.
pub(crate) fn line_end(bytes: &[u8], at: usize) -> usize
    requires { at ≤ length bytes.now }
    ensures ends { EndsLine bytes.now result }
    ensures behind { at ≤ result }
    ensures within { result ≤ length bytes.now }
    ensures inside { (k : ℕ) → at ≤ k → k < result → slice_index bytes.now k ≢ 10 }
{
    let mut end = at;
    while end < bytes.len() && bytes[end] != b'\n' {
        end += 1;
    }
    end
}

/// The number of the line that starts there, from 1.
pub(crate) fn line_number(bytes: &[u8], start: usize) -> usize
    requires { start ≤ length bytes.now }
    ensures { result ≡ specified_line_number bytes.now start }
{
    bytes[..start].iter().filter(|b| **b == b'\n').count() + 1
}

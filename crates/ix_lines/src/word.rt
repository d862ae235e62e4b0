ghost use Rattle.std.specs.Prelude.{◌≡◌, ◌≢◌, ℕ, ◌≤◌, ◌++◌, List, MatchOption, decimal};
ghost use Rattle.ix_lines.specs.Readings.{IsReading, Tells};

use itoa::Buffer;

/// The number that a word is in decimal digits without leading zeros, where it is at most `most`.
pub fn number(word: &[u8], most: u64) -> Option<u64>
    ensures { IsReading (λ n. n ≤ most) decimal word.now result }
{
    let Ok(text) = str::from_utf8(word) else {
        return None;
    };
    let Ok(number) = text.parse::<u64>() else {
        return None;
    };
    if number > most {
        return None;
    }
    if is_written(number, word) {
        Some(number)
    } else {
        None
    }
}

fn is_written(number: u64, word: &[u8]) -> bool
    ensures { Tells result (decimal number ≡ word.now) }
{
    Buffer::new().format(number).as_bytes() == word
}

/// What stands behind a front.
pub fn behind<'a>(word: &'a [u8], front: &[u8]) -> Option<&'a [u8]>
    ensures { MatchOption result ((rest : List ℕ) → word.now ≢ front.now ++ rest) (λ rest. word.now ≡ front.now ++ rest.now) }
{
    word.strip_prefix(front)
}

/// Whether a word is this one.
pub fn is_label(word: &[u8], label: &[u8]) -> bool
    ensures { Tells result (word.now ≡ label.now) }
{
    word == label
}

ghost use Rattle.std.specs.Prelude.{◌≡◌, ◌+◌, ◌<◌, ◌≤◌};
ghost use Rattle.rv_isa.specs.Fields.{bits_of};

/// Bits `high` down to `low` of a word.
pub(crate) fn bits(word: u32, high: u32, low: u32) -> u32
    requires order { low ≤ high }
    requires width { high < low + 31 }
    requires in_word { high < 32 }
    ensures { result ≡ bits_of word high low }
{
    (word >> low) & ((1 << (high + 1 - low)) - 1)
}

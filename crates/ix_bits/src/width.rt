ghost use Rattle.std.specs.Prelude.{ℕ, ◌≡◌, ◌<◌, ◌≤◌, ◌^◌};
ghost use Rattle.ix_bits.specs.Widths.{least_width};

/// The least width that holds the value, in bits: from 1 to 128 (CoreDSL 2, integer literals).
pub fn least_width(value: u128) -> u8
    ensures some { 1 ≤ result }
    ensures most { result ≤ 128 }
    ensures holds { value < 2 ^ result }
    ensures least { (w : ℕ) → 1 ≤ w → value < 2 ^ w → result ≤ w }
    ensures value { result ≡ least_width value }
{
    if value == 0 {
        1
    } else {
        128 - value.leading_zeros() as u8
    }
}

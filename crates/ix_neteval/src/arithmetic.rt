ghost use Rattle.std.specs.Prelude.{◌≡◌, ◌+◌, ◌-◌, ◌*◌, ◌/◌, ◌%◌, ◌^◌, ◌<◌, ◌≤◌};
ghost use Rattle.ix_net.specs.Forms.{signed_lt};

/// The greatest pattern of a width.
fn mask(width: u8) -> u128
    requires some { 1 ≤ width }
    requires most { width ≤ 128 }
    ensures { result ≡ 2 ^ width - 1 }
{
    if width == 128 {
        u128::MAX
    } else {
        (1u128 << width) - 1
    }
}

/// The sum modulo `2^width`.
pub(crate) fn add(a: u128, b: u128, width: u8) -> u128
    requires some { 1 ≤ width }
    requires most { width ≤ 128 }
    ensures { result ≡ (a + b) % 2 ^ width }
{
    a.wrapping_add(b) & mask(width)
}

/// The difference modulo `2^width`.
pub(crate) fn sub(a: u128, b: u128, width: u8) -> u128
    requires some { 1 ≤ width }
    requires most { width ≤ 128 }
    requires a_fits { a < 2 ^ width }
    requires b_fits { b < 2 ^ width }
    ensures { result ≡ (a + (2 ^ width - b)) % 2 ^ width }
{
    if b <= a {
        a - b
    } else {
        mask(width) - (b - a - 1)
    }
}

/// The product modulo `2^width`.
pub(crate) fn mul(a: u128, b: u128, width: u8) -> u128
    requires some { 1 ≤ width }
    requires most { width ≤ 128 }
    ensures { result ≡ (a * b) % 2 ^ width }
{
    a.wrapping_mul(b) & mask(width)
}

/// All bits turned.
pub(crate) fn not(a: u128, width: u8) -> u128
    requires some { 1 ≤ width }
    requires most { width ≤ 128 }
    requires fits { a < 2 ^ width }
    ensures { result ≡ 2 ^ width - 1 - a }
{
    mask(width) - a
}

/// Whether a is below b as two's complement numbers of a width.
pub(crate) fn is_signed_lt(a: u128, b: u128, width: u8) -> bool
    requires some { 1 ≤ width }
    requires most { width ≤ 128 }
    requires a_fits { a < 2 ^ width }
    requires b_fits { b < 2 ^ width }
    ensures { result ≡ signed_lt width a b }
{
    let half = 1u128 << (width - 1);
    if (a < half) == (b < half) {
        a < b
    } else {
        b < half
    }
}

/// `high` on top of `low`, which has a width.
pub(crate) fn join(high: u128, low: u128, width: u8) -> u128
    requires most { width < 128 }
    requires low_fits { low < 2 ^ width }
    requires fits { high * 2 ^ width < 2 ^ 128 }
    ensures { result ≡ high * 2 ^ width + low }
{
    (high << width) | low
}

/// The bits from `hi` down to `lo`.
pub(crate) fn bits(a: u128, hi: u8, lo: u8) -> u128
    requires ordered { lo ≤ hi }
    requires most { hi < 128 }
    ensures { result ≡ a / 2 ^ lo % 2 ^ (hi - lo + 1) }
{
    (a >> lo) & mask(hi - lo + 1)
}

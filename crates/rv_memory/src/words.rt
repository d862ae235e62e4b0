ghost use Rattle.std.specs.Prelude.{◌≡◌, ◌*◌, ◌^◌, ◌<◌, ◌≤◌, length};
ghost use Rattle.rv_memory.specs.Bytes.{number, low_bytes};

/// The number of at most four bytes, the lowest first.
pub fn number_of(bytes: &[u8]) -> u32
    requires { length bytes.now ≤ 4 }
    ensures number { result ≡ number bytes.now }
    ensures fits { result < 256 ^ length bytes.now }
{
    match bytes {
        [] => 0,
        [low, rest @ ..] => u32::from(*low) + 256 * number_of(rest),
    }
}

/// Puts the low bytes of a number, the lowest first.
pub fn put_low(bytes: &mut [u8], n: u32)
    ensures { bytes.new ≡ low_bytes (length bytes.old) n }
{
    let mut rest = n;
    for place in 0..bytes.len() {
        bytes[place] = (rest % 256) as u8;
        rest /= 256;
    }
}

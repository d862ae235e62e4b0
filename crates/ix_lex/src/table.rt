ghost use Rattle.std.specs.Prelude.{◌≡◌, ◌<◌, length, map, slice_get, Some};

/// The bytes of an entry of a table of texts.
pub fn entry(table: &[&'static str], n: u8) -> &'static [u8]
    requires { n < length table.now }
    ensures { slice_get (map (λ text. text.now) table.now) n ≡ Some result.now }
{
    table[n as usize].as_bytes()
}

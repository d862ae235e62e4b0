ghost use Rattle.std.specs.Prelude.{◌≡◌, ◌≤◌, ◌<◌, ◌%◌};

/// Bytes of memory from an address on: 1, 2 or 4.
#[derive(Clone, Copy, Debug, PartialEq, Eq)]
pub struct Access {
    pub at: u32,
    pub bytes: u8,
    pub ghost some: { 0 < bytes },
    pub ghost few: { bytes ≤ 4 },
    pub ghost divides_four: { 4 % bytes ≡ 0 },
}

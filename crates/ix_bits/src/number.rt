ghost use Rattle.std.specs.Prelude.{ℕ, ◌≡◌, ◌<◌, ◌≤◌, ◌^◌};

/// A type of numbers, `unsigned<width>` or `signed<width>`, of 1 to 128 bits (CoreDSL 2, integer types).
#[derive(Clone, Copy, Debug, PartialEq, Eq)]
pub struct Ty {
    pub signed: bool,
    /// In bits, 1 to 128.
    pub width: u8,
    pub ghost some_width: { 1 ≤ width },
    pub ghost most_width: { width ≤ 128 },
}

/// A bit pattern of 1 to 128 bits: the bits as an unsigned number, which is below `2^width`.
#[derive(Clone, Copy, Debug, PartialEq, Eq)]
pub struct Bits {
    pub raw: u128,
    /// In bits, 1 to 128.
    pub width: u8,
    pub ghost some_width: { 1 ≤ width },
    pub ghost most_width: { width ≤ 128 },
    pub ghost in_width: { raw < 2 ^ width },
}

/// A number of a type, as the pattern of that type.
#[derive(Clone, Copy)]
pub struct Value {
    pub ty: Ty,
    pub bits: Bits,
    pub ghost fits: { bits.width ≡ ty.width },
}

/// An instruction of RV32I: its row in the base table, and its fields. A field that the row's format lacks is 0.
#[derive(Clone, Copy, Debug, PartialEq, Eq)]
pub struct Base {
    /// The place of the row in the base table, 0 to 39; `rows` names them.
    pub row: u8,
    /// Destination register, 0 to 31.
    pub rd: u8,
    /// First source register, 0 to 31.
    pub rs1: u8,
    /// Second source register, 0 to 31.
    pub rs2: u8,
    /// The immediate, signed as the format says; for shifts by an immediate 0 to 31.
    pub imm: i32,
}

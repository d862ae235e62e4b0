use ix_bits::{Name, Ty};

/// What a name stands for.
#[derive(Clone, Copy, Debug, PartialEq, Eq)]
pub enum Role {
    /// The custom register of this number among the registers and tables.
    Register { number: usize, ty: Ty },
    /// The table of this number among the registers and tables.
    Table { number: usize, shape: Shape },
    /// A field of the encoding.
    Field(Field),
    /// A local.
    Local { ty: Ty },
}

/// The type of a table's entries, and its length as written.
#[derive(Clone, Copy, Debug, PartialEq, Eq)]
pub struct Shape {
    pub ty: Ty,
    pub length: u128,
}

/// A field of an encoding, by its pieces.
#[derive(Clone, Copy, Debug, PartialEq, Eq)]
pub struct Field {
    pub ty: Ty,
    /// How many bits of it stand in the word; 6 for more than five.
    pub count: u8,
    /// Whether each of its bits k stands at 15 + k.
    pub is_rs1: bool,
    /// Whether each of its bits k stands at 20 + k.
    pub is_rs2: bool,
    /// Whether each of its bits k stands at 7 + k.
    pub is_rd: bool,
}

/// A name with its role.
#[derive(Debug, Drop)]
pub struct Named {
    pub name: Name,
    pub role: Role,
}

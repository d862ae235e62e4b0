use ix_graph::Kind;

/// What the laws of rows ask of an instruction.
#[derive(Clone, Copy, Debug, PartialEq, Eq)]
pub struct Asks {
    /// The x register of the first operand, 0 to 31; 0 where none is read.
    pub first: u8,
    /// The x register of the second operand, 0 to 31; 0 where none is read.
    pub second: u8,
    /// The x register that it writes in its own body, and not by `spawn`, 0 to 31; 0 where there is none.
    pub destination: u8,
    /// The time of its native write of the x register, 0 to 64; 0 where there is none. A base instruction writes at EX, and a load at MEM.
    pub x_time: u8,
    /// The x register that its `spawn` body writes, 0 to 31, x0 too.
    pub spawned: Option<u8>,
    /// Has it a load among its operations, whatever the condition?
    pub loads: bool,
    /// Has it a store among its operations, whatever the condition?
    pub stores: bool,
    /// Does it write the pc at a time above EX?
    pub late: bool,
    /// For how many cycles its module goes on past the entry to the last stage, 0 to 64; 0 where the instruction does not wait there.
    pub tail: u8,
    /// The custom registers that it or an always-block reads or writes.
    pub customs: [bool; 16],
    /// The custom registers that it writes, and not by `spawn`, at a time above EX.
    pub late_customs: [bool; 16],
    /// The custom registers that its `spawn` body writes.
    pub spawned_customs: [bool; 16],
    /// The unit in which it stands behind retirement, where its behaviour is decoupled.
    pub unit: Option<u8>,
}

/// What the laws of rows ask of an instruction, but for the numbers of the x registers and of its unit.
#[derive(Clone, Copy, Debug, PartialEq, Eq)]
pub struct Outline {
    /// Does it read the first operand?
    pub first: bool,
    /// Does it read the second operand?
    pub second: bool,
    /// Does it write an x register in its own body?
    pub destination: bool,
    /// The time of its write of the x register in its own body, 0 to 64; 0 where there is none.
    pub x_time: u8,
    /// Does its `spawn` body write an x register?
    pub spawned: bool,
    /// Has it a load among its operations?
    pub loads: bool,
    /// Has it a store among its operations?
    pub stores: bool,
    /// Does it write the pc at a time above EX?
    pub late: bool,
    /// For how many cycles its module goes on past the entry to the last stage, 0 to 64.
    pub tail: u8,
    /// The custom registers that it or an always-block reads or writes.
    pub customs: [bool; 16],
    /// The custom registers that it writes, and not by `spawn`, at a time above EX.
    pub late_customs: [bool; 16],
    /// The custom registers that its `spawn` body writes.
    pub spawned_customs: [bool; 16],
}

/// An operation of a plan: what it does, whether it is a write of a `spawn` body, and its time.
#[derive(Clone, Copy, Debug, PartialEq, Eq)]
pub struct Act {
    pub kind: Kind,
    pub spawned: bool,
    /// From RD to 64; 0 where the plan has none.
    pub time: u8,
}

ghost use Rattle.std.specs.Prelude.{ℕ};
ghost use Rattle.rv_core.specs.Kinds.{IsShapeOf};

use crate::{Blocks, Core, Plain, Shape, shape_of};

/// The address of the handler of interrupts on each core that a datasheet can name (this project's choice).
const TRAP: u32 = 16;

/// Operands, execute and memory in three stages.
pub struct Three;

impl Core for Three {
    const STAGES: u8 = 3;

    const RD: u8 = 1;

    const EX: u8 = 1;

    const MEM: u8 = 2;

    const FORWARD: bool = false;

    type Next = Plain;

    const TRAP: u32 = TRAP;

    ghost use Rattle.std.specs.Prelude.{false};
    ghost use Rattle.rv_core.specs.Stages.{three_lawful};

    ghost STAGES = { 3 };

    ghost RD = { 1 };

    ghost EX = { 1 };

    ghost MEM = { 2 };

    ghost FORWARD = { false };

    ghost TRAP = { 16 };

    ghost lawful = { three_lawful };
}

/// Operands, execute and memory in stages of their own; memory is the write-back.
pub struct Four;

impl Core for Four {
    const STAGES: u8 = 4;

    const RD: u8 = 1;

    const EX: u8 = 2;

    const MEM: u8 = 3;

    const FORWARD: bool = false;

    type Next = Plain;

    const TRAP: u32 = TRAP;

    ghost use Rattle.std.specs.Prelude.{false};
    ghost use Rattle.rv_core.specs.Stages.{four_lawful};

    ghost STAGES = { 4 };

    ghost RD = { 1 };

    ghost EX = { 2 };

    ghost MEM = { 3 };

    ghost FORWARD = { false };

    ghost TRAP = { 16 };

    ghost lawful = { four_lawful };
}

/// Operands, execute, memory and write-back in stages of their own.
pub struct Five;

impl Core for Five {
    const STAGES: u8 = 5;

    const RD: u8 = 1;

    const EX: u8 = 2;

    const MEM: u8 = 3;

    const FORWARD: bool = false;

    type Next = Plain;

    const TRAP: u32 = TRAP;

    ghost use Rattle.std.specs.Prelude.{false};
    ghost use Rattle.rv_core.specs.Stages.{five_lawful};

    ghost STAGES = { 5 };

    ghost RD = { 1 };

    ghost EX = { 2 };

    ghost MEM = { 3 };

    ghost FORWARD = { false };

    ghost TRAP = { 16 };

    ghost lawful = { five_lawful };
}

/// As `Three`, with forwarding and with blocks that guess.
pub struct ThreeF;

impl Core for ThreeF {
    const STAGES: u8 = 3;

    const RD: u8 = 1;

    const EX: u8 = 1;

    const MEM: u8 = 2;

    const FORWARD: bool = true;

    type Next = Blocks;

    const TRAP: u32 = TRAP;

    ghost use Rattle.std.specs.Prelude.{true};
    ghost use Rattle.rv_core.specs.Stages.{three_lawful};

    ghost STAGES = { 3 };

    ghost RD = { 1 };

    ghost EX = { 1 };

    ghost MEM = { 2 };

    ghost FORWARD = { true };

    ghost TRAP = { 16 };

    ghost lawful = { three_lawful };
}

/// As `Five`, with forwarding and with blocks that guess.
pub struct FiveF;

impl Core for FiveF {
    const STAGES: u8 = 5;

    const RD: u8 = 1;

    const EX: u8 = 2;

    const MEM: u8 = 3;

    const FORWARD: bool = true;

    type Next = Blocks;

    const TRAP: u32 = TRAP;

    ghost use Rattle.std.specs.Prelude.{true};
    ghost use Rattle.rv_core.specs.Stages.{five_lawful};

    ghost STAGES = { 5 };

    ghost RD = { 1 };

    ghost EX = { 2 };

    ghost MEM = { 3 };

    ghost FORWARD = { true };

    ghost TRAP = { 16 };

    ghost lawful = { five_lawful };
}

/// The cores that a datasheet can name.
#[derive(Clone, Copy, Debug, PartialEq, Eq)]
pub enum CoreKind {
    Three,
    Four,
    Five,
    ThreeF,
    FiveF,
}

impl CoreKind {
    /// The shape of the core that is named.
    pub fn shape(self) -> Shape
        ensures { IsShapeOf self result }
    {
        match self {
            CoreKind::Three => shape_of::<Three>(),
            CoreKind::Four => shape_of::<Four>(),
            CoreKind::Five => shape_of::<Five>(),
            CoreKind::ThreeF => shape_of::<ThreeF>(),
            CoreKind::FiveF => shape_of::<FiveF>(),
        }
    }
}

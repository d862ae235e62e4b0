//! The shapes of in-order cores: how many stages there are, and what happens in which.
#![tactic(auto)]

ghost use Rattle.std.specs.Prelude.{ℕ, Bool, ◌≡◌, ◌≤◌, ◌<◌, ◌+◌};
ghost use Rattle.rv_core.specs.Stages.{IsLawful};

mod cores;
mod predictors;

pub use cores::{CoreKind, Five, FiveF, Four, Three, ThreeF};
pub use predictors::{Blocks, Plain, Predictor};

/// A core of three to five stages, numbered from 0, the fetch. Its last stage, STAGES - 1, is the write-back.
/// A user's core is one more `impl`, which proves the law on its numbers (this project's choice).
/// No pipeline reads TRAP yet: it stands in the shape.
pub trait Core {
    /// The count of stages, 3 to 5.
    const STAGES: u8;
    /// The stage in which operands are read.
    const RD: u8;
    /// The stage in which an instruction executes: RD or the next one.
    const EX: u8;
    /// The stage in which memory is accessed, behind EX.
    const MEM: u8;
    /// Whether an operand is taken from an older instruction that is not retired.
    const FORWARD: bool;
    /// How the address of the next fetch is guessed.
    type Next: Predictor;
    /// The address of the handler of interrupts, divisible by 4.
    const TRAP: u32;

    ghost STAGES: { ℕ };

    ghost RD: { ℕ };

    ghost EX: { ℕ };

    ghost MEM: { ℕ };

    ghost FORWARD: { Bool };

    ghost TRAP: { ℕ };

    ghost lawful: { IsLawful STAGES RD EX MEM TRAP };
}

/// The numbers of a core as a value.
#[derive(Clone, Copy, Debug, PartialEq, Eq)]
pub struct Shape {
    /// The count of stages, 3 to 5.
    pub stages: u8,
    pub rd: u8,
    pub ex: u8,
    pub mem: u8,
    /// Whether operands are taken from instructions that are not retired.
    pub forward: bool,
    /// Whether the blocks of an extension guess the address of the next fetch.
    pub predict: bool,
    /// The address of the handler of interrupts, divisible by 4.
    pub trap: u32,
    pub ghost lawful: { IsLawful stages rd ex mem trap },
}

/// The shape of a core.
pub fn shape_of<C: Core>() -> Shape
    ensures stages { result.stages ≡ C.STAGES }
    ensures rd { result.rd ≡ C.RD }
    ensures ex { result.ex ≡ C.EX }
    ensures mem { result.mem ≡ C.MEM }
    ensures forward { result.forward ≡ C.FORWARD }
    ensures predict { result.predict ≡ C.Next.BLOCKS }
    ensures trap { result.trap ≡ C.TRAP }
{
    Shape {
        stages: C::STAGES,
        rd: C::RD,
        ex: C::EX,
        mem: C::MEM,
        forward: C::FORWARD,
        predict: C::Next::BLOCKS,
        trap: C::TRAP,
    }
}

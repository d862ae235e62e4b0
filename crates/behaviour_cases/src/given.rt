ghost use Rattle.std.specs.Prelude.{IfOk};
ghost use Rattle.ix_extension.specs.Extensions.{view_extension};
ghost use Rattle.ix_extension.specs.WellFormed.{IsWellFormed};
ghost use Rattle.ix_behaviour.specs.Behaviours.{HasBehaviour};

use effect_cases::{Case, case_of, has_behaviour};
use ix_bits::Memory;
use ix_elab::elaborate;
use ix_tree::Extension;
use std::alloc::Global;

/// The byte between a text and its inputs.
const MIDDLE: u8 = 31;

/// Past the greatest count of bytes that a text may have.
pub const TOO_MANY: usize = 0x1_0000_0000;

/// Why a case has no answer.
#[derive(Debug, Drop)]
pub enum Why {
    NoCase,
    Refused,
    TooManyOps,
    Memory,
}

impl From<Memory> for Why {
    fn from(_memory: Memory) -> Why {
        Why::Memory
    }
}

/// An extension, and the state before one of its behaviours.
#[derive(Drop)]
pub struct Given {
    pub extension: Extension,
    pub case: Case,
}

/// What a text, a byte 31 and a line of inputs give.
pub fn given_in(alloc: Global, case: &[u8]) -> Result<Given, Why>
    ensures well_formed { IfOk result (λ g. IsWellFormed g.extension) }
    ensures in_range { IfOk result (λ g. HasBehaviour (view_extension g.extension) g.case.which) }
{
    let mut parts = case.split(|byte| *byte == MIDDLE);
    let text = parts.next().unwrap_or(&[]);
    let line = parts.next().unwrap_or(&[]);
    if text.len() >= TOO_MANY {
        return Err(Why::Memory);
    }
    let Ok(line) = str::from_utf8(line) else {
        return Err(Why::NoCase);
    };
    let Ok(extension) = elaborate(alloc, text) else {
        return Err(Why::Refused);
    };
    match case_of(line, extension.registers.len()) {
        Some(case) if has_behaviour(&extension, case.which) => Ok(Given { extension, case }),
        _ => Err(Why::NoCase),
    }
}

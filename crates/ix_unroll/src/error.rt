ghost use Rattle.std.specs.Prelude.{◌≡◌};
ghost use Rattle.ix_unroll.specs.declared.error.UnrollErr.TheVariants.{Memory};

use ix_tree::Span;
use std::alloc::{AllocError, AllocFailed};

/// Why a text's loops are not unrolled: the first rule that is broken, in the order of the source. The span of the first
/// three is that of the loop.
#[derive(Clone, Copy, Debug, PartialEq, Eq)]
pub enum UnrollErr {
    /// The loop's head has something other than literals and loop variables in it, or no type, or a value leaves the type `int`.
    Bound { span: Span },
    /// The loop has more than 128 turns.
    Turns { span: Span },
    /// The loop's body assigns its variable, declares a name like it, or has a loop over it.
    Assigned { span: Span },
    /// With this statement the result would pass 16,384 statements.
    Size { span: Span },
    Memory,
}

impl From<ix_bits::Memory> for UnrollErr {
    ghost from_gives = { λ _ e. e ≡ Memory };

    fn from(_error: ix_bits::Memory) -> UnrollErr {
        UnrollErr::Memory
    }
}

impl From<AllocError> for UnrollErr {
    ghost from_gives = { λ _ e. e ≡ Memory };

    fn from(_error: AllocError) -> UnrollErr {
        UnrollErr::Memory
    }
}

impl<T: Drop> From<AllocFailed<T>> for UnrollErr {
    ghost from_gives = { λ _ e. e ≡ Memory };

    fn from(_error: AllocFailed<T>) -> UnrollErr {
        UnrollErr::Memory
    }
}

use crate::Signal;
use ix_bits::Ty;

/// What an operation takes: a signal that shows a pattern, and the type of the number that the pattern stands for.
#[derive(Clone, Copy, Debug)]
pub struct Operand {
    pub ty: Ty,
    pub signal: Signal,
}

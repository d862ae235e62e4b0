/// Which argument of an operation a port has.
#[derive(Clone, Copy, Debug, PartialEq, Eq)]
pub enum Letter {
    Address,
    Value,
    Condition,
}

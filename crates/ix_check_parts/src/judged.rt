use ix_bits::Ty;
use ix_tree::{TypedExpr, TypedLvalue, TypedStmt};
use ix_typing::Target;

/// An expression with its types, and whether MEM occurs up to its end.
#[derive(Drop)]
pub struct Judged {
    pub tree: TypedExpr,
    pub accessed: bool,
}

/// Two expressions, one behind the other.
#[derive(Drop)]
pub struct Pair {
    pub first: Judged,
    pub second: Judged,
}

/// A place that may be written.
#[derive(Drop)]
pub struct Place {
    pub tree: TypedLvalue,
    /// The type of what it holds.
    pub ty: Ty,
    /// The target; `None` for a local.
    pub writes: Option<Target>,
    /// Whether MEM occurs up to its end.
    pub accessed: bool,
}

/// The condition of an `if` and its first branch.
#[derive(Drop)]
pub struct Branch {
    pub condition: TypedExpr,
    pub first: TypedStmt,
}

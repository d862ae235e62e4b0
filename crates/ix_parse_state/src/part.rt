use ix_tree::Expr;

/// An expression, with the first and last byte of its tokens, brackets around it too.
#[derive(Drop)]
pub struct Part {
    pub from: u32,
    pub to: u32,
    pub tree: Expr,
    /// How tightly its outermost chain of operators or indices holds, and how many of them that chain has.
    pub chain: u8,
    pub count: u32,
}

/// Why a behaviour has no graph.
#[derive(Clone, Copy, Debug, PartialEq, Eq)]
pub enum FlowErr {
    /// It has more than 256 operations.
    TooManyOps,
    Memory,
}

/// Why modules have no nets.
#[derive(Clone, Copy, Debug, PartialEq, Eq)]
pub enum NetErr {
    /// The widths of a line disagree. It is this one of the `assign` and `if` lines, from 0, of this module, from 0, and the first in the text.
    Misfit { module: usize, drive: usize },
    Memory,
}

/// What is said of one line.
#[derive(Clone, Copy, Debug, PartialEq, Eq)]
pub enum Verdict {
    /// It has no instruction.
    Empty,
    /// Its word.
    Word(u32),
    /// It has no form, or an unknown name.
    Line,
    /// Its label is doubled, or its target is unknown.
    Label,
    /// A number or an offset is outside its range, or an offset is odd.
    Reach,
}

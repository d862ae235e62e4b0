use rv_isa::Base;

/// What a word is on a core with an extension.
#[derive(Clone, Copy, Debug, PartialEq, Eq)]
pub enum Decoded {
    /// An instruction of the base set.
    Base(Base),
    /// The extension's instruction of this number, from 0 in the order of the source.
    Own(u8),
}

/// Why words are not those of whole modules.
#[derive(Clone, Copy, Debug, PartialEq, Eq)]
pub enum ParseErr {
    /// The words before this one, from 0, begin a text of modules, and with it they begin none; where it is the count of words, they end too early.
    At { word: usize },
    Memory,
}

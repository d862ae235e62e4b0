ghost use Rattle.std.specs.Prelude.{◌≡◌, ◌<◌, ◌≤◌, [], length, slice_index_or, IfOk, IfSome};
ghost use Rattle.ix_graph.specs.Kinds.{kind_words, place_of, printed_name, number_of, register_of, with_register};

use ix_bits::{Memory, Name};
use std::alloc::Global;

/// What an operation does. The ten first kinds are operations on the core (SCAIE-V), the others are operators
/// (CoreDSL 2, expressions).
#[derive(Clone, Copy, Debug, PartialEq, Eq)]
pub enum Kind {
    /// The instruction word.
    RdInstr,
    /// The x register that bits 19 to 15 of the word name.
    RdRS1,
    /// The x register that bits 24 to 20 of the word name.
    RdRS2,
    RdPC,
    /// A custom register, by its number from 0 to 15.
    RdCustReg(u8),
    /// A load: address and condition.
    RdMem,
    /// A write of the x register that bits 11 to 7 of the word name: value and condition.
    WrRD,
    /// Value and condition.
    WrPC,
    /// A custom register, by its number from 0 to 15: value and condition.
    WrCustReg(u8),
    /// A store: address, value and condition.
    WrMem,
    Add,
    Sub,
    Mul,
    And,
    Or,
    Xor,
    Not,
    Neg,
    Shl,
    Shr,
    Eq,
    Ne,
    Lt,
    Le,
    Gt,
    Ge,
    Land,
    Lor,
    Lnot,
    Concat,
    /// Bits `hi` down to `lo` of the argument.
    Range { hi: u8, lo: u8 },
    Cast,
    /// A condition, and the values where it is 1 and where it is 0.
    Mux,
    /// An entry of a table, by the table's number: the index.
    Rom(u16),
}

// the names of the kinds in their order, without a register's number
const KIND_WORDS: [&str; 34] = [
    "RdInstr",
    "RdRS1",
    "RdRS2",
    "RdPC",
    "RdCustReg",
    "RdMem",
    "WrRD",
    "WrPC",
    "WrCustReg",
    "WrMem",
    "add",
    "sub",
    "mul",
    "and",
    "or",
    "xor",
    "not",
    "neg",
    "shl",
    "shr",
    "eq",
    "ne",
    "lt",
    "le",
    "gt",
    "ge",
    "land",
    "lor",
    "lnot",
    "concat",
    "range",
    "cast",
    "mux",
    "rom",
];

/// The name of the kind at a place of the order, below 34, without a register's number.
pub fn kind_word(number: u8) -> &'static str
    requires { number < 34 }
    ensures value { result.now ≡ slice_index_or kind_words number [] }
    ensures short { length result.now ≤ 9 }
{
    KIND_WORDS[usize::from(number)]
}

/// The place of a kind, from 0, in the order of the names: a sheet's delays and windows have this order.
pub fn kind_place(kind: &Kind) -> u8
    ensures value { result ≡ place_of kind.now }
    ensures below { result < 34 }
{
    match kind {
        Kind::RdInstr => 0,
        Kind::RdRS1 => 1,
        Kind::RdRS2 => 2,
        Kind::RdPC => 3,
        Kind::RdCustReg(_) => 4,
        Kind::RdMem => 5,
        Kind::WrRD => 6,
        Kind::WrPC => 7,
        Kind::WrCustReg(_) => 8,
        Kind::WrMem => 9,
        Kind::Add => 10,
        Kind::Sub => 11,
        Kind::Mul => 12,
        Kind::And => 13,
        Kind::Or => 14,
        Kind::Xor => 15,
        Kind::Not => 16,
        Kind::Neg => 17,
        Kind::Shl => 18,
        Kind::Shr => 19,
        Kind::Eq => 20,
        Kind::Ne => 21,
        Kind::Lt => 22,
        Kind::Le => 23,
        Kind::Gt => 24,
        Kind::Ge => 25,
        Kind::Land => 26,
        Kind::Lor => 27,
        Kind::Lnot => 28,
        Kind::Concat => 29,
        Kind::Range { .. } => 30,
        Kind::Cast => 31,
        Kind::Mux => 32,
        Kind::Rom(_) => 33,
    }
}

/// The number of the custom register that a kind reads or writes.
pub(crate) fn register(kind: &Kind) -> Option<u8>
    ensures { result ≡ register_of kind.now }
{
    match kind {
        Kind::RdCustReg(number) | Kind::WrCustReg(number) => Some(*number),
        _ => None,
    }
}

/// The name of a kind as it is printed: that of a custom register's operation has a point and the register's number behind.
pub fn kind_name(alloc: Global, kind: &Kind) -> Result<Name, Memory>
    ensures { IfOk result (λ name. name ≡ printed_name kind.now) }
{
    let word = kind_word(kind_place(kind));
    match register(kind) {
        Some(number) => numbered(alloc, word, number),
        None => Name::from_text(alloc, word),
    }
}

/// The place, from 0, of the kind that a text names without a register's number. None where it names no kind.
pub fn kind_number(text: &str) -> Option<u8>
    ensures value { result ≡ number_of text.now }
    ensures below { IfSome result (λ number. number < 34) }
{
    for number in 0..34 {
        if kind_word(number) == text {
            return Some(number);
        }
    }
    None
}

// The word, a point and the number.
fn numbered(alloc: Global, word: &str, number: u8) -> Result<Name, Memory>
    requires { length word.now ≤ 9 }
    ensures { IfOk result (λ name. name ≡ with_register word.now (Some number)) }
{
    let text = format!(in alloc; "{word}.{number}")?;
    Name::from_text(alloc, text.as_str())
}

ghost use Rattle.std.specs.Prelude.{◌≡◌, ◌≤◌, ◌↔◌, [], ◌∷◌, IsTrue, length};
ghost use Rattle.ix_verilog.specs.Words.{words_of};
ghost use Rattle.ix_vline.specs.Slots.{Takes, MayStart, IsHighest, first_word as specified_first_word, slots as specified_slots, declaring as specified_declaring};
ghost use Rattle.ix_vline.specs.Reached.{Reaches};
ghost use Rattle.ix_vform.specs.Reach.{IsReach};

use crate::guard::may_start;
use crate::scope::{Scope, is_next, is_operand, is_register, is_target};
use crate::word::{highest, is_literal, is_number, is_operator, is_short_name};
use ix_verilog::Token;
use ix_vline::{Kind, Right, Slot};

/// An assignment of a number.
const LITERAL: [Slot; 5] = [
    Slot::First(Kind::Assign(Right::Literal)),
    Slot::Target,
    Slot::Byte(b'='),
    Slot::Literal,
    Slot::Byte(b';'),
];

/// An assignment of a name.
const COPY: [Slot; 5] = [
    Slot::First(Kind::Assign(Right::Copy)),
    Slot::Target,
    Slot::Byte(b'='),
    Slot::Operand,
    Slot::Byte(b';'),
];

/// An assignment of two operands and a sign between.
const BOTH: [Slot; 7] = [
    Slot::First(Kind::Assign(Right::Both)),
    Slot::Target,
    Slot::Byte(b'='),
    Slot::Operand,
    Slot::Operator,
    Slot::Operand,
    Slot::Byte(b';'),
];

/// An assignment of `~` and an operand.
const TURNED: [Slot; 6] = [
    Slot::First(Kind::Assign(Right::Turned)),
    Slot::Target,
    Slot::Byte(b'='),
    Slot::Byte(b'~'),
    Slot::Operand,
    Slot::Byte(b';'),
];

/// An assignment of a signed comparison.
const SIGNED: [Slot; 13] = [
    Slot::First(Kind::Assign(Right::Signed)),
    Slot::Target,
    Slot::Byte(b'='),
    Slot::Signed,
    Slot::Byte(b'('),
    Slot::Operand,
    Slot::Byte(b')'),
    Slot::Byte(b'<'),
    Slot::Signed,
    Slot::Byte(b'('),
    Slot::Operand,
    Slot::Byte(b')'),
    Slot::Byte(b';'),
];

/// An assignment of two operands side by side.
const JOINED: [Slot; 9] = [
    Slot::First(Kind::Assign(Right::Joined)),
    Slot::Target,
    Slot::Byte(b'='),
    Slot::Byte(b'{'),
    Slot::Operand,
    Slot::Byte(b','),
    Slot::Operand,
    Slot::Byte(b'}'),
    Slot::Byte(b';'),
];

/// An assignment of a range of bits.
const RANGE: [Slot; 10] = [
    Slot::First(Kind::Assign(Right::Range)),
    Slot::Target,
    Slot::Byte(b'='),
    Slot::Operand,
    Slot::Byte(b'['),
    Slot::Number,
    Slot::Byte(b':'),
    Slot::Number,
    Slot::Byte(b']'),
    Slot::Byte(b';'),
];

/// An assignment of a choice of two operands.
const CHOICE: [Slot; 9] = [
    Slot::First(Kind::Assign(Right::Choice)),
    Slot::Target,
    Slot::Byte(b'='),
    Slot::Operand,
    Slot::Byte(b'?'),
    Slot::Operand,
    Slot::Byte(b':'),
    Slot::Operand,
    Slot::Byte(b';'),
];

/// The first line of a module.
const HEAD: [Slot; 4] = [
    Slot::First(Kind::Head),
    Slot::Fresh,
    Slot::Byte(b'('),
    Slot::Clk,
];

/// The end of the ports.
const PORTS_END: [Slot; 5] = [
    Slot::First(Kind::Heading),
    Slot::Byte(b';'),
    Slot::Input,
    Slot::Clk,
    Slot::Byte(b';'),
];

/// The first line of `always`.
const ALWAYS: [Slot; 7] = [
    Slot::First(Kind::Always),
    Slot::Byte(b'@'),
    Slot::Byte(b'('),
    Slot::Posedge,
    Slot::Clk,
    Slot::Byte(b')'),
    Slot::Begin,
];

/// The first word of lines of a kind.
fn first_word(kind: Kind) -> &'static str
    ensures { result.now ≡ specified_first_word kind }
{
    match kind {
        Kind::Head => "module",
        Kind::Port => ",",
        Kind::Heading => ")",
        Kind::Input => "input",
        Kind::Output => "output",
        Kind::Wire => "wire",
        Kind::Register => "reg",
        Kind::Assign(_) => "assign",
        Kind::Always => "always",
        Kind::Update => "if",
        Kind::Done => "end",
        Kind::Finish => "endmodule",
    }
}

fn is(word: &[u8], text: &str) -> bool
    ensures { IsTrue result ↔ (word.now ≡ text.now) }
{
    word == text.as_bytes()
}

fn is_byte(word: &[u8], byte: u8) -> bool
    ensures { IsTrue result ↔ (word.now ≡ byte ∷ []) }
{
    match word {
        [first] => *first == byte,
        _ => false,
    }
}

fn starts(scope: &Scope, kind: Kind) -> bool
    ensures { IsTrue result ↔ MayStart scope.now kind }
{
    match &scope.module {
        Some(opened) => may_start(opened, kind),
        None => matches!(kind, Kind::Head),
    }
}

fn begins(scope: &Scope, kind: Kind, word: &[u8]) -> bool
    ensures { IsTrue result ↔ Takes scope.now (Slot.First kind) word.now }
{
    if is(word, first_word(kind)) {
        return starts(scope, kind);
    }
    false
}

fn takes_next(scope: &Scope, word: &[u8]) -> bool
    ensures { IsTrue result ↔ Takes scope.now Slot.Next word.now }
{
    match &scope.module {
        Some(opened) => is_next(opened.source(), word),
        None => false,
    }
}

fn takes_target(scope: &Scope, word: &[u8]) -> bool
    ensures { IsTrue result ↔ Takes scope.now Slot.Target word.now }
{
    match &scope.module {
        Some(opened) => is_target(opened, word),
        None => false,
    }
}

fn takes_operand(scope: &Scope, word: &[u8]) -> bool
    ensures { IsTrue result ↔ Takes scope.now Slot.Operand word.now }
{
    match &scope.module {
        Some(opened) => is_operand(opened, word),
        None => false,
    }
}

fn takes_register(scope: &Scope, word: &[u8]) -> bool
    ensures { IsTrue result ↔ Takes scope.now Slot.Register word.now }
{
    match &scope.module {
        Some(opened) => is_register(opened, word),
        None => false,
    }
}

fn is_highest(word: &[u8]) -> bool
    ensures { IsTrue result ↔ IsHighest word.now }
{
    match highest(word) {
        Some(_) => true,
        None => false,
    }
}

/// Whether the word may stand at the place of the slot.
fn takes(scope: &Scope, slot: Slot, word: &[u8]) -> bool
    ensures { IsTrue result ↔ Takes scope.now slot word.now }
{
    match slot {
        Slot::First(kind) => begins(scope, kind, word),
        Slot::Byte(byte) => is_byte(word, byte),
        Slot::Clk => is(word, "clk"),
        Slot::Input => is(word, "input"),
        Slot::Posedge => is(word, "posedge"),
        Slot::Begin => is(word, "begin"),
        Slot::Arrow => is(word, "<="),
        Slot::Signed => is(word, "$signed"),
        Slot::Fresh => is_short_name(word),
        Slot::Next => takes_next(scope, word),
        Slot::Target => takes_target(scope, word),
        Slot::Operand => takes_operand(scope, word),
        Slot::Register => takes_register(scope, word),
        Slot::Highest => is_highest(word),
        Slot::Literal => is_literal(word),
        Slot::Number => is_number(word),
        Slot::Operator => is_operator(word),
    }
}

/// How many slots from the first on take the words from the first on.
fn reached(scope: &Scope, slots: &[Slot], tokens: &[Token]) -> usize
    ensures reaches { Reaches scope.now slots.now (words_of tokens.now) result }
    ensures within { result ≤ length slots.now }
{
    match slots {
        [] => 0,
        [slot, slots @ ..] => match tokens {
            [] => 0,
            [token, tokens @ ..] => {
                if takes(scope, *slot, token.word.as_slice()) {
                    1 + reached(scope, slots, tokens)
                } else {
                    0
                }
            }
        },
    }
}

/// How many words from the first on a line of a kind takes, and whether it ends there.
#[derive(Clone, Copy)]
pub struct Reach {
    pub words: usize,
    pub is_whole: bool,
}

fn tried(scope: &Scope, slots: &[Slot], tokens: &[Token]) -> Reach
    ensures { IsReach scope.now slots.now (words_of tokens.now) result }
{
    let words = reached(scope, slots, tokens);
    Reach {
        words,
        is_whole: words == slots.len(),
    }
}

/// How far `[w-1:0] name;` goes behind the first word of the kind.
fn declaring(scope: &Scope, kind: Kind, name: Slot, tokens: &[Token]) -> Reach
    ensures { IsReach scope.now (specified_declaring kind name) (words_of tokens.now) result }
{
    tried(
        scope,
        &[
            Slot::First(kind),
            Slot::Byte(b'['),
            Slot::Highest,
            Slot::Byte(b':'),
            Slot::Byte(b'0'),
            Slot::Byte(b']'),
            name,
            Slot::Byte(b';'),
        ],
        tokens,
    )
}

/// How far an assignment with such a right side goes.
fn assigning(scope: &Scope, right: Right, tokens: &[Token]) -> Reach
    ensures { IsReach scope.now (specified_slots (Kind.Assign right)) (words_of tokens.now) result }
{
    match right {
        Right::Literal => tried(scope, &LITERAL, tokens),
        Right::Copy => tried(scope, &COPY, tokens),
        Right::Both => tried(scope, &BOTH, tokens),
        Right::Turned => tried(scope, &TURNED, tokens),
        Right::Signed => tried(scope, &SIGNED, tokens),
        Right::Joined => tried(scope, &JOINED, tokens),
        Right::Range => tried(scope, &RANGE, tokens),
        Right::Choice => tried(scope, &CHOICE, tokens),
    }
}

/// How far a line that changes a register goes.
fn updating(scope: &Scope, tokens: &[Token]) -> Reach
    ensures { IsReach scope.now (specified_slots Kind.Update) (words_of tokens.now) result }
{
    tried(
        scope,
        &[
            Slot::First(Kind::Update),
            Slot::Byte(b'('),
            Slot::Operand,
            Slot::Byte(b')'),
            Slot::Register,
            Slot::Arrow,
            Slot::Operand,
            Slot::Byte(b';'),
        ],
        tokens,
    )
}

/// How far a line of a kind goes.
pub fn reach_of(scope: &Scope, kind: Kind, tokens: &[Token]) -> Reach
    ensures { IsReach scope.now (specified_slots kind) (words_of tokens.now) result }
{
    match kind {
        Kind::Head => tried(scope, &HEAD, tokens),
        Kind::Port => tried(scope, &[Slot::First(kind), Slot::Fresh], tokens),
        Kind::Heading => tried(scope, &PORTS_END, tokens),
        Kind::Input => declaring(scope, kind, Slot::Next, tokens),
        Kind::Output => declaring(scope, kind, Slot::Next, tokens),
        Kind::Wire => declaring(scope, kind, Slot::Fresh, tokens),
        Kind::Register => declaring(scope, kind, Slot::Fresh, tokens),
        Kind::Assign(right) => assigning(scope, right, tokens),
        Kind::Always => tried(scope, &ALWAYS, tokens),
        Kind::Update => updating(scope, tokens),
        Kind::Done => tried(scope, &[Slot::First(kind)], tokens),
        Kind::Finish => tried(scope, &[Slot::First(kind)], tokens),
    }
}

ghost use Rattle.std.specs.Prelude.{◌<◌};

use crate::token::Token;
use ix_bits::{Bits, Ty, range};
use ix_eval::Effect;
use ix_graph::{Kind, Op, Role, kind_role};

/// What is required at the outputs of an operation, one after another; nothing is required where
/// there is none.
pub type Due = [Option<u128>; 3];

fn due(value: Option<u128>) -> Due {
    [value, Some(u128::from(value.is_some())), None]
}

fn of_word(word: Option<u32>) -> Option<u128> {
    match word {
        Some(word) => Some(u128::from(word)),
        None => None,
    }
}

/// A custom register's place; there are 16 at most.
fn place(number: u8) -> usize
    ensures { result < 16 }
{
    usize::from(number % 16)
}

fn of_custom(effect: &Effect, number: u8) -> Option<u128> {
    match effect.custom[place(number)] {
        Some(bits) => Some(bits.raw),
        None => None,
    }
}

fn of_load(effect: &Effect) -> Due {
    match effect.load {
        Some(access) => due(Some(u128::from(access.at))),
        None => due(None),
    }
}

fn of_store(effect: &Effect) -> Due {
    match effect.store {
        Some((access, value)) => [
            Some(u128::from(access.at)),
            Some(u128::from(value)),
            Some(1),
        ],
        None => [None, None, Some(0)],
    }
}

/// The count of an operation's outputs.
pub fn count(kind: &Kind) -> usize {
    match kind {
        Kind::RdMem | Kind::WrRD | Kind::WrPC | Kind::WrCustReg(_) => 2,
        Kind::WrMem => 3,
        _ => 0,
    }
}

/// What is required at the outputs of an operation of a token.
pub fn due_at(kind: &Kind, effect: &Effect) -> Due {
    match kind {
        Kind::RdMem => of_load(effect),
        Kind::WrRD => due(of_word(effect.rd)),
        Kind::WrPC => due(of_word(effect.pc)),
        Kind::WrCustReg(number) => due(of_custom(effect, *number)),
        Kind::WrMem => of_store(effect),
        _ => [None; 3],
    }
}

/// A pattern cut to a type's width.
pub fn cut(raw: u128, ty: Ty) -> Bits {
    range(Bits { raw, width: 128 }, ty.width - 1, 0)
}

/// What a read gives a token.
fn read(kind: &Kind, token: &Token) -> u128 {
    match kind {
        Kind::RdInstr => u128::from(token.given.word),
        Kind::RdRS1 => u128::from(token.given.rs1),
        Kind::RdRS2 => u128::from(token.given.rs2),
        Kind::RdPC => u128::from(token.given.pc),
        Kind::RdCustReg(number) => token.given.custom[place(*number)].raw,
        Kind::RdMem => u128::from(token.loaded),
        _ => 0,
    }
}

/// What an operation reads for a token, or for none a pattern that looks random; none where it is
/// no read.
pub fn input_of(op: &Op, token: Option<&Token>, random: u128) -> Option<Bits> {
    match (kind_role(&op.kind), token) {
        (Role::Read, Some(token)) => Some(cut(read(&op.kind, token), op.ty)),
        (Role::Read, None) => Some(cut(random, op.ty)),
        _ => None,
    }
}

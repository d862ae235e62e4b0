ghost use Rattle.std.specs.Prelude.{◌≡◌, ◌+◌, ◌<◌, ◌^◌, length, option_map};
ghost use Rattle.ix_extension.specs.Extensions.{view_extension};
ghost use Rattle.ix_extension.specs.WellFormed.{IsWellFormed};
ghost use Rattle.rv_seq.specs.WordEffects.{AreWide};
ghost use Rattle.ix_eval.specs.Scratches.{IsScratchOf};
ghost use Rattle.rv_asks.specs.Asks.{IsAskingOf};
ghost use Rattle.rv_core.specs.Guesses.{guess_of};
ghost use Rattle.rv_lawful.specs.Settings.{jump_with};
ghost use Rattle.rv_engine.specs.Rows.{new_token as specified_new_token, fetched, fill_first, with_guess, guess_first, next_after};
ghost use Rattle.rv_engine.specs.Kept.{IsFitting, IsFittingSlot, AreFitting};

use crate::front::Front;
use ix_bits::Bits;
use ix_eval::{Inputs, Scratch};
use ix_plan::Design;
use rv_asks::{Asking, asks_of};
use rv_core::{Blocks, Plain, Predictor};
use rv_holds::{Beside, Token};
use rv_memory::RandomAccess;
use rv_seq::{TrapState, blocks_effect, decode_in, return_to};
use rv_trace::Cell;

/// The token of a fetched word, which sees no operands yet.
fn new_token(
    design: &Design,
    asking: &Asking,
    front: Front,
    future: &[Bits; 16],
    trap: Option<TrapState>,
    word: u32,
) -> Token
    requires well_formed { IsWellFormed design.now.extension }
    requires asking { IsAskingOf design.now asking.now }
    requires future { AreWide (view_extension design.now.extension) future.now }
    ensures token { result ≡ specified_new_token design.now future.now trap front.next front.fetch word }
    ensures fitting { IsFitting design.now result }
{
    let decoded = decode_in(&design.extension, word);
    let asks = asks_of(asking, word, decoded);
    let inputs = Inputs {
        word,
        rs1: 0,
        rs2: 0,
        pc: front.fetch,
        custom: *future,
    };
    let cell = Cell {
        serial: front.next,
        at: front.fetch,
        word,
        hold: None,
    };
    Token {
        cell,
        decoded,
        asks,
        inputs,
        trial: None,
        wait: 0,
        tail: asks.tail,
        beside: Beside {
            board: None,
            port: None,
            left: None,
            trap: false,
        },
        guess: front.fetch.wrapping_add(4),
        back: return_to(word, trap),
    }
}

/// Puts the token of a fetched word, where there is one, into stage 0 where that is free, and gives the serial of the next fetch.
pub fn fetch(
    design: &Design,
    asking: &Asking,
    front: Front,
    future: &[Bits; 16],
    trap: Option<TrapState>,
    word: Option<u32>,
    slots: &mut [Option<Token>],
) -> u32
    requires well_formed { IsWellFormed design.now.extension }
    requires asking { IsAskingOf design.now asking.now }
    requires future { AreWide (view_extension design.now.extension) future.now }
    requires stages { 0 < length slots.old }
    requires fitting { AreFitting design.now slots.old }
    requires serial { front.next + 1 < 2 ^ 32 }
    ensures next { result ≡ next_after front.next slots.old (fetched design.now future.now trap front.next front.fetch word) }
    ensures slots { slots.new ≡ fill_first (fetched design.now future.now trap front.next front.fetch word) slots.old }
    ensures fitting { AreFitting design.now slots.new }
{
    match word {
        None => front.next,
        Some(word) => {
            if slots[0].is_some() {
                return front.next;
            }
            slots[0] = Some(new_token(design, asking, front, future, trap, word));
            front.next + 1
        }
    }
}

/// Where the always-blocks jump to from a cell with this future file, if they jump.
fn jump_from(
    design: &Design,
    future: &[Bits; 16],
    memory: &RandomAccess,
    cell: &Cell,
    scratch: &mut Scratch,
) -> Option<u32>
    requires well_formed { IsWellFormed design.now.extension }
    requires future { AreWide (view_extension design.now.extension) future.now }
    requires scratch { IsScratchOf (view_extension design.now.extension) scratch.old }
    ensures scratch { IsScratchOf (view_extension design.now.extension) scratch.new }
    ensures jump { result ≡ jump_with (view_extension design.now.extension) future.now memory.now cell.now.at cell.now.word }
{
    let inputs = Inputs {
        word: cell.word,
        rs1: 0,
        rs2: 0,
        pc: cell.at,
        custom: *future,
    };
    blocks_effect(&design.extension, &inputs, memory, scratch).pc
}

/// The guess of the address behind a cell of stage 0.
fn guess_behind(
    design: &Design,
    future: &[Bits; 16],
    memory: &RandomAccess,
    cell: &Cell,
    scratch: &mut Scratch,
) -> u32
    requires well_formed { IsWellFormed design.now.extension }
    requires future { AreWide (view_extension design.now.extension) future.now }
    requires scratch { IsScratchOf (view_extension design.now.extension) scratch.old }
    ensures scratch { IsScratchOf (view_extension design.now.extension) scratch.new }
    ensures guess { result ≡ guess_of design.now.sheet.shape.predict (jump_with (view_extension design.now.extension) future.now memory.now cell.now.at cell.now.word) cell.now.at }
{
    if design.sheet.shape.predict {
        Blocks::guess(jump_from(design, future, memory, cell, scratch), cell.at)
    } else {
        Plain::guess(None, cell.at)
    }
}

/// Gives the token of a slot, where one is there, the guess of the address behind it.
fn guess_slot(
    design: &Design,
    future: &[Bits; 16],
    memory: &RandomAccess,
    slot: &mut Option<Token>,
    scratch: &mut Scratch,
)
    requires well_formed { IsWellFormed design.now.extension }
    requires future { AreWide (view_extension design.now.extension) future.now }
    requires fitting { IsFittingSlot design.now slot.old }
    requires scratch { IsScratchOf (view_extension design.now.extension) scratch.old }
    ensures scratch { IsScratchOf (view_extension design.now.extension) scratch.new }
    ensures slot { slot.new ≡ option_map (with_guess design.now future.now memory.now) slot.old }
    ensures fitting { IsFittingSlot design.now slot.new }
{
    if let Some(token) = slot {
        token.guess = guess_behind(design, future, memory, &token.cell, scratch);
    }
}

/// Guesses the address behind the token of stage 0, where one is there.
pub fn guess(
    design: &Design,
    future: &[Bits; 16],
    memory: &RandomAccess,
    slots: &mut [Option<Token>],
    scratch: &mut Scratch,
)
    requires well_formed { IsWellFormed design.now.extension }
    requires future { AreWide (view_extension design.now.extension) future.now }
    requires stages { 0 < length slots.old }
    requires fitting { AreFitting design.now slots.old }
    requires scratch { IsScratchOf (view_extension design.now.extension) scratch.old }
    ensures scratch { IsScratchOf (view_extension design.now.extension) scratch.new }
    ensures slots { slots.new ≡ guess_first design.now future.now memory.now slots.old }
    ensures fitting { AreFitting design.now slots.new }
{
    guess_slot(design, future, memory, &mut slots[0], scratch);
}

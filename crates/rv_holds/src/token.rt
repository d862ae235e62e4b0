ghost use Rattle.std.specs.Prelude.{◌≡◌};
ghost use Rattle.rv_holds.specs.Tokens.{stop_of as specified_stop_of, commit_of as specified_commit_of, makes_access};

use ix_eval::Inputs;
use rv_asks::Asks;
use rv_seq::{Commit, Decoded, StepAnswer, Stop};
use rv_trace::{Cell, Hold};
use rv_tried::Trial;

/// What a token meets in a row beside the stages: of what is outstanding, and of the interrupt line.
#[derive(Clone, Copy, Debug, PartialEq, Eq)]
pub struct Beside {
    /// At RD, the least outstanding register that its instruction reads or writes, by number, 0 to 47, with the oldest serial that owes it.
    pub board: Option<(u8, u32)>,
    /// In the last stage, why its instruction cannot retire beside the units: its own is frozen, or another one takes the port.
    pub port: Option<Hold>,
    /// The oldest serial that is outstanding before the row and not written in it.
    pub left: Option<u32>,
    /// Whether an interrupt is to be taken in the row.
    pub trap: bool,
}

/// A cell with what its word is and what the laws of rows ask of it.
#[derive(Clone, Copy)]
pub struct Token {
    pub cell: Cell,
    pub decoded: Option<Decoded>,
    pub asks: Asks,
    /// What its instruction sees: its word and address, the operands that it read last at RD, and the custom registers that it read at EX.
    pub inputs: Inputs,
    /// What it comes to, once it has been tried at EX.
    pub trial: Option<Trial>,
    /// For how many rows its access still waits at MEM.
    pub wait: u8,
    /// For how many rows its module still goes on in the last stage.
    pub tail: u8,
    /// What it meets beside the stages.
    pub beside: Beside,
    /// The guess of the address behind it, as it was when the token left stage 0.
    pub guess: u32,
    /// The address to which it returns, if it is a return, as the core knew it when the token was fetched.
    pub back: Option<u32>,
}

/// The stop that a token makes, where it has been tried and makes one.
pub fn stop_of(token: &Token) -> Option<Stop>
    ensures { result ≡ specified_stop_of token.now }
{
    match &token.trial {
        Some(trial) => match &trial.answer {
            StepAnswer::Done(_) => None,
            StepAnswer::Stopped(stop) => Some(*stop),
        },
        None => None,
    }
}

/// What a token writes, where it has been tried and makes no stop.
pub fn commit_of(token: &Token) -> Option<Commit>
    ensures { result ≡ specified_commit_of token.now }
{
    match &token.trial {
        Some(trial) => match &trial.answer {
            StepAnswer::Done(commit) => Some(*commit),
            StepAnswer::Stopped(_) => None,
        },
        None => None,
    }
}

/// Whether a token accesses the memory, its condition true.
pub fn access_of(token: &Token) -> bool
    ensures { result ≡ makes_access token.now }
{
    match &token.trial {
        Some(trial) => trial.accesses,
        None => false,
    }
}

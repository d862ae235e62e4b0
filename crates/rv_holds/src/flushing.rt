ghost use Rattle.std.specs.Prelude.{Bool, ◌≡◌, ◌+◌, ◌≤◌, ◌<◌, length, take, drop, replicate, map, None, IfSome};
ghost use Rattle.rv_holds.specs.Tokens.{cell_of, cells_of};
ghost use Rattle.rv_holds.specs.Flushing.{next_of as specified_next_of, settles_at as specified_settles_at, settles as specified_settles, settled, nearest, turn_of, enters as specified_enters, turn_with, redirect_of as specified_redirect_of, struck as specified_struck, freed as specified_freed, unheld, cleared, flushed_of, slot_stop, remains as specified_remains, fetch_after};

use crate::deciding::{does_stop, hold, is_last};
use crate::token::{Token, stop_of};
use rv_core::Shape;
use rv_seq::{StepAnswer, Stop};
use rv_trace::Cell;

/// Where the fetch is turned: a token settles its successor in this stage, or the handler is entered from the stages below it.
#[derive(Clone, Copy, Debug, PartialEq, Eq)]
pub struct Turn {
    /// The count of the stages that are flushed.
    pub stage: usize,
    pub address: u32,
}

/// What a row shows of the flush: its cells, the flushed serials, the oldest first, and the address that is named.
#[derive(Clone, Copy)]
pub struct Flushed {
    pub cells: [Option<Cell>; 5],
    pub flushed: [Option<u32>; 5],
    pub redirect: Option<u32>,
}

fn cell_in(slot: &Option<Token>) -> Option<Cell>
    ensures { result ≡ cell_of slot.now }
{
    match slot {
        None => None,
        Some(token) => Some(token.cell),
    }
}

fn cells_in(slots: &[Option<Token>]) -> [Option<Cell>; 5]
    requires { length slots.now ≤ 5 }
    ensures cells { take (length slots.now) result ≡ cells_of slots.now }
    ensures behind { drop (length slots.now) result ≡ drop (length slots.now) (replicate 5 None) }
{
    let mut cells = [None; 5];
    for stage in 0..slots.len() {
        cells[stage] = cell_in(&slots[stage]);
    }
    cells
}

/// The address of a token's successor.
fn next_of(token: &Token) -> u32
    ensures { result ≡ specified_next_of token.now }
{
    match &token.trial {
        Some(trial) => match &trial.answer {
            StepAnswer::Done(commit) => commit.next,
            StepAnswer::Stopped(_) => token.cell.at.wrapping_add(4),
        },
        None => token.cell.at.wrapping_add(4),
    }
}

/// Whether a token settles its successor from this stage: EX, or the last one where it writes the pc late.
fn settles_at(shape: Shape, stage: usize, token: &Token) -> bool
    ensures { result ≡ specified_settles_at shape stage token.now }
{
    if token.asks.late {
        is_last(shape, stage)
    } else {
        stage == usize::from(shape.ex)
    }
}

/// Whether a token settles its successor in this row.
fn does_settle(shape: Shape, stage: usize, token: &Token, older: &[Option<Token>]) -> bool
    ensures { result ≡ specified_settles shape stage token.now older.now }
{
    if !settles_at(shape, stage, token) {
        return false;
    }
    if token.cell.hold.is_some() {
        return false;
    }
    !does_stop(shape, stage, token, older)
}

/// Where a token settles its successor, the youngest that does.
fn settled_in(shape: Shape, slots: &[Option<Token>]) -> Option<Turn>
    ensures turn { result ≡ settled shape 0 slots.now }
    ensures inside { IfSome result (λ turn. turn.stage < length slots.now) }
{
    for stage in 0..slots.len() {
        if let Some(token) = &slots[stage] {
            if does_settle(shape, stage, token, &slots[stage + 1..]) {
                return Some(Turn {
                    stage,
                    address: next_of(token),
                });
            }
        }
    }
    None
}

/// The address of the oldest of these younger tokens, or, with none there, the one that is to be fetched.
fn nearest_address(fetch: u32, younger: &[Option<Token>]) -> u32
    ensures { result ≡ nearest fetch younger.now }
{
    let mut address = fetch;
    for slot in younger {
        if let Some(token) = slot {
            address = token.cell.at;
        }
    }
    address
}

/// The token that turns the fetch: the one that settles another address than the one that stands next.
fn settled_turn(shape: Shape, fetch: u32, slots: &[Option<Token>]) -> Option<Turn>
    ensures turn { result ≡ turn_of shape fetch slots.now }
    ensures inside { IfSome result (λ turn. turn.stage < length slots.now) }
{
    match settled_in(shape, slots) {
        None => None,
        Some(turn) => {
            if turn.address == nearest_address(fetch, &slots[..turn.stage]) {
                None
            } else {
                Some(turn)
            }
        }
    }
}

/// Whether a token is left after the row.
pub fn remains(slots: &[Option<Token>]) -> bool
    ensures { result ≡ specified_remains slots.now }
{
    match slots {
        [] => false,
        [None, rest @ ..] => remains(rest),
        [Some(token), rest @ ..] => !rest.is_empty() || token.cell.hold.is_some(),
    }
}

/// Whether the handler is entered in the row: an interrupt is to be taken, and no token is left above EX.
pub fn enters(shape: Shape, interrupted: bool, slots: &[Option<Token>]) -> bool
    requires { shape.ex + 1 < length slots.now }
    ensures { result ≡ specified_enters shape interrupted slots.now }
{
    interrupted && !remains(&slots[usize::from(shape.ex) + 1..])
}

/// Where the fetch is turned in the row: to the handler where that is entered, or else by a token.
pub fn turn_in(shape: Shape, entered: bool, fetch: u32, slots: &[Option<Token>]) -> Option<Turn>
    requires { shape.ex + 1 < length slots.now }
    ensures turn { (interrupted : Bool) → entered ≡ specified_enters shape interrupted slots.now → result ≡ turn_with shape interrupted fetch slots.now }
    ensures inside { IfSome result (λ turn. turn.stage < length slots.now) }
{
    if entered {
        return Some(Turn {
            stage: usize::from(shape.ex) + 1,
            address: shape.trap,
        });
    }
    settled_turn(shape, fetch, slots)
}

fn redirect_of(turn: Option<Turn>) -> Option<u32>
    ensures { result ≡ specified_redirect_of turn }
{
    match turn {
        None => None,
        Some(turn) => Some(turn.address),
    }
}

/// How many stages are flushed, from stage 0 on.
pub fn struck(turn: Option<Turn>) -> usize
    ensures { result ≡ specified_struck turn }
{
    match turn {
        None => 0,
        Some(turn) => turn.stage,
    }
}

/// The serials of these tokens, the oldest first.
fn serials_in(slots: &[Option<Token>]) -> [Option<u32>; 5]
    requires { length slots.now ≤ 5 }
    ensures { result ≡ flushed_of slots.now }
{
    let mut serials = [None; 5];
    let mut count = 0;
    for stage in (0..slots.len()).rev() {
        if let Some(token) = &slots[stage] {
            serials[count] = Some(token.cell.serial);
            count += 1;
        }
    }
    serials
}

/// Flushed tokens show no hold.
fn free(slots: &mut [Option<Token>])
    ensures { slots.new ≡ map specified_freed slots.old }
{
    for stage in 0..slots.len() {
        hold(&mut slots[stage], None);
    }
}

/// Takes the tokens away.
fn empty(slots: &mut [Option<Token>])
    ensures { slots.new ≡ replicate (length slots.old) None }
{
    for stage in 0..slots.len() {
        slots[stage] = None;
    }
}

/// Flushes the tokens below the one that turns the fetch, where one does, and tells what is shown. There are at most five slots.
pub fn flush(turn: Option<Turn>, slots: &mut [Option<Token>]) -> Flushed
    requires few { length slots.old ≤ 5 }
    requires inside { IfSome turn (λ turn. turn.stage < length slots.old) }
    ensures redirect { result.redirect ≡ specified_redirect_of turn }
    ensures slots { slots.new ≡ cleared (specified_struck turn) slots.old }
    ensures cells { take (length slots.old) result.cells ≡ cells_of (unheld (specified_struck turn) slots.old) }
    ensures behind { drop (length slots.old) result.cells ≡ drop (length slots.old) (replicate 5 None) }
    ensures flushed { result.flushed ≡ flushed_of (take (specified_struck turn) slots.old) }
{
    let redirect = redirect_of(turn);
    let count = struck(turn);
    let flushed = serials_in(&slots[..count]);
    free(&mut slots[..count]);
    let cells = cells_in(slots);
    empty(&mut slots[..count]);
    Flushed {
        cells,
        flushed,
        redirect,
    }
}

/// The stop that a token makes in this row, where one does.
pub fn stop_in(shape: Shape, slots: &[Option<Token>]) -> Option<Stop>
    ensures { result ≡ slot_stop shape 0 slots.now }
{
    for stage in 0..slots.len() {
        if let Some(token) = &slots[stage] {
            if does_stop(shape, stage, token, &slots[stage + 1..]) {
                return stop_of(token);
            }
        }
    }
    None
}

/// The plain fetch address of the next row.
pub fn fetch_following(fetch: u32, slots: &[Option<Token>]) -> u32
    ensures { result ≡ fetch_after fetch slots.now }
{
    match slots {
        [Some(token), ..] if token.cell.hold.is_none() => token.guess,
        _ => fetch,
    }
}

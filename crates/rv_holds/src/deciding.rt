ghost use Rattle.std.specs.Prelude.{◌≡◌, ◌+◌, ◌<◌, ◌==◌, length, suc, is_some, option_map, IfSome};
ghost use Rattle.rv_holds.specs.Tokens.{or_else};
ghost use Rattle.rv_holds.specs.Holds.{withholds as specified_withholds, withholder, waits_for, operand_hold, waits_for_custom, custom_hold, late_hold, waiting_hold as specified_waiting_hold, staying, entering, left_behind, trap_hold, drain_hold, leaving_hold, reading_hold, ending_hold, store_hold, memory_hold, tail_hold, own_hold, stops_now, is_blocked as specified_is_blocked, shown, held as specified_held, decided};

use crate::asked::{Asked, oldest_asked};
use crate::board::board_of;
use crate::forwarding::is_below;
use crate::token::{Token, stop_of};
use rv_asks::Asks;
use rv_core::Shape;
use rv_trace::Hold;

/// Whether a token writes this x register, its value not there yet for a younger one: it stands so many stages on from a stage.
fn withholds(shape: Shape, r: u8, stage: usize, further: usize, token: &Token) -> bool
    ensures { result ≡ specified_withholds shape r (stage + further) token.now }
{
    token.asks.destination == r && !(shape.forward && is_below(token.asks.x_time, stage, further))
}

/// The oldest token that does, the first of these in this stage.
fn oldest_withholding(shape: Shape, r: u8, stage: usize, older: &[Option<Token>]) -> Option<u32>
    ensures { result ≡ withholder shape r stage older.now }
{
    let mut found = None;
    for further in 0..older.len() {
        if let Some(token) = &older[further] {
            if withholds(shape, r, stage, further, token) {
                found = Some(token.cell.serial);
            }
        }
    }
    found
}

fn waited_for(shape: Shape, r: u8, stage: usize, older: &[Option<Token>]) -> Option<Hold>
    ensures { result ≡ waits_for shape r stage older.now }
{
    if r == 0 {
        return None;
    }
    match oldest_withholding(shape, r, stage, older) {
        None => None,
        Some(serial) => Some(Hold::Operand(r, serial)),
    }
}

/// The hold of an instruction that waits for an operand, the least register first.
fn operand(shape: Shape, stage: usize, older: &[Option<Token>], asks: &Asks) -> Option<Hold>
    ensures { result ≡ operand_hold shape stage older.now asks.now }
{
    let first = asks.first;
    let second = asks.second;
    match waited_for(shape, first.min(second), stage, older) {
        None => waited_for(shape, first.max(second), stage, older),
        hold => hold,
    }
}

fn custom_waited_for(older: &[Option<Token>], asks: &Asks, r: u8) -> Option<Hold>
    requires { r < 16 }
    ensures { result ≡ waits_for_custom older.now asks.now r }
{
    if !asks.customs[usize::from(r)] {
        return None;
    }
    match oldest_asked(older, Asked::LateWriter(r)) {
        None => None,
        Some(serial) => Some(Hold::Custom(r, serial)),
    }
}

/// The hold of an instruction that waits for a custom register, the least one first.
fn custom(older: &[Option<Token>], asks: &Asks) -> Option<Hold>
    ensures { result ≡ custom_hold older.now asks.now }
{
    for r in 0..16 {
        let hold = custom_waited_for(older, asks, r);
        if hold.is_some() {
            return hold;
        }
    }
    None
}

/// The hold of an instruction behind one that writes the pc late.
fn late(older: &[Option<Token>]) -> Option<Hold>
    ensures { result ≡ late_hold older.now }
{
    oldest_asked(older, Asked::Late).map(|serial| Hold::Late(serial))
}

/// The hold of a token at RD, which waits for an operand first and then for an outstanding register.
fn reading(shape: Shape, token: &Token, older: &[Option<Token>]) -> Option<Hold>
    ensures { result ≡ reading_hold shape shape.rd token.now older.now }
{
    match operand(shape, usize::from(shape.rd) + 1, older, &token.asks) {
        None => board_of(token, older),
        hold => hold,
    }
}

/// The hold until which a token of this stage cannot be tried at EX, where it has one.
pub fn waiting_hold(
    shape: Shape,
    stage: usize,
    token: &Token,
    older: &[Option<Token>],
) -> Option<Hold>
    ensures { result ≡ specified_waiting_hold shape stage token.now older.now }
{
    if stage == usize::from(shape.rd) {
        let hold = reading(shape, token, older);
        if hold.is_some() {
            return hold;
        }
    }
    if stage != usize::from(shape.ex) {
        return None;
    }
    match custom(older, &token.asks) {
        None => late(older),
        hold => hold,
    }
}

/// The oldest token that is not retired by the end of the row.
fn oldest_staying(older: &[Option<Token>]) -> Option<u32>
    ensures { result ≡ staying older.now }
{
    match older {
        [] => None,
        [None, rest @ ..] => oldest_staying(rest),
        [Some(token)] => {
            if token.cell.hold.is_some() {
                Some(token.cell.serial)
            } else {
                None
            }
        }
        [Some(token), rest @ ..] => {
            match oldest_staying(rest) {
                None => Some(token.cell.serial),
                found => found,
            }
        }
    }
}

/// The token that goes out of the last stage into a unit.
fn entering_serial(older: &[Option<Token>]) -> Option<u32>
    ensures { result ≡ entering older.now }
{
    match older {
        [] => None,
        [None] => None,
        [Some(token)] => {
            if token.asks.unit.is_some() && token.cell.hold.is_none() {
                Some(token.cell.serial)
            } else {
                None
            }
        }
        [_, rest @ ..] => entering_serial(rest),
    }
}

/// The oldest token that is outstanding or not retired by the end of the row.
fn oldest_behind(older: &[Option<Token>]) -> Option<u32>
    ensures { result ≡ or_else (entering older.now) (staying older.now) }
{
    match entering_serial(older) {
        None => oldest_staying(older),
        serial => serial,
    }
}

/// The oldest serial that is outstanding or not retired by the end of the row.
fn oldest_left(token: &Token, older: &[Option<Token>]) -> Option<u32>
    ensures { result ≡ left_behind token.now older.now }
{
    match token.beside.left {
        None => oldest_behind(older),
        left => left,
    }
}

/// The hold of a token that is due to stop.
fn drain(token: &Token, older: &[Option<Token>]) -> Option<Hold>
    ensures { result ≡ drain_hold token.now older.now }
{
    if stop_of(token).is_some() {
        oldest_left(token, older).map(|serial| Hold::Drain(serial))
    } else {
        None
    }
}

/// The hold of a token while an interrupt is to be taken.
fn trap(token: &Token) -> Option<Hold>
    ensures { result ≡ trap_hold token.now }
{
    if token.beside.trap {
        Some(Hold::Trap)
    } else {
        None
    }
}

/// The hold of a token at EX that waits for no older one's write.
fn leaving(token: &Token, older: &[Option<Token>]) -> Option<Hold>
    ensures { result ≡ leaving_hold token.now older.now }
{
    match trap(token) {
        None => drain(token, older),
        hold => hold,
    }
}

/// The hold of a load that waits for an older store.
fn store(older: &[Option<Token>], asks: &Asks) -> Option<Hold>
    ensures { result ≡ store_hold older.now asks.now }
{
    if asks.loads {
        oldest_asked(older, Asked::Store).map(|serial| Hold::StoreAhead(serial))
    } else {
        None
    }
}

/// The hold of an access that waits for the memory.
fn memory(token: &Token) -> Option<Hold>
    ensures { result ≡ memory_hold token.now }
{
    if token.wait == 0 {
        None
    } else {
        Some(Hold::Wait(token.wait))
    }
}

/// The hold of a module that is not done.
fn tail(token: &Token) -> Option<Hold>
    ensures { result ≡ tail_hold token.now }
{
    if token.tail == 0 {
        None
    } else {
        Some(Hold::Tail(token.tail))
    }
}

/// The hold of a token in the last stage: its module is not done, or it cannot retire beside the units.
fn retiring(token: &Token) -> Option<Hold>
    ensures { result ≡ ending_hold token.now }
{
    match tail(token) {
        None => token.beside.port,
        hold => hold,
    }
}

/// Whether a stage is the last one.
pub fn is_last(shape: Shape, stage: usize) -> bool
    ensures { result ≡ (suc stage == shape.stages) }
{
    let stages = usize::from(shape.stages);
    stage < stages && stage + 1 == stages
}

/// The hold of an access, which waits for the memory first and then for an older store.
fn access(token: &Token, older: &[Option<Token>]) -> Option<Hold>
    ensures { result ≡ or_else (memory_hold token.now) (store_hold older.now token.now.asks) }
{
    match memory(token) {
        None => store(older, &token.asks),
        hold => hold,
    }
}

/// The first true hold but `Behind`.
fn first_hold(shape: Shape, stage: usize, token: &Token, older: &[Option<Token>]) -> Option<Hold>
    ensures { result ≡ own_hold shape stage token.now older.now }
{
    let hold = waiting_hold(shape, stage, token, older);
    if hold.is_some() {
        return hold;
    }
    if stage == usize::from(shape.ex) {
        let hold = leaving(token, older);
        if hold.is_some() {
            return hold;
        }
    }
    if stage == usize::from(shape.mem) {
        let hold = access(token, older);
        if hold.is_some() {
            return hold;
        }
    }
    if is_last(shape, stage) {
        retiring(token)
    } else {
        None
    }
}

/// Whether the token stops the run in this row.
pub fn does_stop(shape: Shape, stage: usize, token: &Token, older: &[Option<Token>]) -> bool
    ensures { result ≡ stops_now shape stage token.now older.now }
{
    stage == usize::from(shape.ex)
        && stop_of(token).is_some()
        && first_hold(shape, stage, token, older).is_none()
}

/// Whether the token of this stage, the first of the slots, is held or stops the run.
fn is_blocked(shape: Shape, stage: usize, slots: &[Option<Token>]) -> bool
    ensures { result ≡ specified_is_blocked shape stage slots.now }
{
    match slots {
        [] => false,
        [None, ..] => false,
        [Some(token), older @ ..] => {
            token.cell.hold.is_some() || does_stop(shape, stage, token, older)
        }
    }
}

/// The hold that a token shows.
fn hold_of(shape: Shape, stage: usize, token: &Token, older: &[Option<Token>]) -> Option<Hold>
    requires { stage < 100 }
    ensures { result ≡ shown shape stage token.now older.now }
{
    if does_stop(shape, stage, token, older) {
        return None;
    }
    match first_hold(shape, stage, token, older) {
        None => {
            if is_blocked(shape, stage + 1, older) {
                Some(Hold::Behind)
            } else {
                None
            }
        }
        hold => hold,
    }
}

/// The hold of the token of this slot, where one is there.
fn hold_in(
    shape: Shape,
    stage: usize,
    slot: &Option<Token>,
    older: &[Option<Token>],
) -> Option<Hold>
    requires { stage < 100 }
    ensures { IfSome slot.now (λ t. result ≡ shown shape stage t older.now) }
{
    match slot {
        None => None,
        Some(token) => hold_of(shape, stage, token, older),
    }
}

/// Gives the token of this slot a hold.
pub fn hold(slot: &mut Option<Token>, hold: Option<Hold>)
    ensures { slot.new ≡ option_map (specified_held hold) slot.old }
{
    if let Some(token) = slot {
        token.cell.hold = hold;
    }
}

/// Gives each slot its hold, from the oldest down. There are fewer than 100 of them.
pub fn decide(shape: Shape, slots: &mut [Option<Token>])
    requires { length slots.old < 100 }
    ensures { slots.new ≡ decided shape 0 slots.old }
{
    for stage in (0..slots.len()).rev() {
        let shown = hold_in(shape, stage, &slots[stage], &slots[stage + 1..]);
        hold(&mut slots[stage], shown);
    }
}

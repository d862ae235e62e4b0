ghost use Rattle.std.specs.Prelude.{◌≡◌, ◌<◌, suc, ◌==◌};
ghost use Rattle.rv_holdings.specs.Expected.{waits_for, operand_hold, spawner, board_at, board_hold, custom_at, custom_hold, first_from, register_count, custom_count, late_hold, drain_hold, memory_hold, store_hold, tail_hold, unit_hold, port_hold, own_hold as specified_own_hold};

use crate::board::{does_touch, register_at};
use crate::search::{first_owed, oldest};
use crate::want::Want;
use rv_asks::Asks;
use rv_core::Shape;
use rv_rows::{Known, Owed};
use rv_trace::{Hold, Row};

fn waited_for(shape: Shape, row: &Row, r: u8, older: &[Option<Owed>]) -> Option<Hold>
    ensures { result ≡ waits_for shape row.now r older.now }
{
    if r == 0 {
        return None;
    }
    match oldest(shape, row, Want::Operand(r), older) {
        None => None,
        Some(serial) => Some(Hold::Operand(r, serial)),
    }
}

/// The hold of an instruction at RD that waits for an operand, the least register first.
fn operand(
    shape: Shape,
    row: &Row,
    stage: usize,
    asks: &Asks,
    older: &[Option<Owed>],
) -> Option<Hold>
    ensures { result ≡ operand_hold shape row.now stage asks.now older.now }
{
    if stage != usize::from(shape.rd) {
        return None;
    }
    let first = asks.first;
    let second = asks.second;
    match waited_for(shape, row, first.min(second), older) {
        None => waited_for(shape, row, first.max(second), older),
        hold => hold,
    }
}

/// The oldest that writes a register by `spawn`, beside the stages or in them.
fn spawner_of(
    shape: Shape,
    row: &Row,
    owed: &[Owed],
    older: &[Option<Owed>],
    number: u8,
) -> Option<u32>
    requires { number < 48 }
    ensures { result ≡ spawner shape row.now owed.now older.now number }
{
    match first_owed(row, Some(number), owed) {
        None => oldest(shape, row, Want::Board(number), older),
        found => found,
    }
}

fn board_of(
    shape: Shape,
    row: &Row,
    owed: &[Owed],
    asks: &Asks,
    older: &[Option<Owed>],
    number: u8,
) -> Option<Hold>
    requires { number < 48 }
    ensures { result ≡ board_at shape row.now owed.now asks.now older.now number }
{
    if !does_touch(asks, number) {
        return None;
    }
    match spawner_of(shape, row, owed, older, number) {
        None => None,
        Some(serial) => Some(Hold::Board(register_at(number), serial)),
    }
}

/// The hold of an instruction that waits for an outstanding register, the least one first.
pub fn least_board(
    shape: Shape,
    row: &Row,
    owed: &[Owed],
    asks: &Asks,
    older: &[Option<Owed>],
) -> Option<Hold>
    ensures { result ≡ first_from (board_at shape row.now owed.now asks.now older.now) 0 register_count }
{
    for number in 0..48 {
        let hold = board_of(shape, row, owed, asks, older, number);
        if hold.is_some() {
            return hold;
        }
    }
    None
}

/// The hold of an instruction at RD that waits for an outstanding register, the least one first.
fn board(
    shape: Shape,
    row: &Row,
    owed: &[Owed],
    stage: usize,
    asks: &Asks,
    older: &[Option<Owed>],
) -> Option<Hold>
    ensures { result ≡ board_hold shape row.now owed.now stage asks.now older.now }
{
    if stage == usize::from(shape.rd) {
        least_board(shape, row, owed, asks, older)
    } else {
        None
    }
}

fn custom_of(shape: Shape, row: &Row, asks: &Asks, older: &[Option<Owed>], r: u8) -> Option<Hold>
    requires { r < 16 }
    ensures { result ≡ custom_at shape row.now asks.now older.now r }
{
    if !asks.customs[usize::from(r)] {
        return None;
    }
    match oldest(shape, row, Want::Custom(r), older) {
        None => None,
        Some(serial) => Some(Hold::Custom(r, serial)),
    }
}

fn least_custom(shape: Shape, row: &Row, asks: &Asks, older: &[Option<Owed>]) -> Option<Hold>
    ensures { result ≡ first_from (custom_at shape row.now asks.now older.now) 0 custom_count }
{
    for r in 0..16 {
        let hold = custom_of(shape, row, asks, older, r);
        if hold.is_some() {
            return hold;
        }
    }
    None
}

/// The hold of an instruction at EX that waits for a custom register, the least one first.
fn custom(
    shape: Shape,
    row: &Row,
    stage: usize,
    asks: &Asks,
    older: &[Option<Owed>],
) -> Option<Hold>
    ensures { result ≡ custom_hold shape row.now stage asks.now older.now }
{
    if stage == usize::from(shape.ex) {
        least_custom(shape, row, asks, older)
    } else {
        None
    }
}

/// The hold of an instruction at EX behind one that writes the pc late.
fn late(shape: Shape, row: &Row, stage: usize, older: &[Option<Owed>]) -> Option<Hold>
    ensures { result ≡ late_hold shape row.now stage older.now }
{
    if stage != usize::from(shape.ex) {
        return None;
    }
    match oldest(shape, row, Want::Late, older) {
        None => None,
        Some(serial) => Some(Hold::Late(serial)),
    }
}

/// The hold of an instruction at EX that is due to stop.
fn drain(
    shape: Shape,
    row: &Row,
    known: &Known,
    owed: &[Owed],
    stage: usize,
    older: &[Option<Owed>],
) -> Option<Hold>
    ensures { result ≡ drain_hold shape row.now known.now owed.now stage older.now }
{
    if stage != usize::from(shape.ex) || known.stop.is_none() {
        return None;
    }
    let beside = first_owed(row, None, owed);
    match beside.or(oldest(shape, row, Want::Drain, older)) {
        None => None,
        Some(serial) => Some(Hold::Drain(serial)),
    }
}

/// The hold of an access that waits for the memory.
fn memory(shape: Shape, known: &Known, stage: usize) -> Option<Hold>
    ensures { result ≡ memory_hold shape known.now stage }
{
    if stage != usize::from(shape.mem) || !known.accesses || known.stood >= u32::from(known.wait) {
        return None;
    }
    Some(Hold::Wait(known.wait - known.stood as u8))
}

/// The hold of a load that waits for an older store.
fn store(shape: Shape, row: &Row, stage: usize, asks: &Asks, older: &[Option<Owed>]) -> Option<Hold>
    ensures { result ≡ store_hold shape row.now stage asks.now older.now }
{
    if stage != usize::from(shape.mem) || !asks.loads {
        return None;
    }
    match oldest(shape, row, Want::Store, older) {
        None => None,
        Some(serial) => Some(Hold::StoreAhead(serial)),
    }
}

/// Whether a stage is the last one.
fn is_last(shape: Shape, stage: usize) -> bool
    ensures { result ≡ (suc stage == shape.stages) }
{
    let stages = usize::from(shape.stages);
    stage < stages && stage + 1 == stages
}

/// The hold of a module that is not done.
fn tail(shape: Shape, known: &Known, stage: usize, asks: &Asks) -> Option<Hold>
    ensures { result ≡ tail_hold shape known.now stage asks.now }
{
    if !is_last(shape, stage) || known.tailed >= u32::from(asks.tail) {
        return None;
    }
    Some(Hold::Tail(asks.tail - known.tailed as u8))
}

/// The hold of an instruction whose unit is frozen.
fn unit(shape: Shape, known: &Known, stage: usize, asks: &Asks) -> Option<Hold>
    ensures { result ≡ unit_hold shape known.now stage asks.now }
{
    if !is_last(shape, stage) || !known.frozen {
        return None;
    }
    match asks.unit {
        None => None,
        Some(unit) => Some(Hold::UnitFull(unit)),
    }
}

/// The hold of an instruction that writes an x register beside what is written into one.
fn port(shape: Shape, row: &Row, known: &Known, stage: usize, asks: &Asks) -> Option<Hold>
    ensures { result ≡ port_hold shape row.now known.now stage asks.now }
{
    if !is_last(shape, stage) || asks.destination == 0 || !known.port {
        return None;
    }
    match row.written {
        None => None,
        Some(written) => Some(Hold::Port(written.0)),
    }
}

/// The first hold of its own that is true of the instruction of a stage.
pub fn own_hold(
    shape: Shape,
    row: &Row,
    known: &Known,
    owed: &[Owed],
    stage: usize,
    asks: &Asks,
    older: &[Option<Owed>],
) -> Option<Hold>
    ensures { result ≡ specified_own_hold shape row.now known.now owed.now stage asks.now older.now }
{
    operand(shape, row, stage, asks, older)
        .or(board(shape, row, owed, stage, asks, older))
        .or(custom(shape, row, stage, asks, older))
        .or(late(shape, row, stage, older))
        .or(drain(shape, row, known, owed, stage, older))
        .or(memory(shape, known, stage))
        .or(store(shape, row, stage, asks, older))
        .or(tail(shape, known, stage, asks))
        .or(unit(shape, known, stage, asks))
        .or(port(shape, row, known, stage, asks))
}

ghost use Rattle.std.specs.Prelude.{◌≡◌, ◌%◌, ◌^◌, ◌&&◌, length, map, get_or};
ghost use Rattle.rv_ports.specs.Feeds.{fed, feed_value, feed_width};
ghost use Rattle.rv_ports.specs.Inputs.{is_token, token_at, enable_decoupled, enable_beyond, enable_value, moves_on, seat_at, last_seat, is_own, is_tailed, stands_still, read_by, carried};
ghost use Rattle.rv_seq.specs.States.{zero_bit};

use crate::feeds::{Carried, Feed};
use crate::{Module, Seat, Shown};
use ix_bits::{Bits, Ty};
use ix_graph::{Kind, Mode};

// Whether what stands there is the token of the module's behaviour.
fn is_token_of(driven: &Module, seat: &Seat) -> bool
    ensures { result ≡ is_token driven.now.shape driven.now.number driven.now.mode seat.now }
{
    match driven.mode {
        Mode::InPipeline | Mode::Tight | Mode::Decoupled => seat.behaviour == Some(driven.number),
        Mode::Always => seat.time == u16::from(driven.shape.ex),
    }
}

// The token at a time.
fn token(driven: &Module, time: u16, seats: &[Option<Seat>]) -> Option<Seat>
    ensures { result ≡ token_at driven.now time seats.now }
{
    for place in 0..seats.len() {
        if let Some(seat) = seats[place] {
            if seat.time == time && is_token_of(driven, &seat) {
                return Some(seat);
            }
        }
    }
    None
}

// The value of a custom register as it is read at EX.
fn register(shown: &Shown, number: u8) -> u128
    ensures { result ≡ (get_or shown.now.custom number zero_bit).raw }
{
    if number < 16 {
        shown.custom[number as usize].raw
    } else {
        0
    }
}

// What an operation of this kind reads where this is its token.
fn read_by_token(shown: &Shown, seat: &Seat, kind: Kind) -> u128
    ensures { result ≡ read_by shown.now seat.now kind }
{
    match kind {
        Kind::RdInstr => u128::from(seat.word),
        Kind::RdRS1 => u128::from(seat.first),
        Kind::RdRS2 => u128::from(seat.second),
        Kind::RdPC => u128::from(seat.at),
        Kind::RdCustReg(number) => register(shown, number),
        Kind::RdMem => u128::from(shown.datum),
        _ => 0,
    }
}

// What its input carries.
fn read(shown: &Shown, kind: Kind, token: Option<Seat>) -> u128
    ensures { result ≡ carried shown.now kind token }
{
    match token {
        Some(seat) => if seat.silent {
            0
        } else {
            read_by_token(shown, &seat, kind)
        },
        None => 0,
    }
}

// The low bits of a number.
fn cut(raw: u128, ty: Ty) -> Bits
    ensures raw { result.raw ≡ raw % 2 ^ ty.width }
    ensures width { result.width ≡ ty.width }
{
    let raw = if ty.width < 128 {
        raw % (1u128 << ty.width)
    } else {
        raw
    };
    Bits {
        raw,
        width: ty.width,
    }
}

// Whether the cell of a stage moves to the next one.
fn moves(shown: &Shown, stage: usize) -> bool
    ensures { result ≡ moves_on (seat_at shown.now stage) }
{
    if stage >= 5 {
        return false;
    }
    match shown.seats[stage] {
        Some(seat) => seat.moves,
        None => false,
    }
}

// What stands in the last stage.
fn last(driven: &Module, shown: &Shown) -> Option<Seat>
    ensures { result ≡ last_seat driven.now shown.now }
{
    shown.seats[usize::from(driven.shape.stages - 1)]
}

// Whether it is of the module's behaviour and moves on.
fn retires(driven: &Module, seat: Option<Seat>) -> bool
    ensures { result ≡ (is_own driven.now.number seat && moves_on seat) }
{
    match seat {
        Some(seat) => seat.behaviour == Some(driven.number) && seat.moves,
        None => false,
    }
}

// Whether it is of the module's behaviour and held by Tail.
fn tails(driven: &Module, seat: Option<Seat>) -> bool
    ensures { result ≡ (is_own driven.now.number seat && is_tailed seat) }
{
    match seat {
        Some(seat) => seat.behaviour == Some(driven.number) && seat.tails,
        None => false,
    }
}

// Whether the unit is frozen, where there is one.
fn is_still(shown: &Shown, unit: Option<u8>) -> bool
    ensures { result ≡ stands_still shown.now unit }
{
    match unit {
        Some(number) => number < 64 && shown.frozen[usize::from(number)],
        None => false,
    }
}

// The enable of a decoupled behaviour at the time of the last stage or a later one.
fn decoupled(driven: &Module, shown: &Shown, time: u16) -> bool
    ensures { result ≡ enable_decoupled driven.now shown.now time }
{
    if u32::from(time) + 1 == u32::from(driven.shape.stages) {
        retires(driven, last(driven, shown))
    } else {
        !is_still(shown, driven.unit)
    }
}

// The enable at the time of the last stage or a later one.
fn beyond(driven: &Module, shown: &Shown, time: u16) -> bool
    ensures { result ≡ enable_beyond driven.now.mode driven.now shown.now time }
{
    match driven.mode {
        Mode::InPipeline => false,
        Mode::Tight => tails(driven, last(driven, shown)),
        Mode::Decoupled => decoupled(driven, shown, time),
        Mode::Always => false,
    }
}

// The enable at a time.
fn enable(driven: &Module, shown: &Shown, time: u16) -> bool
    ensures { result ≡ enable_value driven.now shown.now time }
{
    if u32::from(time) + 1 < u32::from(driven.shape.stages) {
        moves(shown, usize::from(time))
    } else {
        beyond(driven, shown, time)
    }
}

// What is carried at a time.
fn carried(driven: &Module, shown: &Shown, what: Carried, time: u16) -> u128
    ensures { result ≡ fed driven.now shown.now what time }
{
    match what {
        Carried::Enable => u128::from(enable(driven, shown, time)),
        Carried::Read(kind) => read(shown, kind, token(driven, time, &shown.seats)),
    }
}

// The value of an input.
fn value(driven: &Module, shown: &Shown, feed: &Feed) -> Bits
    ensures raw { result.raw ≡ feed_value driven.now shown.now feed.now }
    ensures width { result.width ≡ feed_width feed.now }
{
    cut(carried(driven, shown, feed.carried, feed.time), feed.ty)
}

/// Drives the inputs of a module in a row that shows this, one for each feed, in their order.
pub fn drive(driven: &Module, feeds: &[Feed], shown: &Shown, inputs: &mut [Bits])
    requires { length inputs.old ≡ length feeds.now }
    ensures values { map (λ b. b.raw) inputs.new ≡ map (feed_value driven.now shown.now) feeds.now }
    ensures widths { map (λ b. b.width) inputs.new ≡ map feed_width feeds.now }
{
    for number in 0..feeds.len() {
        inputs[number] = value(driven, shown, &feeds[number]);
    }
}

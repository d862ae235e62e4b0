ghost use Rattle.std.specs.Prelude.{◌≡◌, ◌+◌, ◌<◌, suc, length, nat_lt, if◌then◌else◌};
ghost use Rattle.rv_lawful.specs.Forwarding.{value_in as specified_value_in, writes_x as specified_writes_x, is_there as specified_is_there};
ghost use Rattle.rv_holds.specs.Forwarding.{x_tried, reach, passed as specified_passed, forwarded as specified_forwarded, operand_in};

use crate::token::{Token, commit_of};
use rv_asks::Asks;
use rv_core::Shape;
use rv_seq::Slot;

/// Whether a number, a time or a stage, is below the stage that lies so many further than another.
pub fn is_below(number: u8, stage: usize, further: usize) -> bool
    ensures { result ≡ nat_lt number (stage + further) }
{
    match usize::from(number).checked_sub(stage) {
        None => true,
        Some(lead) => lead < further,
    }
}

/// The value of a slot that is written now.
fn value_in(slot: Slot<u32>) -> Option<u32>
    ensures { result ≡ specified_value_in slot }
{
    match slot {
        Slot::Now(value) => Some(value),
        _ => None,
    }
}

/// The value that a token writes to its x register, once it has been tried.
fn value_of(token: &Token) -> Option<u32>
    ensures { result ≡ x_tried token.now.trial }
{
    match commit_of(token) {
        None => None,
        Some(commit) => value_in(commit.rd),
    }
}

/// Whether an instruction writes this x register in its own body; no write of x0 counts.
fn writes_x(asks: &Asks, r: u8) -> bool
    ensures { result ≡ specified_writes_x asks.now r }
{
    r != 0 && asks.destination == r
}

/// Whether the value is there of an instruction that stands so many stages on from a stage: above the time of its write, or when it has been through EX and, where
/// it loads, through MEM. By the end of the row it has been through its own stage too, where it goes on.
fn is_there(shape: Shape, stage: usize, further: usize, goes_on: bool, asks: &Asks) -> bool
    requires { further < 100 }
    ensures { result ≡ specified_is_there shape (stage + further) (if goes_on then suc (stage + further) else stage + further) asks.now }
{
    let through = if goes_on { further + 1 } else { further };
    is_below(asks.x_time, stage, further)
        || is_below(shape.ex, stage, through)
            && (!asks.loads || is_below(shape.mem, stage, through))
}

/// What a token passes on for an x register.
fn passed(
    shape: Shape,
    decided: bool,
    r: u8,
    stage: usize,
    further: usize,
    token: &Token,
) -> Option<u32>
    requires { further < 100 }
    ensures { result ≡ specified_passed shape decided r (stage + further) token.now }
{
    let goes_on = decided && token.cell.hold.is_none();
    if writes_x(&token.asks, r) && is_there(shape, stage, further, goes_on, &token.asks) {
        value_of(token)
    } else {
        None
    }
}

/// What the youngest of these tokens that passes on something for an x register does, the first of them in this stage, else this value.
fn forwarded(
    shape: Shape,
    decided: bool,
    r: u8,
    stage: usize,
    older: &[Option<Token>],
    value: u32,
) -> u32
    requires { length older.now < 100 }
    ensures { result ≡ specified_forwarded shape decided r stage older.now value }
{
    for further in 0..older.len() {
        if let Some(token) = &older[further] {
            if let Some(found) = passed(shape, decided, r, stage, further, token) {
                return found;
            }
        }
    }
    value
}

/// An x register, 0 to 31, as an operand of a token before these, the first of them in this stage: on a core that forwards what the youngest of them that writes
/// it passes on, else that of the register file. `decided` says whether the holds of the row are. There are fewer than 100 of them.
pub fn operand_of(
    shape: Shape,
    decided: bool,
    stage: usize,
    older: &[Option<Token>],
    file: &[u32; 32],
    r: u8,
) -> u32
    requires few { length older.now < 100 }
    requires register { r < 32 }
    ensures { result ≡ operand_in shape decided stage older.now file.now r }
{
    let value = file[usize::from(r)];
    if shape.forward {
        forwarded(shape, decided, r, stage, older, value)
    } else {
        value
    }
}

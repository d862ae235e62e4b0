ghost use Rattle.std.specs.Prelude.{◌≡◌, ◌≤◌};
ghost use Rattle.ix_net.specs.Valid.{IsValid};

use crate::due::{count, due_at, input_of};
use crate::module::{Module, Why};
use crate::token::{Token, next};
use ix_bits::Bits;
use ix_graph::{Kind, Op};
use ix_net::Net;
use ix_neteval::{Sim, prepare};
use rv_core::Shape;
use std::alloc::Global;

/// The greatest time, and one more.
const TIMES: usize = 65;

/// More cycles than the tokens of a case take.
const MOST_CYCLES: u32 = 1_000_000;

/// The token that stands at each time, by its number.
type Places = [Option<usize>; 65];

/// Which times are left, one bit each.
type Enables = [bool; 65];

/// The times of a module's operations, on a core.
#[derive(Clone, Copy)]
struct Timing<'a> {
    ops: &'a [Op],
    times: &'a [u8],
    shape: Shape,
    last: usize,
}

fn latency(shape: Shape, kind: &Kind) -> usize {
    match kind {
        Kind::RdMem => usize::from(shape.mem).saturating_sub(usize::from(shape.ex)),
        _ => 0,
    }
}

/// The token at a time.
fn token_at<'a>(places: &Places, tokens: &'a [Token], time: usize) -> Option<&'a Token> {
    let place = (*places.get(time)?)?;
    tokens.get(place)
}

/// Enables that look random: a time is left with three chances of four, but none is left for a time
/// at which a token stays.
fn enables(places: &Places, rd: usize, last: usize, seed: u64) -> Enables {
    let mut all = [false; 65];
    let mut seed = seed;
    let mut stays = false;
    for ahead in 0..TIMES {
        let time = (TIMES - 1) - ahead;
        seed = next(seed);
        let goes = seed >> 62 != 0 && !stays;
        if rd <= time && time <= last {
            all[time] = goes;
            stays = !goes && places[time].is_some();
        }
    }
    all
}

/// The places behind a cycle: a token that leaves the last time is gone.
fn moved(places: &Places, enables: &Enables, rd: usize, last: usize) -> Places {
    let mut all = [None; 65];
    for time in 0..TIMES {
        if rd <= time && time <= last {
            if !enables[time] && places[time].is_some() {
                all[time] = places[time];
            } else if enables[time] && time < last && places[time].is_some() && time + 1 < TIMES {
                all[time + 1] = places[time];
            }
        }
    }
    all
}

/// Puts the enables of the times before the last one.
fn put_enables(inputs: &mut Vec<Bits>, timing: Timing<'_>, enables: &Enables) -> Result<(), Why> {
    for time in 0..TIMES {
        if usize::from(timing.shape.rd) <= time && time < timing.last {
            let raw = u128::from(enables[time]);
            if inputs.push(Bits { raw, width: 1 }).is_err() {
                return Err(Why::Memory);
            }
        }
    }
    Ok(())
}

/// Puts what each read gives the token that stands where its result is there.
fn put_reads(
    inputs: &mut Vec<Bits>,
    timing: Timing<'_>,
    places: &Places,
    tokens: &[Token],
    seed: u64,
) -> Result<(), Why> {
    let mut seed = seed;
    for (op, time) in timing.ops.iter().zip(timing.times) {
        seed = next(seed);
        let random = (u128::from(seed) << 64) | u128::from(next(seed));
        let there = usize::from(*time).wrapping_add(latency(timing.shape, &op.kind));
        if let Some(bits) = input_of(op, token_at(places, tokens, there), random)
            && inputs.push(bits).is_err()
        {
            return Err(Why::Memory);
        }
    }
    Ok(())
}

/// Whether the outputs of an operation, of which the first has this number, show what is required
/// of a token.
fn shows(sim: &Sim<'_>, net: &Net, op: &Op, first: usize, token: &Token) -> bool
    requires { sim.now.net ≡ net.now }
{
    let due = due_at(&op.kind, &token.effect);
    for place in 0..3usize {
        let number = first.wrapping_add(place);
        if let Some(value) = due[place]
            && number < net.outputs.len()
            && let Ok(number) = u32::try_from(number)
            && sim.output(number).raw != value
        {
            return false;
        }
    }
    true
}

/// Whether all outputs show what is required of the tokens that stand at their operations' times.
fn all_show(timing: Timing<'_>, sim: &Sim<'_>, net: &Net, places: &Places, tokens: &[Token]) -> bool
    requires { sim.now.net ≡ net.now }
{
    let mut number = 0usize;
    for (op, time) in timing.ops.iter().zip(timing.times) {
        if let Some(token) = token_at(places, tokens, usize::from(*time))
            && !shows(sim, net, op, number, token)
        {
            return false;
        }
        number = number.wrapping_add(count(&op.kind));
    }
    number == net.outputs.len()
}

/// One cycle: the places behind it; an error where an output is another than due, or the ports are
/// others.
fn cycle(
    alloc: Global,
    timing: Timing<'_>,
    sim: &mut Sim<'_>,
    net: &Net,
    places: &Places,
    tokens: &[Token],
    seed: u64,
) -> Result<Places, Why>
    requires { sim.old.net ≡ net.now }
    ensures { sim.new.net ≡ sim.old.net }
{
    let rd = usize::from(timing.shape.rd);
    let enables = enables(places, rd, timing.last, seed);
    let mut inputs = Vec::new(alloc);
    if put_enables(&mut inputs, timing, &enables).is_err()
        || put_reads(&mut inputs, timing, places, tokens, seed).is_err()
    {
        return Err(Why::Memory);
    }
    if !sim.accepts(&inputs) {
        return Err(Why::OtherPorts);
    }
    sim.settle(&inputs);
    let right = all_show(timing, sim, net, places, tokens);
    sim.clock();
    if right {
        Ok(moved(places, &enables, rd, timing.last))
    } else {
        Err(Why::OtherValue)
    }
}

/// The next token comes in where there is room, with three chances of four.
fn entered(
    places: &Places,
    rd: usize,
    following: usize,
    count: usize,
    seed: u64,
) -> (Places, usize) {
    let mut places = *places;
    if rd < TIMES && places[rd].is_none() && following < count && next(seed) >> 62 != 0 {
        places[rd] = Some(following);
        return (places, following + 1);
    }
    (places, following)
}

fn is_empty(places: &Places) -> bool {
    places.iter().all(|place| place.is_none())
}

fn last_of(times: &[u8], rd: u8) -> usize {
    let mut last = rd;
    for time in times {
        last = last.max(*time);
    }
    usize::from(last)
}

/// The count of tokens that went through a module, all with the required outputs.
pub fn served(
    alloc: Global,
    made: &Module,
    shape: Shape,
    tokens: &[Token],
    seed: u64,
) -> Result<usize, Why>
    requires { IsValid made.now.net }
{
    let Ok(mut sim) = prepare(alloc, &made.net) else {
        return Err(Why::Memory);
    };
    let timing = Timing {
        ops: made.graph.ops.as_slice(),
        times: made.times.as_slice(),
        shape,
        last: last_of(made.times.as_slice(), shape.rd),
    };
    let mut places: Places = [None; 65];
    let mut following = 0usize;
    let mut seed = seed;
    for _ in 0..MOST_CYCLES {
        seed = next(seed);
        let (now, behind) = entered(
            &places,
            usize::from(shape.rd),
            following,
            tokens.len(),
            seed,
        );
        following = behind;
        places = cycle(alloc, timing, &mut sim, &made.net, &now, tokens, seed)?;
        if following == tokens.len() && is_empty(&places) {
            return Ok(following);
        }
    }
    Err(Why::Stuck)
}

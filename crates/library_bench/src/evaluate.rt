ghost use Rattle.std.specs.Prelude.{◌≡◌, MatchOption};
ghost use Rattle.ix_extension.specs.Extensions.{view_extension};
ghost use Rattle.ix_extension.specs.WellFormed.{IsWellFormed};
ghost use Rattle.ix_eval.specs.Scratches.{IsScratchOf};

use crate::hand::{dot_product, square_root};
use effect_cases::{has_behaviour, values};
use ix_behaviour::Which;
use ix_bits::Bits;
use ix_elab::elaborate;
use ix_eval::{Inputs, Scratch, eval};
use ix_tree::Extension;
use std::alloc::Global;
use std::io;
use std::rt::Clock;
use std::time::{Duration, Instant};

/// Past the greatest count of bytes that a text may have.
const TOO_MANY: usize = 0x10_0000;

/// The next number of a sequence without an order.
fn next(number: u32) -> u32 {
    number.wrapping_mul(1664525).wrapping_add(1013904223)
}

/// An extension of one instruction and no register.
fn extension(alloc: Global, text: &[u8]) -> Option<Extension>
    ensures { MatchOption result (Unit {0}) (λ ext. IsWellFormed ext) }
{
    if text.len() >= TOO_MANY {
        return None;
    }
    match elaborate(alloc, text) {
        Ok(extension) => Some(extension),
        Err(_) => None,
    }
}

/// A state with these registers.
fn state(custom: [Bits; 16]) -> Inputs
    ensures { result.custom ≡ custom }
{
    Inputs {
        word: 0x0020_818b,
        rs1: 0,
        rs2: 0,
        pc: 0,
        custom,
    }
}

/// Gives a state other operands.
fn set_operands(inputs: &mut Inputs, rs1: u32)
    ensures { inputs.new.custom ≡ inputs.old.custom }
{
    inputs.rs1 = rs1;
    inputs.rs2 = rs1.rotate_left(7);
}

/// The sum of what the first instruction writes to rd.
fn evaluated(ext: &Extension, scratch: &mut Scratch, count: u32) -> u32
    requires well_formed { IsWellFormed ext.now }
    requires scratch { IsScratchOf (view_extension ext.now) scratch.old }
{
    let which = Which::Instruction(0);
    if !has_behaviour(ext, which) {
        return 0;
    }
    let mut inputs = state(values(ext.registers.as_slice(), &[0; 16]));
    let mut sum = 0u32;
    let mut rs1 = 1u32;
    for _ in 0..count {
        rs1 = next(rs1);
        set_operands(&mut inputs, rs1);
        let effect = eval(ext, which, &inputs, |_at, _bytes| 0, scratch);
        sum = sum.wrapping_add(effect.rd.unwrap_or(0));
    }
    sum
}

/// The sum of square roots.
fn square_roots(count: u32) -> u32 {
    let mut sum = 0u32;
    let mut rs1 = 1u32;
    let mut inputs = state(values(&[], &[0; 16]));
    for _ in 0..count {
        rs1 = next(rs1);
        set_operands(&mut inputs, rs1);
        let effect = square_root(&inputs);
        sum = sum.wrapping_add(effect.rd.unwrap_or(0));
    }
    sum
}

/// The sum of dot products.
fn dot_products(count: u32) -> u32 {
    let mut sum = 0u32;
    let mut rs1 = 1u32;
    let mut inputs = state(values(&[], &[0; 16]));
    for _ in 0..count {
        rs1 = next(rs1);
        set_operands(&mut inputs, rs1);
        let effect = dot_product(&inputs);
        sum = sum.wrapping_add(effect.rd.unwrap_or(0));
    }
    sum
}

/// What is written by hand.
#[derive(Clone, Copy)]
enum Peer {
    SquareRoot,
    DotProduct,
}

/// The sum of what the peer writes to rd.
fn summed(peer: Peer, count: u32) -> u32 {
    match peer {
        Peer::SquareRoot => square_roots(count),
        Peer::DotProduct => dot_products(count),
    }
}

/// The nanoseconds of one of so many.
fn each(time: Duration, count: u32) -> u128 {
    time.as_nanos() / u128::from(count.max(1))
}

/// Prints the sums of what the first behaviour of a text and the same written by hand write to
/// rd, and, where it is timed, the nanoseconds of one evaluation of both.
fn measure<R: Clock + Print>(
    rt: &R,
    alloc: Global,
    text: &[u8],
    peer: Peer,
    count: u32,
    timed: bool,
) -> io::Result<()> {
    let Some(ext) = extension(alloc, text) else {
        return println!(rt; "no extension");
    };
    let Ok(mut scratch) = Scratch::new(alloc, &ext) else {
        return println!(rt; "no memory");
    };
    let start = Instant::now(rt)?;
    let sum = evaluated(&ext, &mut scratch, count);
    let first = start.elapsed(rt)?;
    let start = Instant::now(rt)?;
    let by_hand = summed(peer, count);
    let second = start.elapsed(rt)?;
    println!(rt; "{sum} evaluated, {by_hand} by hand")?;
    if !timed {
        return Ok(());
    }
    let first = each(first, count);
    let second = each(second, count);
    println!(rt; "{first} ns evaluated, {second} ns by hand")
}

/// Computes the effects of a square root and of a dot product so many times, each beside the same
/// behaviour written by hand on numbers of 128 bits, and prints a line of the sums of what both
/// write to rd. Where it is timed, a line of the nanoseconds of one evaluation of both stands
/// behind each.
pub(crate) fn run<R: Clock + Print>(
    rt: &R,
    alloc: Global,
    root: &[u8],
    product: &[u8],
    count: u32,
    timed: bool,
) -> io::Result<()> {
    measure(rt, alloc, root, Peer::SquareRoot, count, timed)?;
    measure(rt, alloc, product, Peer::DotProduct, count, timed)
}

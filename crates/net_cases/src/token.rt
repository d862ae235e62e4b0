ghost use Rattle.std.specs.Prelude.{◌≡◌, ◌≤◌, IfOk};
ghost use Rattle.ix_extension.specs.Extensions.{view_extension};
ghost use Rattle.ix_extension.specs.WellFormed.{IsWellFormed};
ghost use Rattle.ix_behaviour.specs.Behaviours.{HasBehaviour};
ghost use Rattle.ix_eval.specs.Scratches.{IsScratchOf};

use crate::module::Why;
use effect_cases::values;
use ix_behaviour::Which;
use ix_eval::{Effect, Inputs, Scratch, eval};
use ix_tree::Extension;
use std::alloc::Global;

/// What a token of a behaviour is given, the bytes that its load finds, and what it does.
#[derive(Clone, Copy)]
pub struct Token {
    pub given: Inputs,
    pub loaded: u32,
    pub effect: Effect,
}

/// The next number of a row that looks random (Knuth's MMIX).
pub fn next(seed: u64) -> u64 {
    seed.wrapping_mul(6_364_136_223_846_793_005)
        .wrapping_add(1_442_695_040_888_963_407)
}

/// A number of 32 bits: often one at an end of the range, or a small one.
fn word(seed: u64) -> u32 {
    let drawn = (next(seed) >> 32) as u32;
    match seed >> 61 {
        0 => 0,
        1 => u32::MAX,
        2 => 0x8000_0000,
        3 => drawn & 0xff,
        _ => drawn,
    }
}

/// The bytes of memory from an address on.
fn memory(at: u32, seed: u64) -> u32 {
    word(next(next(u64::from(at) ^ seed)))
}

/// A pattern of 128 bits for each custom register.
fn patterns(seed: u64) -> [u128; 16] {
    let mut all = [0u128; 16];
    let mut seed = seed;
    for number in 0..16usize {
        let low = next(seed);
        let high = next(low);
        all[number] = if high >> 62 == 0 {
            u128::from(word(low))
        } else {
            (u128::from(word(high)) << 96) | (u128::from(low) << 32) | u128::from(word(low))
        };
        seed = next(high);
    }
    all
}

/// A token with inputs that look random.
fn drawn_token(ext: &Extension, which: Which, seed: u64, scratch: &mut Scratch) -> Token
    requires well_formed { IsWellFormed ext.now }
    requires in_range { HasBehaviour (view_extension ext.now) which }
    requires scratch { IsScratchOf (view_extension ext.now) scratch.old }
    ensures { IsScratchOf (view_extension ext.now) scratch.new }
{
    let (first, second) = (next(seed), next(next(seed)));
    let third = next(second);
    let given = Inputs {
        word: (third >> 32) as u32,
        rs1: word(first),
        rs2: if third & 7 == 0 {
            word(first)
        } else {
            word(second)
        },
        pc: word(third) & 0xffff_fffc,
        custom: values(ext.registers.as_slice(), &patterns(next(third))),
    };
    let effect = eval(ext, which, &given, |at, _count| memory(at, seed), scratch);
    let loaded = match effect.load {
        Some(access) => memory(access.at, seed),
        None => 0,
    };
    Token {
        given,
        loaded,
        effect,
    }
}

/// So many tokens of a behaviour.
pub fn tokens(
    alloc: Global,
    ext: &Extension,
    which: Which,
    count: u32,
    seed: u64,
) -> Result<Vec<Token>, Why>
    requires well_formed { IsWellFormed ext.now }
    requires in_range { HasBehaviour (view_extension ext.now) which }
{
    let mut scratch = Scratch::new(alloc, ext)?;
    let mut all = Vec::new(alloc);
    let mut seed = next(seed);
    for _ in 0..count {
        seed = next(seed ^ 0x5bd1_e995);
        let made = drawn_token(ext, which, seed, &mut scratch);
        if all.push(made).is_err() {
            return Err(Why::Memory);
        }
    }
    Ok(all)
}

ghost use Rattle.ix_extension.specs.Extensions.{view_extension};
ghost use Rattle.ix_extension.specs.WellFormed.{IsWellFormed};
ghost use Rattle.ix_behaviour.specs.Behaviours.{HasBehaviour};

use crate::done::Done;
use crate::given::{Given, Why, given_in};
use effect_cases::{Case, values};
use ix_bits::Bits;
use ix_eval::{Effect, Inputs, Scratch, eval};
use ix_tree::Extension;
use std::alloc::Global;

fn of_word(word: Option<u32>) -> Option<u128> {
    match word {
        Some(word) => Some(u128::from(word)),
        None => None,
    }
}

fn of_custom(written: &[Option<Bits>; 16]) -> [Option<u128>; 16] {
    let mut all = [None; 16];
    for number in 0..16usize {
        if let Some(bits) = written[number] {
            all[number] = Some(bits.raw);
        }
    }
    all
}

fn done_by(effect: &Effect) -> Done {
    Done {
        rd: of_word(effect.rd),
        pc: of_word(effect.pc),
        custom: of_custom(&effect.custom),
        load: match effect.load {
            Some(load) => Some((u128::from(load.at), load.bytes)),
            None => None,
        },
        store: match effect.store {
            Some((store, value)) => Some((u128::from(store.at), store.bytes, u128::from(value))),
            None => None,
        },
    }
}

// What a behaviour of an extension does in a case, as the evaluator says.
fn effect_of(alloc: Global, extension: &Extension, case: &Case) -> Result<Effect, Why>
    requires well_formed { IsWellFormed extension.now }
    requires in_range { HasBehaviour (view_extension extension.now) case.now.which }
{
    let mut scratch = Scratch::new(alloc, extension)?;
    let inputs = Inputs {
        word: case.word,
        rs1: case.rs1,
        rs2: case.rs2,
        pc: case.pc,
        custom: values(extension.registers.as_slice(), &case.custom),
    };
    let from = case.at;
    let bytes = case.bytes;
    Ok(eval(
        extension,
        case.which,
        &inputs,
        |at, _count| if at == from { bytes } else { 0 },
        &mut scratch,
    ))
}

/// What a behaviour does in a case, as the evaluator says.
pub fn done_in(alloc: Global, case: &[u8]) -> Result<Done, Why> {
    let Given { extension, case } = given_in(alloc, case)?;
    let effect = effect_of(alloc, &extension, &case)?;
    Ok(done_by(&effect))
}

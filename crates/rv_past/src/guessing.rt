ghost use Rattle.std.specs.Prelude.{◌≡◌};
ghost use Rattle.ix_extension.specs.Extensions.{view_extension};
ghost use Rattle.ix_extension.specs.WellFormed.{IsWellFormed};
ghost use Rattle.ix_eval.specs.Scratches.{IsScratchOf};
ghost use Rattle.rv_seq.specs.WordEffects.{AreWide};
ghost use Rattle.rv_core.specs.Guesses.{guess_of};
ghost use Rattle.rv_lawful.specs.Settings.{jump_with};

use ix_bits::Bits;
use ix_eval::{Inputs, Scratch};
use ix_tree::Extension;
use rv_core::{Blocks, Plain, Predictor, Shape};
use rv_memory::RandomAccess;
use rv_seq::blocks_effect;
use rv_trace::Cell;

// Where the always-blocks jump to from a cell with this future file, if they jump.
fn jump_from(
    ext: &Extension,
    file: &[Bits; 16],
    memory: &RandomAccess,
    cell: &Cell,
    scratch: &mut Scratch,
) -> Option<u32>
    requires well_formed { IsWellFormed ext.now }
    requires wide { AreWide (view_extension ext.now) file.now }
    requires scratch { IsScratchOf (view_extension ext.now) scratch.old }
    ensures scratch { IsScratchOf (view_extension ext.now) scratch.new }
    ensures jump { result ≡ jump_with (view_extension ext.now) file.now memory.now cell.now.at cell.now.word }
{
    let inputs = Inputs {
        word: cell.word,
        rs1: 0,
        rs2: 0,
        pc: cell.at,
        custom: *file,
    };
    blocks_effect(ext, &inputs, memory, scratch).pc
}

/// The guess of the address behind a cell of stage 0.
pub fn guess_behind(
    ext: &Extension,
    shape: Shape,
    file: &[Bits; 16],
    memory: &RandomAccess,
    cell: &Cell,
    scratch: &mut Scratch,
) -> u32
    requires well_formed { IsWellFormed ext.now }
    requires wide { AreWide (view_extension ext.now) file.now }
    requires scratch { IsScratchOf (view_extension ext.now) scratch.old }
    ensures scratch { IsScratchOf (view_extension ext.now) scratch.new }
    ensures guess { result ≡ guess_of shape.predict (jump_with (view_extension ext.now) file.now memory.now cell.now.at cell.now.word) cell.now.at }
{
    if shape.predict {
        Blocks::guess(jump_from(ext, file, memory, cell, scratch), cell.at)
    } else {
        Plain::guess(None, cell.at)
    }
}

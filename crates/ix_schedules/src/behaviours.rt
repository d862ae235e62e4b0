ghost use Rattle.std.specs.Prelude.{◌≡◌, ◌≤◌, ◌++◌, length, map, IfOk, OnOk};
ghost use Rattle.std.specs.List.{range_with_len};
ghost use Rattle.ix_extension.specs.Extensions.{view_extension};
ghost use Rattle.ix_behaviour.specs.declared.which.Which.TheVariants as W;
ghost use Rattle.ix_behaviour.specs.Behaviours.{HasBehaviour};
ghost use Rattle.ix_schedules.specs.Scheduling.{behaviours_of, name_at, is_block as specified_is_block};

use ix_behaviour::Which;
use ix_bits::{List, Memory};
use ix_tree::Extension;
use std::alloc::Global;

// Puts the instructions below a count.
fn put_instructions(out: &mut Vec<Which>, count: u8) -> Result<(), Memory>
    ensures { OnOk result (out.new.items ≡ out.old.items ++ map (λ n. W.Instruction n) (range_with_len 0 count)) }
{
    for number in 0..count {
        if out.push(Which::Instruction(number)).is_err() {
            return Err(Memory);
        }
    }
    Ok(())
}

// Puts the always-blocks below a count.
fn put_blocks(out: &mut Vec<Which>, count: u8) -> Result<(), Memory>
    ensures { OnOk result (out.new.items ≡ out.old.items ++ map (λ n. W.Block n) (range_with_len 0 count)) }
{
    for number in 0..count {
        if out.push(Which::Block(number)).is_err() {
            return Err(Memory);
        }
    }
    Ok(())
}

/// The behaviours of an extension: the instructions, then the always-blocks, in the order of the source.
pub fn behaviours_in(alloc: Global, ext: &Extension) -> Result<List<Which>, Memory>
    requires instructions { length ext.now.instructions ≤ 64 }
    requires blocks { length ext.now.blocks ≤ 8 }
    ensures { IfOk result (λ list. list ≡ behaviours_of (view_extension ext.now)) }
{
    let mut out = Vec::new(alloc);
    put_instructions(&mut out, ext.instructions.len() as u8)?;
    put_blocks(&mut out, ext.blocks.len() as u8)?;
    Ok(List::from_vec(out))
}

/// The name of a behaviour.
pub fn name_of(ext: &Extension, which: Which) -> &str
    requires { HasBehaviour (view_extension ext.now) which }
    ensures value { result.now ≡ name_at (view_extension ext.now) which }
    ensures short { length result.now ≤ 80 }
{
    match which {
        Which::Instruction(number) => {
            ext.instructions.as_slice()[number as usize]
                .behaviour
                .name
                .as_str()
        }
        Which::Block(number) => ext.blocks.as_slice()[number as usize].name.as_str(),
    }
}

/// Whether a behaviour is an always-block.
pub fn is_block(which: Which) -> bool
    ensures { result ≡ specified_is_block which }
{
    matches!(which, Which::Block(_))
}

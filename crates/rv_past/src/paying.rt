ghost use Rattle.std.specs.Prelude.{◌≡◌};
ghost use Rattle.ix_extension.specs.Extensions.{view_extension};
ghost use Rattle.ix_extension.specs.WellFormed.{IsWellFormed};
ghost use Rattle.rv_seq.specs.Commits.{IsStoredInside};
ghost use Rattle.rv_tried.specs.Parts.{paid};
ghost use Rattle.rv_lawful.specs.Outstanding.{after_written};
ghost use Rattle.rv_past.specs.Making.{IsStored};
ghost use Rattle.rv_past.specs.Past.{retired_one, retired_by};

use crate::due::Due;
use crate::step::Step;
use ix_bits::Bits;
use ix_tree::Extension;
use rv_asks::Asks;
use rv_seq::{Arch, Commit, Slot, is_return, put_customs, put_x, resume};
use rv_tried::apply_native;

// Makes what is written at retirement of this record, of which these are the step and what is asked of its instruction.
#[tactic(auto, unfolding(rv_tried::specs::Parts::native))]
fn retire_one(ext: &Extension, step: &Step, asks: &Asks, commit: &Commit, arch: &mut Arch)
    requires well_formed { IsWellFormed ext.now }
    requires stored { IsStoredInside commit.now.store }
    ensures { arch.new ≡ retired_one (view_extension ext.now) (record { step = step.now; asks = asks.now }) commit.now arch.old }
{
    apply_native(arch, asks, &step.blocks, commit);
    if is_return(ext, commit.word) {
        resume(arch);
    }
}

/// Makes what is written at retirement, where this is the step of what retires and this is asked of its instruction: its writes but those that a unit makes later, its store and its pc,
/// and where it is the return of a handler, what that restores. Nothing happens where nothing retires. The extension is that of the run, and `retired` is the serial and the record. It
/// takes no memory and has no errors.
pub fn retire_step(
    ext: &Extension,
    step: &Step,
    asks: &Asks,
    retired: &Option<(u32, Commit)>,
    arch: &mut Arch,
)
    requires well_formed { IsWellFormed ext.now }
    requires stored { IsStored retired.now }
    ensures { arch.new ≡ retired_by (view_extension ext.now) (record { step = step.now; asks = asks.now }) retired.now arch.old }
{
    if let Some(fields) = retired {
        retire_one(ext, step, asks, &fields.1, arch);
    }
}

/// The same of a step with what is asked of its instruction.
pub fn retire(ext: &Extension, due: &Due, retired: &Option<(u32, Commit)>, arch: &mut Arch)
    requires well_formed { IsWellFormed ext.now }
    requires stored { IsStored retired.now }
    ensures { arch.new ≡ retired_by (view_extension ext.now) due.now retired.now arch.old }
{
    retire_step(ext, &due.step, &due.asks, retired, arch);
}

/// Makes what a unit writes in a row, if one does: of the serial, the number of an x register, its
/// value, and the values of the custom registers by number. A slot that has no value now writes
/// nothing, nor does an x register past the last. It takes no memory and has no errors.
#[tactic(auto, unfolding(rv_tried::specs::Parts::paid))]
pub fn pay_written(written: &Option<(u32, u8, Slot<u32>, [Slot<Bits>; 16])>, arch: &mut Arch)
    ensures { arch.new ≡ after_written written.now arch.old }
{
    if let Some(fields) = written {
        put_x(&mut arch.x, fields.1, fields.2);
        put_customs(&mut arch.custom, &fields.3);
    }
}

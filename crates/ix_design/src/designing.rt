ghost use Rattle.std.specs.Prelude.{◌≡◌, IfOk, IfErr};
ghost use Rattle.ix_extension.specs.Extensions.{view_extension};
ghost use Rattle.ix_extension.specs.WellFormed.{IsWellFormed};
ghost use Rattle.ix_sheet.specs.Sheets.{IsValidSheet};
ghost use Rattle.ix_standing.specs.Standing.{behaviours_of, Stands};
ghost use Rattle.ix_schedules.specs.Scheduling.{AreNamed, IsFirstRefused};
ghost use Rattle.ix_schedules.specs.declared.scheduling.ScheduleErr.{ScheduleErr as refusal_type};
ghost use Rattle.ix_design.specs.Answers.{IsAnswerTo};

use crate::building::build;
use ix_plan::Design;
use ix_schedules::ScheduleErr;
use ix_sheet::Sheet;
use ix_tree::Extension;
use std::alloc::Global;

/// The design that stands for an extension and the core of a datasheet. `TooManyOps` and `NoSchedule` are answered for the first behaviour, the instructions
/// before the always-blocks, that has more than 256 operations, or no legal schedule in the widest windows that it may have; its graph is made before its
/// schedule, and both before the next behaviour.
pub fn design(alloc: Global, extension: Extension, sheet: Sheet) -> Result<Design, ScheduleErr>
    requires well_formed { IsWellFormed extension }
    requires named { AreNamed (view_extension extension) }
    requires sheet { IsValidSheet sheet }
    ensures stands { IfOk result Stands }
    ensures extension { IfOk result (λ d. d.extension ≡ extension) }
    ensures sheet { IfOk result (λ d. d.sheet ≡ sheet) }
    ensures refused { IfErr result (IsFirstRefused (view_extension extension) sheet (behaviours_of (view_extension extension))) }
    // Where a behaviour is refused first, that is the answer, or want of memory.
    ensures exact { (e : refusal_type) → IsFirstRefused (view_extension extension) sheet (behaviours_of (view_extension extension)) e → IsAnswerTo e result }
{
    match build(alloc, &extension, &sheet) {
        Ok(built) => Ok(Design {
            extension,
            sheet,
            plans: built.plans,
            nets: built.nets,
        }),
        Err(error) => Err(error),
    }
}

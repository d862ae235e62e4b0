ghost use Rattle.ix_plan.specs.declared.design.Design.{Design};
ghost use Rattle.ix_standing.specs.Standing.{Stands};
ghost use Rattle.rv_lawful.specs.Sight.{EarlyLaw, ExactLaw, JumpLaw, KeepsLaw, TailLaw, TimeLaw};
ghost use Rattle.rv_sight.specs.InUnits.{AreInUnits};
ghost use Rattle.rv_sight.specs.Written.{WrittenLaw};

use ix_behaviour::behaviour_laws;
use ix_depends::depend_laws;
use rv_unit::unit_laws;

/// On the core of a design that stands for its extension a word that is tried with what agrees with a state where it is asked comes to the step of
/// that state: wholly with the memory of the state, and by EX but for rd and late and spawned writes; its own body writes the same to its x register
/// where the time of that write is below MEM, which is never before EX; what is not asked for is kept, and no x register but one that is asked for is
/// written. Always-blocks jump to the same address whatever the memory holds. No module goes on for long. The units of the design can be, and an
/// instruction whose `spawn` body writes a register has one of them and touches that register; an instruction with a unit writes one so. It does
/// nothing: its contract is what it is for.
pub fn sight_laws()
    ensures early { (d : Design) → Stands d → EarlyLaw d }
    ensures exact { (d : Design) → Stands d → ExactLaw d }
    ensures keeps { (d : Design) → Stands d → KeepsLaw d }
    ensures written { (d : Design) → Stands d → WrittenLaw d }
    ensures tails { (d : Design) → Stands d → TailLaw d }
    ensures times { (d : Design) → Stands d → TimeLaw d }
    ensures jumps { (d : Design) → Stands d → JumpLaw d }
    ensures units { (d : Design) → Stands d → AreInUnits d }
{
    behaviour_laws();
    depend_laws();
    unit_laws();
}

ghost use Rattle.rv_hart_runs.specs.HartRuns.{FewLaw, KnownLaw, PrefixesLaw, StatesLaw};

use rv_sight::sight_laws;
use rv_tried::trial_laws;

/// What is known of each hart of a design that stands; what it retires is a prefix of the run of its
/// image; its state with the outstanding writes applied is that of the run; and no more targets are
/// outstanding than there are registers. It does nothing: its contract is what it is for.
pub fn hart_runs()
    ensures known { KnownLaw }
    ensures prefix { PrefixesLaw }
    ensures state { StatesLaw }
    ensures few { FewLaw }
{
    sight_laws();
    trial_laws();
}

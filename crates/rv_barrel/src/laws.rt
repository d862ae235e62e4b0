ghost use Rattle.rv_barrel.specs.Barrels.{BarrelLaw};

use rv_hart_runs::hart_runs;

/// What each hart of a design that turns retires is a prefix of the run of its image of words, and its state with the outstanding writes applied is that of the run. It does nothing:
/// its contract is what it is for.
pub fn barrel_laws()
    ensures { BarrelLaw }
{
    hart_runs();
}

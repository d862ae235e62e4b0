ghost use Rattle.ix_vread.specs.Laws.{DenotedIsNotRefused};

use ix_vnets::nets_laws;

/// A law of the refusals. It does nothing: its contract is what it is for.
pub fn read_laws()
    ensures { DenotedIsNotRefused }
{
    nets_laws();
}

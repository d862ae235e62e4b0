ghost use Rattle.rv_seq.specs.Accesses.{AccessLaw};

use ix_eval::load_law;

/// The access of a step of an instruction of the extension is what its behaviour reads or stores by its names. It does
/// nothing: its contract is what it is for.
pub fn access_law()
    ensures { AccessLaw }
{
    load_law();
}

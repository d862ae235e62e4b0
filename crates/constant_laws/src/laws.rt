ghost use Rattle.constant_laws.specs.Constants.{ConstantsLaw};

use ix_typed::form_laws;
use ix_typing::typing_laws;

/// Each initial value and each entry of a table of a text that is read has a value, so that none counts as 0 for the want
/// of one. It does nothing: its contract is what it is for.
pub fn constant_laws()
    ensures { ConstantsLaw }
{
    form_laws();
    typing_laws();
}

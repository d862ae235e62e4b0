ghost use Rattle.ix_modules.specs.Modules.{ModulesLaw, ApartLaw};

use ix_typed::form_laws;

/// An extension has no text of modules on the core of a datasheet where a behaviour is refused; and the behaviours of a well-formed extension have names
/// that differ. It does nothing: its contract is what it is for.
pub fn modules_laws()
    ensures modules { ModulesLaw }
    ensures apart { ApartLaw }
{
    form_laws();
}

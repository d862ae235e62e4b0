ghost use Rattle.rv_watch.specs.Fit.{FitLaw};

use rv_sight::sight_laws;

/// The setting of a design that stands is fit for the judges of rows. It does nothing: its contract
/// is what it is for.
pub fn settings_fit()
    ensures { FitLaw }
{
    sight_laws();
}

ghost use Rattle.rv_past.specs.Past.{SoundSteps};

use rv_tried::trial_laws;

/// Each step of a run is sound. It does nothing: its contract is what it is for.
pub fn sound_steps()
    ensures { SoundSteps }
{
    trial_laws();
}

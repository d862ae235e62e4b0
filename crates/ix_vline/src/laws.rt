ghost use Rattle.ix_vline.specs.Laws.{LinesFit, FittingStands, StartedGoesOn};

/// Laws of kinds and slots. It does nothing: its contract is what it is for.
pub fn line_laws()
    ensures lines { LinesFit }
    ensures fitting { FittingStands }
    ensures started { StartedGoesOn }
{}

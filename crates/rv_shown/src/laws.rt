ghost use Rattle.rv_shown.specs.Shown.{TextLaw};

/// The lines of a row are those of what they show. It does nothing: its contract is what it is
/// for.
pub fn texts_shown()
    ensures { TextLaw }
{}

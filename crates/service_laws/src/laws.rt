ghost use Rattle.service_laws.specs.InnerEnable.{InnerEnableLaw};

/// A net that would move its own tokens, by a cell inside that has the name of an enable, serves no behaviour. It does nothing: its
/// contract is what it is for.
pub fn inner_enables()
    ensures { InnerEnableLaw }
{}

ghost use Rattle.rv_asm.specs.Laws.{FieldsLaw, LineLaw, SizeLaw, ReachLaw};

/// The words of base lines decode to their instructions. It does nothing: its contract is what it is for.
pub fn base_lines_decode()
    ensures fields { FieldsLaw }
    ensures lines { LineLaw }
{}

/// A number of any length is read as if it were whole: a size past 2^40 counts as 2^40, which is outside each range.
pub fn numbers_are_whole()
    ensures size { SizeLaw }
    ensures reach { ReachLaw }
{}

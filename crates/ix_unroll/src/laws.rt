ghost use Rattle.ix_unroll.specs.Laws.{MarksLaw, TurnsLaw};

/// The values of a loop are those of its turns, and a loop is refused where its head breaks a rule or it has too many of them;
/// the marks by which loops are judged are as many as the statements of the result. It does nothing: its contract is what it is for.
pub fn loop_laws()
    ensures turns { TurnsLaw }
    ensures marks { MarksLaw }
{}

ghost use Rattle.rv_rows.specs.Facts.{RowFacts};

/// Cells of lawful rows stand where the run has them. It does nothing: its contract is what it
/// is for.
pub fn row_facts()
    ensures { RowFacts }
{}

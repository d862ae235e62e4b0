ghost use Rattle.rv_watch.specs.AuditLaws.{AuditLaw};

use crate::fit::settings_fit;
use crate::printing::printed_rows;
use rv_rows::kinds_are_lawful;
use rv_shown::texts_shown;

/// A text is that of a lawful run exactly where its rows are right in each respect, and its state
/// is that behind them. It does nothing: its contract is what it is for.
pub fn audit_laws()
    ensures { AuditLaw }
{
    settings_fit();
    kinds_are_lawful();
    printed_rows();
    texts_shown();
}

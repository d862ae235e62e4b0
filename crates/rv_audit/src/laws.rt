ghost use Rattle.rv_audit.specs.Alike.{AlikeLaw, OneAnswerLaw};

use ix_sheet::chosen_law;
use rv_watch::audit_laws;

/// Designs that stand for one extension and one datasheet judge traces by one setting, and no text
/// is that of a lawful run of one of them and refused for another. It does nothing: its contract is
/// what it is for.
pub fn answer_laws()
    ensures alike { AlikeLaw }
    ensures one { OneAnswerLaw }
{
    chosen_law();
    audit_laws();
}

ghost use Rattle.ix_cert.specs.Laws.{PrintedIsText, PrintedIsOne};

/// What `print_report` prints of a report in the range of the form is the text of that report and of no other, so that
/// `read_report` reads it as that report or wants memory. It does nothing: its contract is what it is for.
pub fn print_law()
    ensures text { PrintedIsText }
    ensures one { PrintedIsOne }
{}

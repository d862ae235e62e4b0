use ix_bits::{List, Name};
use ix_graph::Mode;
use ix_sheet::{Bound, Problem};

/// What a report says of the behaviours of an extension.
#[derive(Debug, Drop)]
pub struct Report {
    /// 1 or 2. The text of a report of version 1 has no weights, and each weight is 1; that of version 2 has them.
    pub version: u8,
    /// The longest delay within one time, 1 to 1,000,000.
    pub period: u32,
    /// The behaviours, in order.
    pub blocks: List<ReportBlock>,
}

/// What a report says of a behaviour: its problem, and a schedule with a dual flow, or a contradictory cycle.
#[derive(Debug, Drop)]
pub struct ReportBlock {
    pub name: Name,
    /// The mode, or `None` where there is no legal schedule.
    pub mode: Option<Mode>,
    /// The printed kind of each operation.
    pub kinds: List<Name>,
    /// The problem; its period is the report's.
    pub problem: Problem,
    /// The time of each operation; none without a mode.
    pub times: List<u8>,
    /// The cost of the schedule; 0 without a mode.
    pub cost: u64,
    /// Bounds with positive amounts; none without a mode.
    pub flow: List<(Bound, u64)>,
    /// The bounds of the contradictory cycle, in order; none with a mode.
    pub cycle: List<Bound>,
}

/// Why a text is no report, or its certificates show nothing: the first line that fails, numbered from 1.
#[derive(Clone, Copy, Debug, PartialEq, Eq)]
pub enum CertErr {
    /// The line has no form that may stand there, or is missing.
    Line { line: u32 },
    /// An edge that the times break, or a bound that is no edge.
    Dep { line: u32 },
    /// An operation outside its window.
    Window { line: u32 },
    /// An operation at which the delays within one time pass the period, or a bound along no path that does.
    Chain { line: u32 },
    /// An operation at which the flow is not in balance.
    Balance { line: u32 },
    /// A cost that is not the schedule's, or not the flow's value.
    Value { line: u32 },
    /// A cycle whose numbers do not sum to more than 0.
    NotPositive { line: u32 },
    /// A bound of a cycle that does not start where the one before ends.
    NotClosed { line: u32 },
    /// Memory was not found.
    Memory,
}

impl CertErr {
    ghost use Rattle.std.specs.Prelude.{◌≡◌};
    ghost use Rattle.ix_cert.specs.Words.{line_number, kind_word};

    /// The number of the line that fails, from 1; 0 where memory was not found.
    pub fn line(self) -> u32
        ensures { result ≡ line_number self }
    {
        match self {
            CertErr::Line { line }
            | CertErr::Dep { line }
            | CertErr::Window { line }
            | CertErr::Chain { line }
            | CertErr::Balance { line }
            | CertErr::Value { line }
            | CertErr::NotPositive { line }
            | CertErr::NotClosed { line } => line,
            CertErr::Memory => 0,
        }
    }

    /// The word for what fails.
    pub fn kind(self) -> &'static str
        ensures { result.now ≡ kind_word self }
    {
        match self {
            CertErr::Line { .. } => "Line",
            CertErr::Dep { .. } => "Dep",
            CertErr::Window { .. } => "Window",
            CertErr::Chain { .. } => "Chain",
            CertErr::Balance { .. } => "Balance",
            CertErr::Value { .. } => "Value",
            CertErr::NotPositive { .. } => "NotPositive",
            CertErr::NotClosed { .. } => "NotClosed",
            CertErr::Memory => "Memory",
        }
    }
}

impl From<ix_bits::Memory> for CertErr {
    ghost use Rattle.std.specs.Prelude.{◌≡◌};
    ghost use Rattle.ix_cert.specs.declared.report.CertErr.TheVariants.{Memory as memory};

    ghost from_gives = { λ _ e. e ≡ memory };

    fn from(_want: ix_bits::Memory) -> CertErr {
        CertErr::Memory
    }
}

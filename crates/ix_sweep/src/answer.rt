use ix_bits::List;
use ix_modes::Scheduled;
use ix_sheet::{Bound, Problem};

/// A behaviour's schedule with a period.
#[derive(Drop)]
pub struct Entry {
    /// In the unit of the datasheet's delays, 1 to 1,000,000.
    pub period: u32,
    /// The behaviour's mode with this period, its problem in this mode, the chosen schedule of that, its cost, and the flow that shows
    /// that none costs less.
    pub scheduled: Scheduled,
}

/// The least period of a behaviour, with what shows it from both sides.
#[derive(Drop)]
pub struct Least {
    /// The least of the periods from 1 to 1,000,000 with which the behaviour has a legal schedule in the widest windows that it may have,
    /// or None where it has none with any of them.
    pub period: Option<u32>,
    /// The schedules with this period, twice and four times as much, without those over 1,000,000. There is none without a least period.
    pub entries: List<Entry>,
    /// The problem in the widest windows with a period of one less, or of 1,000,000 where there is no least period, and bounds of it that
    /// contradict each other. None where the least period is 1.
    pub below: Option<(Problem, List<Bound>)>,
}

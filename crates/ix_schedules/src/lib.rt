//! The schedules of all behaviours of an extension on a core, and the text of their report.
#![tactic(auto)]

mod behaviours;
mod laws;
mod scheduling;
mod text;

pub use behaviours::{behaviours_in, is_block, name_of};
pub use laws::{answer_laws, name_law};
pub use scheduling::{ScheduleErr, refusal_by, schedule};
pub use text::{TextErr, refusal_text, report_alone, schedule_text, too_many_text};

//! Which texts are those of lawful runs, what is kept of the rows of a trace so far, and what is known
//! of the next row.
#![tactic(auto)]

mod against;
mod fit;
mod kept;
mod knowing;
mod laws;
mod placing;
mod printing;
mod seeing;
mod seen;
mod watch;

pub use against::Against;
pub use fit::settings_fit;
pub use kept::{Kept, keep};
pub use knowing::{known, ready};
pub use laws::audit_laws;
pub use placing::places;
pub use printing::printed_rows;
pub use seeing::{nothing_seen, see, spawns};
pub use seen::Seen;
pub use watch::Watch;

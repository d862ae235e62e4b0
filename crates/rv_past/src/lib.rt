//! The architectural state behind the rows so far, their future file, and the address that is
//! fetched where a row names none.
#![tactic(auto)]

mod due;
mod filing;
mod guessing;
mod laws;
mod making;
mod page;
mod past;
mod paying;
mod step;
mod steps;

pub use due::Due;
pub use laws::sound_steps;
pub use making::made;
pub use page::Page;
pub use past::Past;
pub use paying::{pay_written, retire, retire_step};
pub use step::{Step, step_of};
pub use steps::{Steps, one_more};

//! The tokens of a pipeline's stages: the holds that they show, and which of them a settled successor flushes.
#![tactic(auto)]

mod asked;
mod board;
mod deciding;
mod flushing;
mod forwarding;
mod token;

pub use asked::spawns_any;
pub use board::{does_spawn, does_touch};
pub use deciding::{decide, does_stop, is_last, waiting_hold};
pub use flushing::{
    Flushed, Turn, enters, fetch_following, flush, remains, stop_in, struck, turn_in,
};
pub use forwarding::operand_of;
pub use token::{Beside, Token, access_of, commit_of, stop_of};

//! What the parser keeps: places, open productions, the parts that are had, what ends them, and types.
#![tactic(auto)]

pub mod block;
pub mod chain;
pub mod frame;
pub mod look;
pub mod node;
pub mod operator;
pub mod part;
pub mod reader;
pub mod settle;
pub mod sign;
pub mod stack;
pub mod state;
pub mod stop;
pub mod types;

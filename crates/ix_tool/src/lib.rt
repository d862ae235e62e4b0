//! The tool: from the words of a command and the bytes of its files to the bytes that it writes.
#![tactic(auto)]

pub mod assembling;
mod auditing;
mod benching;
pub mod building;
mod plain;
mod running;
mod scheduling;
mod sweeping;
pub mod tool;
mod turning;

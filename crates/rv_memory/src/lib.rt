//! The memory of a core: 1,048,576 bytes at 80000000 (RISC-V Unprivileged ISA, Memory: little-endian).
#![tactic(auto)]

mod memory;
mod words;

pub use memory::{BASE, RandomAccess, SIZE, is_inside};

//! What each instruction of the base set does (RISC-V Unprivileged ISA, RV32I Base Integer Instruction Set).
#![tactic(auto)]

mod alu;
mod effect;
mod operation;

pub use alu::{compute, holds};
pub use effect::{address_of, load_of, loaded_word, result_of, store_of, target_of};
pub use operation::{Alu, Operation, Size, Test, bytes_of, operation_of};

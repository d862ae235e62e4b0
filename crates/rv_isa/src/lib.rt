//! The base instruction set RV32I as data: its 40 rows, and the words of each
//! (RISC-V Unprivileged ISA, RV32I Base Integer Instruction Set).
#![tactic(auto)]

mod base;
mod decoding;
mod encoding;
mod image;
mod law;
pub mod rows;
mod table;
mod word;

pub use base::Base;
pub use decoding::decode;
pub use encoding::encode;
pub use image::Image;
pub use law::{decoding_undoes_encoding, rows_are_apart, rows_are_numbered};
pub use table::{Format, base_format, base_pattern};

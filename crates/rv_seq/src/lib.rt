//! What a word does on a core with an extension (RISC-V Unprivileged ISA, RV32I, and the extension's
//! own instructions), and the sequential run: one instruction at a time, with no cycles in it.
#![tactic(auto)]

mod answer;
mod applying;
mod arch;
mod base_rows;
mod commit;
mod decoded;
mod decoding;
mod interrupts;
mod laws;
mod step;
mod stopping;
mod word_effect;

pub use answer::StepAnswer;
pub use applying::{apply, commit_of, put_custom, put_customs, put_store, put_x};
pub use arch::{Arch, TrapState};
pub use base_rows::{base_effect, peek};
pub use commit::{Commit, Slot, Stop};
pub use decoded::Decoded;
pub use decoding::{decode_in, rd_of, rs1_of, rs2_of};
pub use interrupts::{divert, is_return, resume, return_to};
pub use ix_eval::Access;
pub use laws::access_law;
pub use step::{return_effect, seq_step, word_at};
pub use stopping::{access_stop, stop_of};
pub use word_effect::{blocks_effect, effect_of, over};

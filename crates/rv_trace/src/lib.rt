//! Rows: what each stage of a pipeline holds in a clock cycle, the rows of a run, and their text. What the laws of rows are
//! made of stands in `specs`.
#![tactic(auto)]

mod row;
mod row_text;
mod trace;

pub use ix_plan::Target;
pub use row::{Cell, Hold, Row};
pub use row_text::{
    put_custom_writes, put_hold, put_number, put_registers, put_retired, put_row, put_small,
    put_stop, put_target, put_word, put_writes, put_x_write,
};
pub use rv_waits::Lines;
pub use trace::Trace;

//! The text of a value change dump (IEEE 1364-2005, section 18.2) of the ports of modules, which
//! goes to a sink through a buffer.
#![tactic(auto)]

mod head;
mod laws;
mod lines;
mod parts;
mod row;

pub use head::{count_ports, write_head};
pub use laws::{dumps_grow, hand_dump};
pub use lines::{put_port_line, put_row_line, put_scope_line, put_value_line};
pub use parts::{make_room, write_text};
pub use row::write_row;

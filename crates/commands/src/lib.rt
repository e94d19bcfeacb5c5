// The commands of the controller, over registers by value; table, data and transfer buffer are lent.
// Table and data buffer are two slices in each call (docs/DECISIONS.md, 115).
#![tactic(auto)]

mod command;

// For the crate above: a whole command, once its last byte has come, and a Format, once its last ID byte has.
pub use command::{finish_format, run_cmd};

// A byte sent to the data port, over registers by value; the held bytes of a write, table, data and transfer buffer are lent.
// Table and data buffer are two slices in each call (docs/DECISIONS.md, 115).
#![tactic(auto)]

mod write;

pub use write::write_cmd;

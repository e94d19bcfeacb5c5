// Laying a disk in a store: load, fresh format, and the parts of them that a format needs.
// Table and data buffer are two slices in each call (docs/DECISIONS.md, 115).
#![tactic(auto)]

mod lay;

pub use lay::{new, new_formatted};

// For the crate above only.
pub use lay::{capacity, lay_formatted};

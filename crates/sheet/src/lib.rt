// A sheet for every box: the controller, all but its disk, as bytes in the house form, and back. docs/SHEET.md describes them.
#![tactic(auto)]

mod reading;
mod writing;

pub use reading::{Places, read};
pub use writing::{LONGEST, write, write_parts};

// For the crate above only: it has a `requires`.
pub use reading::read_parts;

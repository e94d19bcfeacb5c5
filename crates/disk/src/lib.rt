// Reading and saving the sectors of a disk in a store. `specs/` says what every change and read of a disk does.
// Table and data buffer are two slices in each call (docs/DECISIONS.md, 115).
#![tactic(auto)]

mod answer;
mod saving;
mod serve;

pub use answer::Served;
pub use saving::save;
pub use serve::read;

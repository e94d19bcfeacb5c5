// Setting a track of a disk in a store, for Format.
// Table and data buffer are two slices in each call (docs/DECISIONS.md, 115).
#![tactic(auto)]

mod set;

pub use set::{Format, set_track};

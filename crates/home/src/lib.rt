// The disk goes home: the extended image of the disk that a store holds. `specs/Home.antt` says which bytes it has.
// Table and data buffer are two slices in each call (docs/DECISIONS.md, 115).
#![tactic(auto)]

mod measure;
mod write;

pub use measure::image_length;
pub use write::write_image;

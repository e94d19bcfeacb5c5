// Reading a DSK image, normal or extended: the walk over an image that everything above is built on.
// `specs/Dsk.antt` says what an image holds.
#![tactic(auto)]

mod walk;

pub use walk::{Step, Totals, Walk, open, survey};

// A track block of a DSK image: its header, its sector list and its data. `specs/Block.antt` says what a block holds.
#![tactic(auto)]

mod row;
mod track;

pub use track::{Head, Kind, Row, content, read_track, sector_row};

// For the crates above only: they have a `requires`.
pub use row::{IDS, number_ids, put_head, put_row};
pub use track::{id_at, row_at};

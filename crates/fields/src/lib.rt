// What everything above reads with: the byte readers, a sector's ID and status bytes, the capacities, and the refusals with their numbers.
#![tactic(auto)]

mod capacity;
mod id;
mod read;
mod refusal;

pub use capacity::{DATA, HELD, SECTORS, TRACKS, TRANSFER};
pub use id::{SectorId, St1, St2, size_of};
pub use read::{byte, read_string, read_u8, read_u16, read_u32};
pub use refusal::Refusal;

// For the crates above only: they have a `requires`.
pub use read::{word, word_at};

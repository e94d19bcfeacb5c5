// A disk kept in a lent table and a lent data buffer: the layout, the check and the searches.
// docs/STORE.md and `specs/Store.antt` say how it is laid.
// Each call takes table and data buffer as two slices: they are lent apart, and a part of one is never a part of the other. It takes
// side, cylinder and ID as three: they come from a command's second byte, the drive and the command, and nobody has them together.
#![tactic(auto)]

mod answer;
mod check;
mod find;

ghost use Rattle.std.specs.Prelude.{◌≡◌};
ghost use Rattle.store.specs.Store.{disk_of};
ghost use Rattle.store.specs.Calls.{lookup_of, has_of};

pub use answer::{Geometry, Match};
use fields::{Refusal, SectorId};
pub use find::{geometry, id_by_idx};

// The names of this block are for the crates above only, and may have a `requires`.
pub use check::{TABLE, Tallied, room_of, rows_len, tally, transfer_room};
pub use find::{
    Hit, Place, Spot, TrackRows, first_sector, get_sector, get_track, locate, row_here, rows_of,
};

// The bytes of the sector at an address, as a part of `bytes`; an empty part where there is none or the store breaks the layout.
pub fn lookup<'t, 'b>(
    table: &'t [u8],
    bytes: &'b [u8],
    side: u8,
    cylinder: u8,
    id: SectorId,
) -> &'b [u8]
    ensures { result.now ≡ lookup_of (disk_of table.now bytes.now) side cylinder id }
{
    match locate(table, bytes, side, cylinder, id) {
        Ok(Some(part)) => &bytes[part.from..part.to],
        Ok(None) => &bytes[0..0],
        Err(_) => &bytes[0..0],
    }
}

// Whether there is a sector at an address, and which of those with its ID it is.
pub fn has_sector(
    table: &[u8],
    bytes: &[u8],
    side: u8,
    cylinder: u8,
    id: SectorId,
) -> Result<Option<Match>, Refusal>
    ensures { result ≡ has_of (disk_of table.now bytes.now) side cylinder id }
{
    let Some(part) = locate(table, bytes, side, cylinder, id)? else {
        return Ok(None);
    };
    Ok(Some(part.which))
}

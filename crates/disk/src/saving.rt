// A save: the sector at an address takes new bytes, and with them their length.
ghost use Rattle.std.specs.Prelude.{◌≡◌, ◌+◌, ◌-◌, ◌<◌, ◌≤◌, ◌++◌, length};
ghost use Rattle.std.proofs.Math.Seq.{slice};
ghost use Rattle.buffer.specs.Over.{over};
ghost use Rattle.fields.specs.Capacities.{most_data};
ghost use Rattle.store.specs.Calls.{outcome};
ghost use Rattle.disk.specs.Calls.{save_of};
ghost use Rattle.disk.specs.Saving.{length_bytes, judged};

use fields::{Refusal, SectorId};
use store::{Match, Place, locate, room_of};

// Puts `new` in the place of the bytes of [from, to); those that stood behind, up to `end`, follow it.
pub fn splice(buf: &mut [u8], from: usize, to: usize, end: usize, new: &[u8])
    requires { (to ≤ end) × ((end ≤ length buf.old) × (from + length new.now + (end - to) ≤ length buf.old)) }
    ensures { buf.new ≡ over buf.old from (new.now ++ slice to end buf.old) }
{
    buffer::shift(buf, to, from + new.len(), end);
    buffer::copy_in(buf, from, new);
}

// Writes the stored length of the row at a place.
fn put_length(table: &mut [u8], at: usize, count: usize)
    requires { (at + 8 ≤ length table.old) × (count < 65536) }
    ensures { table.new ≡ over table.old (at + 6) (length_bytes count) }
{
    let bytes = [(count % 256) as u8, (count / 256) as u8];
    buffer::copy_in(table, at + 6, &bytes);
}

// Refuses so many bytes where they cannot take the place of those that were found.
#[tactic(auto, using(std::proofs::lemmas::Bool::Decides::nat_tests), unfolding(crate::specs::Saving::judged))]
fn judge(found: Place, count: usize, room: usize) -> Result<(), Refusal>
    requires { (found.from ≤ found.to) × ((found.to ≤ found.end) × (found.end ≤ most_data)) }
    ensures { result ≡ judged found count room }
{
    if 65535 < count {
        return Err(Refusal::NoRoom);
    }
    if room < found.end - (found.to - found.from) + count {
        return Err(Refusal::NoRoom);
    }
    Ok(())
}

// Gives the sector at an address new bytes and their length.
pub fn save(
    table: &mut [u8],
    bytes: &mut [u8],
    side: u8,
    cylinder: u8,
    id: SectorId,
    new: &[u8],
) -> Result<Option<Match>, Refusal>
    ensures { outcome result table.new bytes.new
        ≡ save_of table.old bytes.old side cylinder id new.now }
{
    let Some(found) = locate(table, bytes, side, cylinder, id)? else {
        return Ok(None);
    };
    judge(found, new.len(), room_of(bytes))?;
    splice(bytes, found.from, found.to, found.end, new);
    put_length(table, found.row, new.len());
    Ok(Some(found.which))
}

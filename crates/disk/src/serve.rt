// Reading sectors into a transfer buffer.
ghost use Rattle.std.specs.Prelude.{◌≡◌, ◌-◌, ◌≤◌, suc, length};
ghost use Rattle.buffer.specs.Over.{over};
ghost use Rattle.store.specs.Store.{contents};
ghost use Rattle.disk.specs.Calls.{filled, read_of};
ghost use Rattle.disk.specs.Serving.{extent_from, Rows, Gathered, run_of, filled_at};

use crate::answer::Served;
use fields::{Refusal, SectorId};
use store::{
    TrackRows, first_sector, get_sector, get_track, room_of, row_here, rows_of, tally,
    transfer_room,
};

// How many sectors a read finds, and how many bytes they store.
#[derive(Clone, Copy)]
pub struct Extent {
    pub sectors: usize,
    pub total: usize,
}

// Searches the numbers from the ID's own to `last` among the rows of a track, up to the first that has no sector.
// A number that was found goes on at the label; one without a sector ends both loops.
// It and `gather` stay calls of their own: compiled into `read_rows` their loops keep numbers on the stack (docs/SPEED.md).
#[inline(never)]
fn measure(table: &[u8], rows: TrackRows, id: SectorId, last: u8) -> Extent
    requires { id.r ≤ last }
    ensures { result ≡ extent_from table.now id rows.start rows.count id.r (suc (last - id.r)) }
{
    let mut sectors: usize = 0;
    let mut total: usize = 0;
    'numbers: for r in id.r..=last {
        let wanted = SectorId { r, ..id };
        for k in 0..rows.count {
            let at = rows.start + 8 * k;
            if row_here(table, at, wanted) {
                total += tracks::row_at(table, at).stored as usize;
                sectors += 1;
                continue 'numbers;
            }
        }
        break 'numbers;
    }
    Extent { sectors, total }
}

// Copies one sector to the start of what is left of the transfer buffer, which is lent from the end of the sector before (document 01).
fn copy_sector(room: &mut [u8], content: &[u8])
    requires { length content.now ≤ length room.old }
    ensures { room.new ≡ over room.old 0 content.now }
{
    buffer::copy_in(room, 0, content);
}

// Lays `sectors` sectors, numbered from the ID's own on, one after another into the transfer buffer.
#[inline(never)]
fn gather(
    table: &[u8],
    bytes: &[u8],
    rows: TrackRows,
    id: SectorId,
    sectors: usize,
    transfer: &mut [u8],
)
    requires { Gathered table.now bytes.now rows.start rows.first rows.count id sectors (length transfer.old) }
    ensures { transfer.new ≡ over transfer.old 0
        (contents (run_of table.now bytes.now rows.start rows.first rows.count id id.r sectors)) }
{
    let mut total: usize = 0;
    for k in 0..sectors {
        let number = (id.r as usize) + k;
        let wanted = SectorId {
            r: number as u8,
            ..id
        };
        let Some(spot) = get_sector(table, rows, wanted) else {
            return;
        };
        let stored = tracks::row_at(table, spot.at).stored as usize;
        copy_sector(
            &mut transfer[total..],
            buffer::part(bytes, spot.place, stored),
        );
        total += stored;
    }
}

// Reads among the rows of one track.
fn read_rows(
    table: &[u8],
    bytes: &[u8],
    rows: TrackRows,
    id: SectorId,
    eot: u8,
    transfer: &mut [u8],
) -> Result<Option<Served>, Refusal>
    requires { Rows table.now bytes.now rows.start rows.first rows.count }
    ensures { filled result transfer.new
        ≡ filled_at transfer.old table.now bytes.now rows.start rows.first rows.count id eot }
{
    let Some(hit) = first_sector(table, rows, id) else {
        return Ok(None);
    };
    let last = id.r.max(eot);
    let extent = measure(table, rows, id, last);
    if transfer_room(transfer) < extent.total {
        return Err(Refusal::NoTransferRoom);
    }
    let sectors = extent.sectors;
    gather(table, bytes, rows, id, sectors, transfer);
    let row = tracks::row_at(table, hit.row);
    Ok(Some(Served {
        total: extent.total,
        sizes: sectors * id.len(),
        st1: row.st1,
        st2: row.st2,
        sector: hit.which,
    }))
}

// Reads the sector at an address and, up to `eot`, those that follow it by number, into the transfer buffer.
pub fn read(
    table: &[u8],
    bytes: &[u8],
    side: u8,
    cylinder: u8,
    id: SectorId,
    eot: u8,
    transfer: &mut [u8],
) -> Result<Option<Served>, Refusal>
    ensures { filled result transfer.new ≡ read_of table.now bytes.now side cylinder id eot transfer.old }
{
    tally(table, room_of(bytes))?;
    let Some(track) = get_track(table, side, cylinder) else {
        return Ok(None);
    };
    let rows = rows_of(table, track);
    read_rows(table, bytes, rows, id, eot, transfer)
}

// Laying tracks into a store: from an image, and formatted.
ghost use Rattle.std.specs.Prelude.{◌≡◌, ◌+◌, ◌*◌, ◌<◌, ◌≤◌, [], length};
ghost use Rattle.buffer.specs.Over.{over};
ghost use Rattle.tracks.specs.Rows.{rows_for};
ghost use Rattle.image.specs.Calls.{survey_of, to_come};
ghost use Rattle.store.specs.Store.{table_length, tracks_for, contents, data_of};
ghost use Rattle.store.specs.Fresh.{fresh_track, fresh_from};
ghost use Rattle.store.specs.Calls.{outcome, load_of, fresh_of};
ghost use Rattle.loading.specs.Laying.{list_from, block_rows, block_data, track_for, formatted_by, Whole, Layable, capacity_of};

use fields::{Refusal, SECTORS, St1, St2, TRACKS, size_of};
use image::{Step, Walk};
use store::{TABLE, room_of};
use tracks::{Head, Kind, Row};

// Lays the rows of a track block's sectors.
fn put_rows(table: &mut [u8], start: usize, kind: Kind, block: &[u8], count: u8)
    requires { start + 8 * count ≤ length table.old }
    ensures { table.new ≡ over table.old start (list_from kind block.now 0 count) }
{
    for k in 0..count {
        let row = tracks::sector_row(kind, block, k);
        tracks::put_row(table, start + 8 * (k as usize), row);
    }
}

// Lays the track that a block holds, whose head was read: its rows, and its data in one piece.
fn lay_track(
    table: &mut [u8],
    at: usize,
    bytes: &mut [u8],
    place: usize,
    kind: Kind,
    block: &[u8],
    head: Head,
)
    requires { (at + 6 + 8 * head.sectors ≤ length table.old) × (place + head.stored ≤ length bytes.old) }
    ensures { (table.new ≡ over table.old at (block_rows kind block.now head))
        × (bytes.new ≡ over bytes.old place (block_data block.now head)) }
{
    tracks::put_head(table, at, head);
    put_rows(table, at + 6, kind, block, head.sectors);
    let stored = head.stored as usize;
    buffer::copy_in(bytes, place, buffer::part(block, 0x100, stored));
}

// Lays the tracks that a walk has still to hand out, behind the count of tracks and from the start of the data buffer.
fn lay_tracks(image: &[u8], start: Walk, table: &mut [u8], bytes: &mut [u8])
    requires { Layable image.now start 1 0 (length table.old) (length bytes.old) }
    ensures { (table.new ≡ over table.old 1 (tracks_for (to_come image.now start) []))
        × (bytes.new ≡ over bytes.old 0 (data_of (to_come image.now start))) }
{
    let mut walk = start;
    let mut at: usize = 1;
    let mut place: usize = 0;
    // A step tells that the walk has ended.
    loop {
        match walk.step(image) {
            Err(_) => unreachable!(),
            Ok(Step::End) => return,
            Ok(Step::Absent(rest)) => walk = rest,
            Ok(Step::Track(head, rest)) => {
                lay_track(table, at, bytes, place, walk.kind, walk.block(image), head);
                at += 6 + 8 * (head.sectors as usize);
                place += head.stored as usize;
                walk = rest;
            }
        }
    }
}

// Whether the capacities allow so many tracks, sectors and bytes.
#[tactic(auto, using(std::proofs::lemmas::Bool::Decides::nat_tests), unfolding(store::specs::Calls::within))]
pub fn capacity(tracks: usize, sectors: usize, bytes: usize, room: usize) -> Result<(), Refusal>
    ensures { result ≡ capacity_of tracks sectors bytes room }
{
    if TRACKS < tracks {
        return Err(Refusal::TooManyTracks);
    }
    if SECTORS < sectors {
        return Err(Refusal::TooManySectors);
    }
    if room < bytes {
        return Err(Refusal::NoRoom);
    }
    Ok(())
}

// Loads an image into a store: `Disk::new`. The image is read through before the first byte is written.
pub fn new(image: &[u8], table: &mut [u8], bytes: &mut [u8]) -> Result<(), Refusal>
    ensures { outcome result table.new bytes.new
        ≡ load_of image.now table.old bytes.old }
{
    if table.len() != TABLE {
        return Err(Refusal::BadStore);
    }
    let (totals, walk) = image::survey(image)?;
    capacity(totals.tracks, totals.sectors, totals.bytes, room_of(bytes))?;
    table[0] = totals.tracks as u8;
    lay_tracks(image, walk, table, bytes);
    Ok(())
}

// Lays the rows of a formatted track's sectors: an ID each, and filler as long as the track's n says.
fn put_blanks(table: &mut [u8], start: usize, head: Head, ids: &[u8])
    requires { start + 8 * head.sectors ≤ length table.old }
    ensures { table.new
        ≡ over table.old start (rows_for (formatted_by head ids.now).sectors []) }
{
    let stored = size_of(head.size) as u16;
    for k in 0..head.sectors {
        let row = Row {
            id: tracks::id_at(ids, 4 * (k as usize)),
            st1: St1 { bits: 0 },
            st2: St2 { bits: 0 },
            stored,
        };
        tracks::put_row(table, start + 8 * (k as usize), row);
    }
}

// Lays a formatted track, of which four bytes are lent for each ID: its rows, and filler in one piece.
pub fn lay_formatted(
    table: &mut [u8],
    at: usize,
    bytes: &mut [u8],
    place: usize,
    head: Head,
    ids: &[u8],
)
    requires { (at + 6 + 8 * head.sectors ≤ length table.old) × ((place + head.stored ≤ length bytes.old) × Whole head) }
    ensures { (table.new ≡ over table.old at (track_for (formatted_by head ids.now)))
        × (bytes.new ≡ over bytes.old place (contents (formatted_by head ids.now).sectors)) }
{
    tracks::put_head(table, at, head);
    put_blanks(table, at + 6, head, ids);
    buffer::fill(bytes, place, head.stored as usize, head.filler);
}

// Lays a track of the fresh format.
fn lay_fresh_track(table: &mut [u8], at: usize, bytes: &mut [u8], place: usize, cylinder: u8)
    requires { (at + 78 ≤ length table.old) × (place + 4608 ≤ length bytes.old) }
    ensures { (table.new ≡ over table.old at (track_for (fresh_track cylinder)))
        × (bytes.new ≡ over bytes.old place (contents (fresh_track cylinder).sectors)) }
{
    let mut ids = [0u8; tracks::IDS];
    tracks::number_ids(&mut ids, cylinder, 0, 2, 9);
    let head = Head {
        cylinder,
        side: 0,
        size: 2,
        sectors: 9,
        gap: 0x2F,
        filler: 0xE5,
        stored: 4608,
    };
    lay_formatted(table, at, bytes, place, head, &ids);
}

// Lays the tracks of the fresh format.
fn lay_fresh(table: &mut [u8], bytes: &mut [u8])
    requires { (3121 ≤ length table.old) × (184320 ≤ length bytes.old) }
    ensures { (table.new ≡ over table.old 1 (tracks_for (fresh_from 0 40) []))
        × (bytes.new ≡ over bytes.old 0 (data_of (fresh_from 0 40))) }
{
    for cylinder in 0..40u8 {
        let k = cylinder as usize;
        lay_fresh_track(table, 1 + 78 * k, bytes, 4608 * k, cylinder);
    }
}

// Puts the fresh format into a store.
pub fn new_formatted(table: &mut [u8], bytes: &mut [u8]) -> Result<(), Refusal>
    ensures { outcome result table.new bytes.new ≡ fresh_of table.old bytes.old }
{
    if table.len() != TABLE {
        return Err(Refusal::BadStore);
    }
    if room_of(bytes) < 184320 {
        return Err(Refusal::NoRoom);
    }
    table[0] = 40;
    lay_fresh(table, bytes);
    Ok(())
}

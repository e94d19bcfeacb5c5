// The searches: a track by cylinder and side, a sector by all four bytes of its ID, each the first that matches.
ghost use Rattle.std.specs.Prelude.{◌≡◌, ◌+◌, ◌*◌, ◌<◌, ◌≤◌, max};
ghost use Rattle.fields.specs.Capacities.{most_data};
ghost use Rattle.fields.specs.Bytes.{byte_at};
ghost use Rattle.store.specs.Store.{table_length, sum_at, count_at, next_at, disk_of};
ghost use Rattle.store.specs.Calls.{geometry_of, id_by_index};
ghost use Rattle.store.specs.Spots.{cylinders_at, index_spot, track_here, row_here, track_spot, sector_spot, bearing_at, row_hit, store_hit, place_of, Walkable};

use crate::answer::{Geometry, Match};
use crate::check::{room_of, rows_len, tally};
use fields::{Refusal, SectorId};

// Where a search ends: the index of what it found, its place in the table and that of its bytes.
#[derive(Clone, Copy)]
pub struct Spot {
    pub index: usize,
    pub at: usize,
    pub place: usize,
}

// Where the search for a sector ends: which one it is, its row and the place of its bytes.
#[derive(Clone, Copy)]
pub struct Hit {
    pub which: Match,
    pub row: usize,
    pub from: usize,
}

// The row that an index stands for, counted round its track.
#[derive(Clone, Copy)]
pub struct Turned {
    pub index: usize,
    pub at: usize,
}

// Where the sector at an address stands: which one it is, its row, its bytes, and the end of the bytes of all sectors.
#[derive(Clone, Copy)]
pub struct Place {
    pub which: Match,
    pub row: usize,
    pub from: usize,
    pub to: usize,
    pub end: usize,
}

// The rows of a track: where they start in the table, how many there are, and where their bytes start. They lie in the table.
// Where they and their bytes start stand apart, so that a search keeps either in a register of its own (docs/SPEED.md).
#[derive(Clone, Copy)]
pub struct TrackRows {
    pub start: usize,
    pub count: usize,
    pub first: usize,
    ghost inside: { start + 8 * count ≤ table_length },
    ghost few: { count < 256 },
}

// Whether the track at a place is the one that is looked for.
fn track_here(table: &[u8], at: usize, side: u8, cylinder: u8) -> bool
    requires { at < 65536 }
    ensures { result ≡ track_here table.now side cylinder at }
{
    fields::byte(table, at) == cylinder as usize && fields::byte(table, at + 1) == side as usize
}

// Whether the row at a place has the ID that is looked for.
pub fn row_here(table: &[u8], at: usize, id: SectorId) -> bool
    requires { at < 65536 }
    ensures { result ≡ row_here table.now id at }
{
    // Byte by byte: most rows that are passed over differ in one of the first, and no more of them is read.
    fields::byte(table, at) == id.c as usize
        && fields::byte(table, at + 1) == id.h as usize
        && fields::byte(table, at + 2) == id.r as usize
        && fields::byte(table, at + 3) == id.n as usize
}

// The first track with this side and cylinder.
pub fn get_track(table: &[u8], side: u8, cylinder: u8) -> Option<Spot>
    requires { Walkable table.now }
    ensures { result ≡ track_spot table.now side cylinder 0 1 0 (byte_at table.now 0) }
{
    let mut at: usize = 1;
    let mut place: usize = 0;
    let tracks = fields::byte(table, 0);
    for index in 0..tracks {
        if track_here(table, at, side, cylinder) {
            return Some(Spot { index, at, place });
        }
        let count = fields::byte(table, at + 5);
        place += rows_len(table, at + 6, count);
        at += 6 + 8 * count;
    }
    None
}

// The rows of the track at a place.
pub fn rows_of(table: &[u8], track: Spot) -> TrackRows
    requires { next_at table.now track.at ≤ table_length }
    ensures start { result.start ≡ track.at + 6 }
    ensures first { result.first ≡ track.place }
    ensures count { result.count ≡ count_at table.now track.at }
{
    TrackRows {
        start: track.at + 6,
        first: track.place,
        count: fields::byte(table, track.at + 5),
    }
}

// The first row with this ID.
pub fn get_sector(table: &[u8], rows: TrackRows, id: SectorId) -> Option<Spot>
    requires { rows.first + sum_at table.now rows.start rows.count ≤ most_data }
    ensures { result ≡ sector_spot table.now id 0 rows.start rows.first rows.count }
{
    let mut at = rows.start;
    let mut place = rows.first;
    for index in 0..rows.count {
        if row_here(table, at, id) {
            return Some(Spot { index, at, place });
        }
        place += tracks::row_at(table, at).stored as usize;
        at += 8;
    }
    None
}

// How many of `count` rows have this ID.
fn bearing(table: &[u8], start: usize, count: usize, id: SectorId) -> usize
    requires { (start + 8 * count ≤ table_length) × (count < 256) }
    ensures { (result ≡ bearing_at table.now id start count) × (result ≤ count) }
{
    let mut found: usize = 0;
    for k in 0..count {
        if row_here(table, start + 8 * k, id) {
            found += 1;
        }
    }
    found
}

// The first row with this ID, and which one it is: the count goes on behind the row where the search ended.
pub fn first_sector(table: &[u8], rows: TrackRows, id: SectorId) -> Option<Hit>
    requires { rows.first + sum_at table.now rows.start rows.count ≤ most_data }
    ensures { result ≡ row_hit table.now id rows.start rows.first rows.count }
{
    let Spot { index, at, place } = get_sector(table, rows, id)?;
    let behind = bearing(table, at + 8, rows.count - index - 1, id);
    let which = Match {
        place: (index + 1) as u8,
        count: (behind + 1) as u8,
    };
    Some(Hit {
        which,
        row: at,
        from: place,
    })
}

// The row with this index in the track at a place, counted round the track.
pub fn get_sector_by_idx(table: &[u8], at: usize, idx: usize) -> Option<Turned>
    requires { at < 65536 }
    ensures { result ≡ index_spot table.now at idx }
{
    let count = fields::byte(table, at + 5);
    if count == 0 {
        return None;
    }
    let index = idx % count;
    Some(Turned {
        index,
        at: at + 6 + 8 * index,
    })
}

// The greatest cylinders of a store that was checked.
fn cylinders(table: &[u8]) -> Geometry
    requires { Walkable table.now }
    ensures { result ≡ cylinders_at table.now 0 0 1 (byte_at table.now 0) }
{
    let mut at: usize = 1;
    let mut c0: usize = 0;
    let mut c1: usize = 0;
    let tracks = fields::byte(table, 0);
    for _ in 0..tracks {
        let cylinder = fields::byte(table, at);
        if fields::byte(table, at + 1) == 0 {
            c0 = c0.max(cylinder);
        } else {
            c1 = c1.max(cylinder);
        }
        at += 6 + 8 * fields::byte(table, at + 5);
    }
    Geometry {
        c0: c0 as u8,
        c1: c1 as u8,
    }
}

// The greatest cylinder of side 0 and of all other sides, 0 where there is none.
pub fn geometry(table: &[u8], bytes: &[u8]) -> Result<Geometry, Refusal>
    ensures { result ≡ geometry_of (disk_of table.now bytes.now) }
{
    tally(table, room_of(bytes))?;
    Ok(cylinders(table))
}

// The row at an address, and which of those with its ID it is.
fn find_sector(table: &[u8], side: u8, cylinder: u8, id: SectorId) -> Option<Hit>
    requires { Walkable table.now }
    ensures { result ≡ store_hit table.now side cylinder id }
{
    let track = get_track(table, side, cylinder)?;
    first_sector(table, rows_of(table, track), id)
}

// Where the sector at an address stands, in a store as it comes.
pub fn locate(
    table: &[u8],
    bytes: &[u8],
    side: u8,
    cylinder: u8,
    id: SectorId,
) -> Result<Option<Place>, Refusal>
    ensures { result ≡ place_of table.now bytes.now side cylinder id }
{
    let held = tally(table, room_of(bytes))?;
    let Some(hit) = find_sector(table, side, cylinder, id) else {
        return Ok(None);
    };
    let to = hit.from + (tracks::row_at(table, hit.row).stored as usize);
    Ok(Some(Place {
        which: hit.which,
        row: hit.row,
        from: hit.from,
        to,
        end: held.bytes,
    }))
}

// The ID of the sector with this index, counted round the track with this side and cylinder.
pub fn id_by_idx(
    table: &[u8],
    bytes: &[u8],
    side: u8,
    cylinder: u8,
    idx: u16,
) -> Result<Option<SectorId>, Refusal>
    ensures { result ≡ id_by_index (disk_of table.now bytes.now) side cylinder idx }
{
    tally(table, room_of(bytes))?;
    let Some(track) = get_track(table, side, cylinder) else {
        return Ok(None);
    };
    let Some(row) = get_sector_by_idx(table, track.at, idx as usize) else {
        return Ok(None);
    };
    Ok(Some(tracks::id_at(table, row.at)))
}

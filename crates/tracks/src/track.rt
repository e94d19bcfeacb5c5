// A track block of an image: its header, its sector list and its data.
ghost use Rattle.std.specs.Prelude.{◌≡◌, ◌≤◌, ◌<◌, drop};
ghost use Rattle.tracks.specs.Block.{id_at, row_at, row_by, row_of, sector_of, stored_from, data_end, body_of, track_of, block_of};

use fields::{Refusal, SectorId, St1, St2, byte, read_string, word};

#[derive(Clone, Copy, PartialEq, Eq)]
pub enum Kind {
    Normal,
    Extended,
}

// A track's fields, how many sectors it has and how many bytes they store.
#[derive(Clone, Copy)]
pub struct Head {
    pub cylinder: u8,
    pub side: u8,
    pub size: u8,
    pub sectors: u8,
    pub gap: u8,
    pub filler: u8,
    pub stored: u32,
}

// A sector's fields and how many bytes it stores.
#[derive(Clone, Copy)]
pub struct Row {
    pub id: SectorId,
    pub st1: St1,
    pub st2: St2,
    pub stored: u16,
}

// The ID at a place of a sector list.
pub fn id_at(list: &[u8], at: usize) -> SectorId
    requires { at < 65536 }
    ensures { result ≡ id_at list.now at }
{
    SectorId {
        c: byte(list, at) as u8,
        h: byte(list, at + 1) as u8,
        r: byte(list, at + 2) as u8,
        n: byte(list, at + 3) as u8,
    }
}

// The entry at a place of a sector list.
pub fn row_at(list: &[u8], at: usize) -> Row
    requires { at < 65536 }
    ensures { result ≡ row_at list.now at }
{
    Row {
        id: id_at(list, at),
        st1: St1 {
            bits: byte(list, at + 4) as u8,
        },
        st2: St2 {
            bits: byte(list, at + 5) as u8,
        },
        stored: word(list, at + 6) as u16,
    }
}

// An entry as its image means it: a normal one stores as much as n says.
fn row_by(kind: Kind, row: Row) -> Row
    ensures { result ≡ row_by kind row }
{
    match kind {
        Kind::Extended => row,
        Kind::Normal => Row {
            stored: row.id.len() as u16,
            ..row
        },
    }
}

// Entry k of a track block's sector list.
pub fn sector_row(kind: Kind, block: &[u8], k: u8) -> Row
    ensures { result ≡ row_of kind block.now k }
{
    row_by(kind, row_at(block, 0x18 + 8 * (k as usize)))
}

// The data of a sector that start at a place of its track block, as a part of the block.
pub fn content<'a>(block: &'a [u8], place: usize, row: Row) -> &'a [u8]
    ensures { result.now ≡ (sector_of row (drop place block.now)).content }
{
    buffer::part(block, place, row.stored as usize)
}

// The sum of the stored lengths of the first `count` entries.
fn stored_sum(kind: Kind, block: &[u8], count: u8) -> u32
    ensures { (result ≡ stored_from kind block.now 0 count) × (result ≤ 16711425) }
{
    let mut sum: u32 = 0;
    for k in 0..count {
        sum += sector_row(kind, block, k).stored as u32;
    }
    sum
}

// Where a track's data end in its block.
fn data_end(stored: u32) -> usize
    ensures { result ≡ data_end stored }
{
    if stored == 0 {
        return 0;
    }
    0x100 + (stored as usize)
}

// Reads a track block behind its signature: header, sector list and the room for the data.
fn read_body(kind: Kind, block: &[u8]) -> Result<Head, Refusal>
    ensures { result ≡ block_of (body_of kind block.now) }
{
    if block.len() < 0x18 + 8 * byte(block, 0x15) {
        return Err(Refusal::ShortImage);
    }
    let sectors = block[0x15];
    let stored = stored_sum(kind, block, sectors);
    if block.len() < data_end(stored) {
        return Err(Refusal::ShortImage);
    }
    Ok(Head {
        cylinder: block[0x10],
        side: block[0x11],
        size: block[0x14],
        sectors,
        gap: block[0x16],
        filler: block[0x17],
        stored,
    })
}

// Reads the track block that a slice begins with.
pub fn read_track(kind: Kind, block: &[u8]) -> Result<Head, Refusal>
    ensures { result ≡ block_of (track_of kind block.now) }
{
    if !read_string(block, 0, b"Track-Info\r\n")? {
        return Err(Refusal::NotATrack);
    }
    read_body(kind, block)
}

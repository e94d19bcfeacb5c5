// The pass that writes: the blocks of the tracks one behind another, and their sizes into the disk block, which is laid last.
ghost use Rattle.std.specs.Prelude.{◌≡◌, ◌++◌, ◌+◌, ◌*◌, ◌≤◌, ◌<◌, length, replicate};
ghost use Rattle.buffer.specs.Over.{over};
ghost use Rattle.store.specs.Calls.{penned};
ghost use Rattle.home.specs.Home.{units, padded, image_for, blocks_for};
ghost use Rattle.home.specs.Calls.{image_in, written_as};
ghost use Rattle.home.specs.Passes.{disk_at, Outbound, info_by, empty_block, sizes_in};

use crate::measure::{Shape, judge, units_of};
use fields::Refusal;
use store::rows_len;

// Lays the header of a track block, 256 bytes, by the track's bytes in a table.
fn put_header(image: &mut [u8], to: usize, track: &[u8])
    requires { (6 ≤ length track.now) × ((length track.now ≤ 238) × (to + 256 ≤ length image.old)) }
    ensures { image.new ≡ over image.old to (padded (info_by track.now)) }
{
    let first = [
        b'T', b'r', b'a', b'c', b'k', b'-', b'I', b'n', b'f', b'o', b'\r', b'\n', 0, 0, 0, 0,
        track[0], track[1], 0, 0, track[2], track[5], track[3], track[4],
    ];
    buffer::copy_in(image, to, &first);
    buffer::copy_in(image, to + 24, &track[6..]);
    let end = 18 + track.len();
    buffer::fill(image, to + end, 256 - end, 0);
}

// Lays bytes, and zeros behind them up to the next 256.
fn put_padded(image: &mut [u8], to: usize, bytes: &[u8])
    requires { (length bytes.now < 4294967296) × (to + 256 * units (length bytes.now) ≤ length image.old) }
    ensures { image.new ≡ over image.old to (padded bytes.now) }
{
    let end = bytes.len();
    buffer::copy_in(image, to, bytes);
    buffer::fill(image, to + end, 256 * units_of(end) - end, 0);
}

// Lays a track block: the header, and the data in one piece.
fn put_track(image: &mut [u8], to: usize, track: &[u8], bytes: &[u8])
    requires in_bounds { (6 ≤ length track.now) × ((length track.now ≤ 238) × (length bytes.now < 4294967296)) }
    requires bytes_in_bounds { to + 256 + 256 * units (length bytes.now) ≤ length image.old }
    ensures { image.new
        ≡ over image.old to (padded (info_by track.now) ++ padded bytes.now) }
{
    put_header(image, to, track);
    put_padded(image, to + 256, bytes);
}

// A track's entry in the table of sizes, in order of cylinder, then side.
fn entry_of(cylinder: usize, side: usize, sides: usize) -> usize
    requires { (cylinder < 256) × ((side < 256) × (sides ≤ 2)) }
    ensures { result ≡ cylinder * sides + side }
{
    cylinder * sides + side
}

// Lays the track blocks behind the disk block, and the size of each at its entry in `block`.
fn put_tracks(table: &[u8], bytes: &[u8], s: Shape, block: &mut [u8], image: &mut [u8])
    requires outbound { Outbound table.now bytes.now s }
    requires block_len { (length block.old ≡ 256) × (s.long ≤ length image.old) }
    ensures { (image.new
        ≡ over image.old 256 (blocks_for (disk_at table.now bytes.now)))
        × (block.new ≡ sizes_in s.sides (disk_at table.now bytes.now) block.old) }
{
    let mut at: usize = 1;
    let mut place: usize = 0;
    let mut to: usize = 256;
    for _ in 0..fields::byte(table, 0) {
        let count = fields::byte(table, at + 5);
        let next = at + 6 + 8 * count;
        let stored = rows_len(table, at + 6, count);
        let size = 1 + units_of(stored);
        let cylinder = fields::byte(table, at);
        let side = fields::byte(table, at + 1);
        let entry = entry_of(cylinder, side, s.sides);
        put_track(image, to, &table[at..next], &bytes[place..place + stored]);
        block[0x34 + entry] = size as u8;
        to += 256 * size;
        place += stored;
        at = next;
    }
}

// Lays the disk block of so many cylinders and sides, no size in it, over zeros.
fn put_info(block: &mut [u8], cylinders: usize, sides: usize)
    requires { (block.old ≡ replicate 256 0) × ((cylinders < 256) × (sides < 256)) }
    ensures { block.new ≡ empty_block cylinders sides }
{
    buffer::copy_in(block, 0, b"EXTENDED CPC DSK File\r\nDisk-Info\r\n");
    block[0x30] = cylinders as u8;
    block[0x31] = sides as u8;
}

// Lays the whole image from the buffer's start.
fn put_image(table: &[u8], bytes: &[u8], s: Shape, image: &mut [u8])
    requires outbound { Outbound table.now bytes.now s }
    requires long_in_bounds { s.long ≤ length image.old }
    ensures { image.new ≡ over image.old 0 (image_for (disk_at table.now bytes.now)) }
{
    let mut block = [0u8; 256];
    put_info(&mut block, s.cylinders, s.sides);
    put_tracks(table, bytes, s, &mut block, image);
    buffer::copy_in(image, 0, &block);
}

// Writes the image of the disk that a store holds to the buffer's start; bytes behind it stay. 2, 12, then 13 for a buffer
// that is too short: it stays as it came.
pub fn write_image(table: &[u8], bytes: &[u8], image: &mut [u8]) -> Result<u32, Refusal>
    ensures { penned result image.new
        ≡ written_as (image_in table.now bytes.now) image.old }
{
    let s = judge(table, bytes)?;
    if image.len() < s.long as usize {
        return Err(Refusal::ShortBuffer);
    }
    put_image(table, bytes, s, image);
    Ok(s.long)
}

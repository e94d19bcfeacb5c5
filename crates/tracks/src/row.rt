// Entries and heads as bytes, laid into a table, and the IDs of a formatted track.
ghost use Rattle.std.specs.Prelude.{◌≡◌, ◌+◌, ◌≤◌, [], length};
ghost use Rattle.buffer.specs.Over.{over};
ghost use Rattle.tracks.specs.Rows.{head_for, row_for, id_room, ids_for, ids_from};

use crate::track::{Head, Row};

// Lays a track's six bytes.
pub fn put_head(table: &mut [u8], at: usize, head: Head)
    requires { at + 6 ≤ length table.old }
    ensures { table.new ≡ over table.old at (head_for head []) }
{
    let bytes = [
        head.cylinder,
        head.side,
        head.size,
        head.gap,
        head.filler,
        head.sectors,
    ];
    buffer::copy_in(table, at, &bytes);
}

// Lays a sector's eight bytes.
pub fn put_row(table: &mut [u8], at: usize, row: Row)
    requires { at + 8 ≤ length table.old }
    ensures { table.new ≡ over table.old at (row_for row []) }
{
    let id = row.id;
    let low = row.stored % 256;
    let high = row.stored / 256;
    let bytes = [
        id.c,
        id.h,
        id.r,
        id.n,
        row.st1.bits,
        row.st2.bits,
        low as u8,
        high as u8,
    ];
    buffer::copy_in(table, at, &bytes);
}

// Room for the IDs of a track: four bytes each, 255 at most.
pub const IDS: usize = 1020;

// Lays the IDs of one cylinder, head and n that are numbered from 1 to `count`, four bytes each.
pub fn number_ids(ids: &mut [u8], c: u8, h: u8, n: u8, count: u8)
    requires { id_room ≤ length ids.old }
    ensures { ids.new ≡ over ids.old 0 (ids_for (ids_from c h n 1 count) []) }
{
    for k in 0..count {
        buffer::copy_in(ids, 4 * (k as usize), &[c, h, k + 1, n]);
    }
}

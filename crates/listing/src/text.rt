// A listing's text, laid into a slice: each function lays its part from a place on and answers the place behind it.
ghost use Rattle.std.specs.Prelude.{◌≡◌, ◌+◌, ◌≤◌, ◌++◌, length, drop, Err};
ghost use Rattle.listing.specs.Text.{disk_word, kind_word, decimal, track_lines, printed_as, id_text};
ghost use Rattle.image.specs.Calls.{to_come};
ghost use Rattle.listing.specs.Lines.{Laid, row_line, head_line, totals_line, row_lines, block_lines, Listable};

use fields::{Refusal, SectorId};
use image::{Step, Totals, Walk};
use tracks::{Head, Kind, Row};

// Writes the digits of a number at the end of `digits`, and answers where they begin.
fn write_digits(digits: &mut [u8], n: usize) -> usize
    requires { length digits.old ≡ 20 }
    ensures { (result ≤ 20) × (drop result digits.new ≡ decimal n) }
{
    let mut left = n;
    let mut at: usize = 20;
    // How many digits there are shows as they are written.
    while 10 <= left {
        at -= 1;
        digits[at] = (48 + left % 10) as u8;
        left /= 10;
    }
    at -= 1;
    digits[at] = (48 + left) as u8;
    at
}

// Lays bytes as they are.
fn put_word(out: &mut [u8], at: usize, word: &[u8]) -> usize
    requires { at + length word.now ≤ length out.old }
    ensures { Laid out.old at word.now out.new result }
{
    buffer::copy_in(out, at, word);
    at + word.len()
}

// Lays a number in decimal.
fn put_number(out: &mut [u8], at: usize, n: usize) -> usize
    requires { at + length (decimal n) ≤ length out.old }
    ensures { Laid out.old at (decimal n) out.new result }
{
    let mut digits = [0u8; 20];
    let from = write_digits(&mut digits, n);
    put_word(out, at, buffer::tail(&digits, from))
}

// Lays a word and a number behind it.
fn put_field(out: &mut [u8], at: usize, word: &[u8], n: usize) -> usize
    requires { at + length (word.now ++ decimal n) ≤ length out.old }
    ensures { Laid out.old at (word.now ++ decimal n) out.new result }
{
    let next = put_word(out, at, word);
    put_number(out, next, n)
}

// The same of a byte.
fn put_byte(out: &mut [u8], at: usize, word: &[u8], n: u8) -> usize
    requires { at + length (word.now ++ decimal n) ≤ length out.old }
    ensures { Laid out.old at (word.now ++ decimal n) out.new result }
{
    put_field(out, at, word, n as usize)
}

// Lays the beginning of a sector's line.
fn put_id(out: &mut [u8], at: usize, id: SectorId) -> usize
    requires { at + length (id_text id) ≤ length out.old }
    ensures { Laid out.old at (id_text id) out.new result }
{
    let h = put_byte(out, at, b"sector ", id.c);
    let r = put_byte(out, h, b" ", id.h);
    let n = put_byte(out, r, b" ", id.r);
    put_byte(out, n, b" ", id.n)
}

// Lays a sector's line.
fn put_row(out: &mut [u8], at: usize, row: Row) -> usize
    requires { at + length (row_line row) ≤ length out.old }
    ensures { Laid out.old at (row_line row) out.new result }
{
    let stored = row.stored as usize;
    let first = put_id(out, at, row.id);
    let second = put_byte(out, first, b" ", row.st1.bits);
    let third = put_byte(out, second, b" ", row.st2.bits);
    let fourth = put_field(out, third, b" ", stored);
    let last = put_field(out, fourth, b" ", row.id.copies(stored));
    put_word(out, last, b"\n")
}

// Lays the lines of a track block's sectors.
fn put_rows(out: &mut [u8], start: usize, kind: Kind, block: &[u8], count: u8) -> usize
    requires { start + length (row_lines kind block.now 0 count) ≤ length out.old }
    ensures { Laid out.old start (row_lines kind block.now 0 count) out.new result }
{
    let mut at = start;
    for k in 0..count {
        at = put_row(out, at, tracks::sector_row(kind, block, k));
    }
    at
}

// Lays a track's line.
fn put_head(out: &mut [u8], at: usize, head: Head) -> usize
    requires { at + length (head_line head) ≤ length out.old }
    ensures { Laid out.old at (head_line head) out.new result }
{
    let first = put_byte(out, at, b"track ", head.cylinder);
    let second = put_byte(out, first, b" ", head.side);
    let third = put_byte(out, second, b" sectors ", head.sectors);
    let fourth = put_byte(out, third, b" gap ", head.gap);
    let last = put_byte(out, fourth, b" filler ", head.filler);
    put_word(out, last, b"\n")
}

// Lays the line of the track that a block holds, and its sectors under it.
fn put_track(out: &mut [u8], at: usize, kind: Kind, block: &[u8], head: Head) -> usize
    requires { at + length (block_lines kind block.now head) ≤ length out.old }
    ensures { Laid out.old at (block_lines kind block.now head) out.new result }
{
    let next = put_head(out, at, head);
    put_rows(out, next, kind, block, head.sectors)
}

// Lays the tracks that a walk has still to hand out.
pub fn put_tracks(out: &mut [u8], place: usize, image: &[u8], start: Walk) -> usize
    requires { Listable image.now start place (length out.old) }
    ensures { Laid out.old place (track_lines (to_come image.now start)) out.new result }
{
    let mut walk = start;
    let mut at = place;
    // A step tells that the walk has ended.
    loop {
        let Ok(step) = walk.step(image) else {
            return at;
        };
        match step {
            Step::End => return at,
            Step::Absent(rest) => walk = rest,
            Step::Track(head, rest) => {
                at = put_track(out, at, start.kind, walk.block(image), head);
                walk = rest;
            }
        }
    }
}

// Lays the beginning of the disk's line.
fn put_kind(out: &mut [u8], at: usize, kind: Kind) -> usize
    requires { at + length (disk_word ++ kind_word kind) ≤ length out.old }
    ensures { Laid out.old at (disk_word ++ kind_word kind) out.new result }
{
    match kind {
        Kind::Normal => put_word(out, at, b"disk normal"),
        Kind::Extended => put_word(out, at, b"disk extended"),
    }
}

// Lays the disk's line.
pub fn put_disk(out: &mut [u8], kind: Kind, totals: Totals) -> usize
    requires { length (totals_line kind totals) ≤ length out.old }
    ensures { Laid out.old 0 (totals_line kind totals) out.new result }
{
    let tracks = put_kind(out, 0, kind);
    let sectors = put_field(out, tracks, b" tracks ", totals.tracks);
    let bytes = put_field(out, sectors, b" sectors ", totals.sectors);
    let last = put_field(out, bytes, b" bytes ", totals.bytes);
    put_word(out, last, b"\n")
}

// Lays the line of a refusal.
pub fn put_refusal(out: &mut [u8], why: Refusal) -> usize
    requires { length (printed_as (Err why)) ≤ length out.old }
    ensures { Laid out.old 0 (printed_as (Err why)) out.new result }
{
    let last = put_byte(out, 0, b"refused ", why.number());
    put_word(out, last, b"\n")
}

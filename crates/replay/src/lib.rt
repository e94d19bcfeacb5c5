// How the programs that replay a list take its records and print their answers. docs/ORACLE.md has the forms.
#![tactic(auto)]

ghost use Rattle.std.specs.Prelude.{◌≡◌, ◌+◌, ◌*◌, ◌<◌, ◌≤◌, ◌%◌, length, drop, IfOk, IfErr, IsOk, OnOk};
ghost use Rattle.std.specs.Io.KnownBytes.{Appends};
ghost use Rattle.fields.specs.Bytes.{byte_at};
ghost use Rattle.fields.specs.Capacities.{most_data};
ghost use Rattle.store.specs.Spots.{tally_of};
ghost use Rattle.store.specs.Store.{table_length};
ghost use Rattle.replay.specs.Answers.{check_from, check_with, held_in, number_in, hex_digit, Fails, Fits, ChunkFits, RecordFits, Runs};

use fields::{Refusal, SectorId};
use std::io::{ErrorKind, Read, Write};
use std::{fmt, io};
use tracks::Row;

// More records than any list has.
const RECORDS: u32 = 65536;

// So many bytes in hex are laid before they are written.
const HEX: usize = 16;

// How much a disk holds.
#[derive(Clone, Copy, Default)]
pub struct Amount {
    pub tracks: usize,
    pub sectors: usize,
    pub bytes: usize,
}

// A record of a list: how long its name and its image are.
#[derive(Clone, Copy)]
pub struct Record {
    pub letters: usize,
    pub len: usize,
}

// Why a list is taken no further: reading or writing failed, or it has a length and fewer bytes or more than there is room for.
#[derive(Drop)]
pub enum Fault {
    Failed(io::Error),
    Broken,
}

impl From<io::Error> for Fault {
    fn from(why: io::Error) -> Fault {
        Fault::Failed(why)
    }
}

// Replays record after record, until one answers no.
pub fn run<F: FnMut() -> Result<bool, Fault>>(mut replay: F) -> Result<(), Fault>
    requires { F.IsAlwaysCallable replay }
    ensures { Runs F.step 65536 replay result }
{
    for k in 0..RECORDS {
        match replay() {
            Ok(true) => {}
            Ok(false) => return Ok(()),
            Err(why) => return Err(why),
        }
    }
    Ok(())
}

// How a replay ends: a list that is broken off is told of, and what was printed stands.
pub fn ended(rt: &impl Eprint, replayed: Result<(), Fault>, broken: &str) -> io::Result<()>
    ensures well { OnOk replayed (IsOk result) }
    ensures ill { IfErr replayed (λ fault. Fails fault result) }
{
    match replayed {
        Ok(()) => Ok(()),
        Err(Fault::Broken) => eprintln!(rt; "{broken}"),
        Err(Fault::Failed(why)) => Err(why),
    }
}

pub fn put<W: Write>(out: &mut W, text: &[u8]) -> io::Result<()>
    ensures { OnOk result (Appends (W.contents out.old) (W.contents out.new) text.now) }
{
    out.write_all(text)
}

// A digit in hex, of which ten and more are letters.
pub fn hex_digit(n: u8, capital: bool) -> u8
    ensures { result ≡ hex_digit capital (n % 16) }
{
    let d = n % 16;
    if d < 10 {
        return b'0' + d;
    }
    if capital { b'7' + d } else { b'W' + d }
}

// Bytes one by one in hex, a space before each, with small or with capital letters.
#[derive(Clone, Copy)]
pub enum Hex<'a> {
    Lower(&'a [u8]),
    Upper(&'a [u8]),
}

// Lays so many bytes in hex over blanks.
fn lay_hex(bytes: &[u8], capital: bool, text: &mut [u8; 3 * HEX]) {
    for k in 0..bytes.len().min(HEX) {
        text[3 * k + 1] = hex_digit(bytes[k] / 16, capital);
        text[3 * k + 2] = hex_digit(bytes[k], capital);
    }
}

impl fmt::Display for Hex<'_> {
    fn fmt<W: fmt::Write>(&self, f: &mut fmt::Formatter<W>) -> fmt::Result {
        let (bytes, capital) = match *self {
            Hex::Lower(bytes) => (bytes, false),
            Hex::Upper(bytes) => (bytes, true),
        };
        for some in bytes.chunks(HEX) {
            let mut text = [b' '; 3 * HEX];
            lay_hex(some, capital, &mut text);
            let laid = buffer::part(&text, 0, 3 * some.len());
            f.write_str(str::from_utf8(laid).unwrap_or(""))?;
        }
        Ok(())
    }
}

pub fn refused<W: Write>(out: &mut W, why: Refusal) -> io::Result<()> {
    writeln!(out, "refused {}", why.number())
}

// The check number of bytes and of one more.
pub fn check_with(h: u32, b: u8) -> u32
    ensures { result ≡ check_with h b }
{
    let wide = h as u64 * 16777619 + b as u64;
    (wide % 4294967291) as u32
}

// A number that tells one list of bytes from another.
pub fn check_of(bytes: &[u8]) -> u32
    ensures { result ≡ check_from 0 bytes.now }
{
    let mut h = 0;
    for b in bytes {
        h = check_with(h, *b);
    }
    h
}

// How long bytes are, and their check number.
pub fn show_content<W: Write>(out: &mut W, content: &[u8]) -> io::Result<()> {
    writeln!(out, " {} {}", content.len(), check_of(content))
}

pub fn show_id<W: Write>(out: &mut W, id: SectorId) -> io::Result<()> {
    write!(out, " {} {} {} {}", id.c, id.h, id.r, id.n)
}

fn show_sector<W: Write>(out: &mut W, row: Row, content: &[u8]) -> io::Result<()> {
    write!(out, "sector")?;
    show_id(out, row.id)?;
    write!(out, " {} {}", row.st1.bits, row.st2.bits)?;
    show_content(out, content)
}

// The track at a place of the table.
fn show_track<W: Write>(out: &mut W, table: &[u8], at: usize) -> io::Result<()>
    requires { at < table_length }
{
    write!(out, "track")?;
    for k in 0..6 {
        write!(out, " {}", fields::byte(table, at + k))?;
    }
    writeln!(out)
}

// The sectors of `count` rows, whose bytes start at a place; answers where they end.
fn show_sectors<W: Write>(
    out: &mut W,
    table: &[u8],
    bytes: &[u8],
    start: usize,
    count: usize,
    first: usize,
) -> io::Result<usize>
    requires { (start < 20000) × ((count < 256) × (first < 4294967296)) }
    ensures { IfOk result (λ end. end ≤ first + 65535 * count) }
{
    let mut place = first;
    for k in 0..count {
        let row = tracks::row_at(table, start + 8 * k);
        let stored = row.stored as usize;
        show_sector(out, row, buffer::part(bytes, place, stored))?;
        place += stored;
    }
    Ok(place)
}

// The disk, by the layout of docs/STORE.md.
pub fn show_tracks<W: Write>(out: &mut W, table: &[u8], bytes: &[u8]) -> io::Result<()> {
    let mut at: usize = 1;
    let mut place: usize = 0;
    for k in 0..fields::byte(table, 0) {
        if store::TABLE <= at {
            return Ok(());
        }
        let count = fields::byte(table, at + 5);
        show_track(out, table, at)?;
        place = show_sectors(out, table, bytes, at + 6, count, place)?;
        at += 6 + 8 * count;
    }
    Ok(())
}

// How much the disk of a table holds; nothing where the table breaks the layout.
pub fn measure(table: &[u8]) -> Amount
    ensures { result ≡ held_in (tally_of table.now most_data) (byte_at table.now 0) }
{
    let tracks = fields::byte(table, 0);
    let Ok(held) = store::tally(table, fields::DATA) else {
        return Amount::default();
    };
    Amount {
        tracks,
        sectors: held.sectors,
        bytes: held.bytes,
    }
}

pub fn show_totals<W: Write>(out: &mut W, held: Amount) -> io::Result<()> {
    let Amount {
        tracks,
        sectors,
        bytes,
    } = held;
    writeln!(out, "disk tracks {tracks} sectors {sectors} bytes {bytes}")
}

// The number in the four bytes at a place, 0 where they are not all there.
pub fn number(bytes: &[u8], at: usize) -> usize
    ensures { result ≡ number_in bytes.now at }
{
    fields::read_u32(bytes, at).unwrap_or(0) as usize
}

// Reads n bytes to the front of a buffer; no where the input ends first.
pub fn take<R: Read>(input: &mut R, buf: &mut [u8], n: usize) -> io::Result<bool>
    ensures fits { IfOk result (λ taken. Fits taken n (length buf.old)) }
    ensures rest { drop n buf.new ≡ drop n buf.old }
{
    if buf.len() < n {
        return Ok(false);
    }
    match input.read_exact(&mut buf[..n]) {
        Ok(()) => Ok(true),
        Err(e) if e.kind() == ErrorKind::UnexpectedEof => Ok(false),
        Err(e) => Err(e),
    }
}

// The same where a list that ends first is broken.
pub fn need<R: Read>(input: &mut R, buf: &mut [u8], n: usize) -> Result<(), Fault>
    ensures fits { OnOk result (n ≤ length buf.old) }
    ensures rest { drop n buf.new ≡ drop n buf.old }
{
    if !take(input, buf, n)? {
        return Err(Fault::Broken);
    }
    Ok(())
}

// Takes a chunk to the front of a buffer: its length in so many bytes, the lowest first, and that many bytes; none where no length stands next.
pub fn take_chunk<R: Read>(
    input: &mut R,
    width: usize,
    buf: &mut [u8],
) -> Result<Option<usize>, Fault>
    ensures fits { IfOk result (λ chunk. ChunkFits chunk (length buf.old)) }
    ensures room { length buf.new ≡ length buf.old }
{
    let mut four = [0u8; 4];
    if !take(input, &mut four, width)? {
        return Ok(None);
    }
    let count = number(&four, 0);
    if !take(input, buf, count)? {
        return Err(Fault::Broken);
    }
    Ok(Some(count))
}

// Takes a record that begins with a name and an image, and leaves both in their buffers; none where the list ends.
pub fn take_record<R: Read>(
    input: &mut R,
    name: &mut [u8],
    image: &mut [u8],
) -> Result<Option<Record>, Fault>
    ensures fits { IfOk result (λ r. RecordFits r (length name.old) (length image.old)) }
    ensures room { (length name.new ≡ length name.old) × (length image.new ≡ length image.old) }
{
    let Some(letters) = take_chunk(input, 1, name)? else {
        return Ok(None);
    };
    let Some(len) = take_chunk(input, 4, image)? else {
        return Err(Fault::Broken);
    };
    Ok(Some(Record { letters, len }))
}

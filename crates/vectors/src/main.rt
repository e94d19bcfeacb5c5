// Replays the list of images in `stdin`: reads each through, loads it into a store, and prints what the
// store then holds and answers and which image it goes home as, in the form in which the Rust's own
// answers stand in `stdout`.
// docs/ORACLE.md has both forms. The store is not cleared between two images.
#![tactic(auto)]

ghost use Rattle.std.specs.Prelude.{◌+◌, ◌*◌, ◌<◌, ◌≤◌};

use fields::{Refusal, SectorId};
use replay::{Amount, Fault};
use std::io;
use std::io::{BufReader, BufWriter, Read, Write};

// No disk goes home as more bytes: 204 headers and the disk block, and as many data as there can be, padded.
const HOME: usize = 1153024;

// A disk, as it lies in its store.
#[derive(Clone, Copy)]
struct Disk<'a> {
    table: &'a [u8],
    bytes: &'a [u8],
}

// Where a record is taken to, and the store that its image is loaded into.
#[derive(Drop)]
struct Bench {
    name: [u8; 256],
    image: [u8; 262144],
    table: [u8; store::TABLE],
    bytes: [u8; fields::DATA],
}

fn show_geometry<W: Write>(out: &mut W, disk: Disk<'_>) -> io::Result<()> {
    match store::geometry(disk.table, disk.bytes) {
        Err(why) => replay::refused(out, why),
        Ok(found) => writeln!(out, "geometry {} {}", found.c0, found.c1),
    }
}

// What is found at an address, and which sector of its track it is.
fn ask<W: Write>(
    out: &mut W,
    disk: Disk<'_>,
    side: u8,
    cylinder: u8,
    id: SectorId,
) -> io::Result<()> {
    write!(out, "at {side} {cylinder}")?;
    replay::show_id(out, id)?;
    match store::has_sector(disk.table, disk.bytes, side, cylinder, id) {
        Err(why) => replay::refused(out, why),
        Ok(None) => writeln!(out, " none"),
        Ok(Some(sector)) => {
            write!(out, " {} {}", sector.place, sector.count)?;
            let content = store::lookup(disk.table, disk.bytes, side, cylinder, id);
            replay::show_content(out, content)
        }
    }
}

// Asks for each of `count` sectors by its own address, and for the first with another r.
fn ask_sectors<W: Write>(
    out: &mut W,
    disk: Disk<'_>,
    start: usize,
    count: usize,
    side: u8,
    cylinder: u8,
) -> io::Result<()>
    requires { (start < 20000) × (count < 256) }
{
    for k in 0..count {
        let id = tracks::id_at(disk.table, start + 8 * k);
        ask(out, disk, side, cylinder, id)?;
    }
    if 0 < count {
        let id = tracks::id_at(disk.table, start);
        let r = id.r.wrapping_add(128);
        ask(out, disk, side, cylinder, SectorId { r, ..id })?;
    }
    Ok(())
}

fn ask_tracks<W: Write>(out: &mut W, disk: Disk<'_>) -> io::Result<()> {
    let table = disk.table;
    let mut at: usize = 1;
    for _ in 0..fields::byte(table, 0) {
        if store::TABLE <= at {
            return Ok(());
        }
        let cylinder = fields::byte(table, at) as u8;
        let side = fields::byte(table, at + 1) as u8;
        let count = fields::byte(table, at + 5);
        ask_sectors(out, disk, at + 6, count, side, cylinder)?;
        at += 6 + 8 * count;
    }
    Ok(())
}

fn id(c: u8, h: u8, r: u8, n: u8) -> SectorId {
    SectorId { c, h, r, n }
}

// Three addresses that hardly any disk has.
fn ask_elsewhere<W: Write>(out: &mut W, disk: Disk<'_>) -> io::Result<()> {
    ask(out, disk, 0, 0, id(0, 0, 0, 0))?;
    ask(out, disk, 1, 0, id(0, 0, 1, 2))?;
    ask(out, disk, 255, 255, id(255, 255, 255, 255))
}

// The image that the disk goes home as, in a buffer that it fits. The buffer is its caller's: with it here, the check of this function runs out of
// room.
fn show_home_in<W: Write>(out: &mut W, disk: Disk<'_>, image: &mut [u8; HOME]) -> io::Result<()> {
    write!(out, "home")?;
    match home::write_image(disk.table, disk.bytes, image) {
        Err(why) => {
            write!(out, " ")?;
            replay::refused(out, why)
        }
        Ok(length) => replay::show_content(out, buffer::part(image, 0, length as usize)),
    }
}

fn show_home<W: Write>(out: &mut W, disk: Disk<'_>) -> io::Result<()> {
    let mut image = [0; HOME];
    show_home_in(out, disk, &mut image)
}

// What a store holds, unless the disk was refused.
fn show_store<W: Write>(
    out: &mut W,
    loaded: Result<(), Refusal>,
    disk: Disk<'_>,
) -> io::Result<()> {
    if let Err(why) = loaded {
        return replay::refused(out, why);
    }
    replay::show_tracks(out, disk.table, disk.bytes)?;
    show_geometry(out, disk)?;
    ask_tracks(out, disk)?;
    ask_elsewhere(out, disk)?;
    show_home(out, disk)
}

// Reads an image through and loads it.
fn show<W: Write>(out: &mut W, image: &[u8], table: &mut [u8], bytes: &mut [u8]) -> io::Result<()> {
    let totals = match image::survey(image) {
        Ok((totals, _)) => totals,
        Err(why) => return replay::refused(out, why),
    };
    let held = Amount {
        tracks: totals.tracks,
        sectors: totals.sectors,
        bytes: totals.bytes,
    };
    replay::show_totals(out, held)?;
    let loaded = loading::new(image, table, bytes);
    show_store(out, loaded, Disk { table, bytes })
}

fn show_fresh<W: Write>(out: &mut W, table: &mut [u8], bytes: &mut [u8]) -> io::Result<()> {
    writeln!(out, "fresh")?;
    let loaded = loading::new_formatted(table, bytes);
    show_store(out, loaded, Disk { table, bytes })
}

// Reads one record and shows its image; no where the list ends.
fn replay<R: Read, W: Write>(input: &mut R, out: &mut W, bench: &mut Bench) -> Result<bool, Fault> {
    let Some(record) = replay::take_record(input, &mut bench.name, &mut bench.image)? else {
        return Ok(false);
    };
    replay::put(out, b"image ")?;
    replay::put(out, buffer::part(&bench.name, 0, record.letters))?;
    replay::put(out, b"\n")?;
    let image = buffer::part(&bench.image, 0, record.len);
    show(out, image, &mut bench.table, &mut bench.bytes)?;
    Ok(true)
}

// Shows a fresh disk, and replays every record.
fn run<R: Read, W: Write>(input: &mut R, out: &mut W, bench: &mut Bench) -> Result<(), Fault> {
    show_fresh(out, &mut bench.table, &mut bench.bytes)?;
    replay::run(|| replay(input, out, bench))
}

fn main(rt: HostRuntime) -> io::Result<()> {
    let mut input = BufReader::new(rt.alloc(), rt.stdin())?;
    let mut out = BufWriter::new(rt.alloc(), rt.stdout())?;
    let mut bench = Bench {
        name: [0; 256],
        image: [0; 262144],
        table: [0; store::TABLE],
        bytes: [0; fields::DATA],
    };
    let replayed = run(&mut input, &mut out, &mut bench);
    replay::ended(&rt, replayed, "vectors: the list ends inside a record")?;
    out.flush()
}

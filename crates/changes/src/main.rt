// Replays the list of scripts in `stdin`: loads a script's disk, then formats, saves, reads and asks for IDs as it
// says, and prints what each call answers and what the disk then holds, in the form in which the Rust's own answers
// stand in `stdout`. docs/ORACLE.md has both forms. The store is not cleared between two scripts.
#![tactic(auto)]

use disk::Served;
use fields::{Refusal, SectorId};
use formatting::Format;
use replay::Fault;
use std::io;
use std::io::{BufReader, BufWriter, Read, Write};

// A disk with more sectors is not printed whole.
const MOST_PRINTED: usize = 600;

// The fields of an operation, as they came.
type Fields = [u8; 11];

// Where a script is taken to, its disk, and room for what is saved and read.
#[derive(Drop)]
struct Bench {
    name: [u8; 256],
    image: [u8; 65536],
    table: [u8; store::TABLE],
    bytes: [u8; fields::DATA],
    work: [u8; 131072],
}

// What an operation does.
#[derive(Clone, Copy)]
enum Kind {
    Format,
    Save,
    Read,
    AskId,
}

impl TryFrom<u8> for Kind {
    type Error = Fault;

    fn try_from(number: u8) -> Result<Kind, Fault> {
        match number {
            1 => Ok(Kind::Format),
            2 => Ok(Kind::Save),
            3 => Ok(Kind::Read),
            4 => Ok(Kind::AskId),
            _ => Err(Fault::Broken),
        }
    }
}

// How many bytes of fields an operation has.
fn length(kind: Kind) -> usize {
    match kind {
        Kind::Format => 6,
        Kind::Save => 9,
        Kind::Read => 11,
        Kind::AskId => 4,
    }
}

// The name of an operation, and the fields behind it that are single bytes.
fn show_fields<W: Write>(out: &mut W, name: &str, fields: &[u8]) -> io::Result<()> {
    write!(out, "{name}")?;
    for b in fields {
        write!(out, " {b}")?;
    }
    Ok(())
}

// The ID behind an operation's side and cylinder.
fn id_of(fields: &Fields) -> SectorId {
    let [_, _, c, h, r, n, ..] = *fields;
    SectorId { c, h, r, n }
}

fn refused<W: Write>(out: &mut W, why: Refusal) -> io::Result<()> {
    write!(out, " ")?;
    replay::refused(out, why)
}

// The bytes that a save stores.
fn fill_pattern(new: &mut [u8], seed: u8) {
    for (k, b) in new.iter_mut().enumerate() {
        *b = ((seed as usize + 31 * (k % 65536) + k / 256) % 256) as u8;
    }
}

fn show_served<W: Write>(out: &mut W, served: Served, transfer: &[u8]) -> io::Result<()> {
    write!(
        out,
        " {} {} {}",
        served.total,
        served.end_st1(),
        served.st2.bits
    )?;
    let check = replay::check_of(buffer::part(transfer, 0, served.total));
    writeln!(out, " {check}")
}

impl Bench {
    // A call that changed the disk, and the disk.
    fn done<W: Write>(&self, out: &mut W) -> io::Result<()> {
        writeln!(out, " done")?;
        let held = replay::measure(&self.table);
        if MOST_PRINTED < held.sectors {
            return replay::show_totals(out, held);
        }
        replay::show_tracks(out, &self.table, &self.bytes)
    }

    // Side, cylinder, n, number of sectors, gap, filler.
    fn format<W: Write>(&mut self, out: &mut W, fields: &Fields) -> io::Result<()> {
        show_fields(out, "format", &fields[..6])?;
        let [side, cylinder, size, sectors, gap, filler, ..] = *fields;
        let track = Format {
            cylinder,
            side,
            size,
            sectors,
            gap,
            filler,
        };
        let mut ids = [0; tracks::IDS];
        tracks::number_ids(&mut ids, cylinder, side, size, sectors);
        match formatting::set_track(&mut self.table, &mut self.bytes, track, &ids) {
            Err(why) => refused(out, why),
            Ok(()) => self.done(out),
        }
    }

    // Side, cylinder, ID, length, seed.
    fn save<W: Write>(&mut self, out: &mut W, fields: &Fields) -> io::Result<()> {
        let len = fields::word(fields, 6);
        let seed = fields[8];
        show_fields(out, "save", &fields[..6])?;
        write!(out, " {len} {seed}")?;
        fill_pattern(&mut self.work, seed);
        let new = buffer::part(&self.work, 0, len);
        let [side, cylinder, ..] = *fields;
        let id = id_of(fields);
        match disk::save(&mut self.table, &mut self.bytes, side, cylinder, id, new) {
            Err(why) => refused(out, why),
            Ok(None) => writeln!(out, " missing"),
            Ok(Some(_)) => self.done(out),
        }
    }

    // Side, cylinder, ID, eot, length of the transfer buffer, which is no longer than the one at hand.
    fn read<W: Write>(&mut self, out: &mut W, fields: &Fields) -> io::Result<()> {
        let room = replay::number(fields, 7);
        show_fields(out, "read", &fields[..7])?;
        write!(out, " {room}")?;
        let work = &mut self.work[..];
        let lent = room.min(work.len());
        let transfer = &mut work[..lent];
        let [side, cylinder, _, _, _, _, eot, ..] = *fields;
        let id = id_of(fields);
        match disk::read(&self.table, &self.bytes, side, cylinder, id, eot, transfer) {
            Err(why) => refused(out, why),
            Ok(None) => writeln!(out, " missing"),
            Ok(Some(served)) => show_served(out, served, transfer),
        }
    }

    // Side, cylinder, index.
    fn ask_id<W: Write>(&self, out: &mut W, fields: &Fields) -> io::Result<()> {
        let idx = fields::word(fields, 2) as u16;
        show_fields(out, "id", &fields[..2])?;
        write!(out, " {idx}")?;
        match store::id_by_idx(&self.table, &self.bytes, fields[0], fields[1], idx) {
            Err(why) => refused(out, why),
            Ok(None) => writeln!(out, " none"),
            Ok(Some(id)) => {
                replay::show_id(out, id)?;
                writeln!(out)
            }
        }
    }

    // Takes one operation and runs it.
    fn operate<R: Read, W: Write>(&mut self, input: &mut R, out: &mut W) -> Result<(), Fault> {
        let mut fields = [0; 11];
        replay::need(input, &mut fields, 1)?;
        let kind = Kind::try_from(fields[0])?;
        replay::need(input, &mut fields, length(kind))?;
        match kind {
            Kind::Format => self.format(out, &fields)?,
            Kind::Save => self.save(out, &fields)?,
            Kind::Read => self.read(out, &fields)?,
            Kind::AskId => self.ask_id(out, &fields)?,
        }
        Ok(())
    }

    // Runs the operations of a script.
    fn operations<R: Read, W: Write>(&mut self, input: &mut R, out: &mut W) -> Result<(), Fault> {
        let mut two = [0; 2];
        replay::need(input, &mut two, 2)?;
        for _ in 0..fields::word(&two, 0) {
            self.operate(input, out)?;
        }
        Ok(())
    }

    // The disk that a script begins with: a fresh one where it has no image of so many bytes.
    fn start(&mut self, len: usize) -> Result<(), Refusal> {
        let image = buffer::part(&self.image, 0, len);
        if image.is_empty() {
            return loading::new_formatted(&mut self.table, &mut self.bytes);
        }
        loading::new(image, &mut self.table, &mut self.bytes)
    }

    // Reads one script and runs it; no where the list ends or the disk is refused.
    fn replay<R: Read, W: Write>(&mut self, input: &mut R, out: &mut W) -> Result<bool, Fault> {
        let Some(record) = replay::take_record(input, &mut self.name, &mut self.image)? else {
            return Ok(false);
        };
        replay::put(out, b"script ")?;
        replay::put(out, buffer::part(&self.name, 0, record.letters))?;
        replay::put(out, b"\n")?;
        if let Err(why) = self.start(record.len) {
            replay::refused(out, why)?;
            return Ok(false);
        }
        self.operations(input, out)?;
        Ok(true)
    }
}

fn main(rt: HostRuntime) -> io::Result<()> {
    let mut input = BufReader::new(rt.alloc(), rt.stdin())?;
    let mut out = BufWriter::new(rt.alloc(), rt.stdout())?;
    let mut bench = Bench {
        name: [0; 256],
        image: [0; 65536],
        table: [0; store::TABLE],
        bytes: [0; fields::DATA],
        work: [0; 131072],
    };
    let replayed = replay::run(|| bench.replay(&mut input, &mut out));
    replay::ended(&rt, replayed, "changes: the list ends inside a script")?;
    out.flush()
}

// Replays the list of sessions in `stdin`: loads a session's two disks, then calls the controller as it says, and prints
// what each call answers and what the controller and the disks hold in the end, in the form in which the Rust's own
// answers stand in `stdout`. docs/ORACLE.md has both forms. Every session is replayed twice: with the port calls by value,
// and, the buffers wiped, with those over a lent controller. The buffers are not cleared between two sessions.
#![tactic(auto)]

mod call;
mod list;
mod sheets;
mod show;

use call::{Bench, Disk, Kind, start_of};
use fields::{DATA, Refusal};
use floppy::Floppy;
use list::{List, Session};
use replay::Fault;
use std::io;
use std::io::{BufReader, BufWriter, Read, Write};
use store::TABLE;

// The buffers hold nothing but this byte when a session is replayed for the second time.
const WIPED: u8 = 165;

// The line over a session's answers.
fn headed<W: Write>(out: &mut W, lent: bool, name: &[u8]) -> io::Result<()> {
    replay::put(out, if lent { b"lent " } else { b"session " })?;
    replay::put(out, name)?;
    replay::put(out, b"\n")
}

impl Bench {
    // A new controller without a disk, lent to the port calls or not, and the most that is lent of each buffer.
    fn restart(&mut self, lent: bool) {
        self.floppy = Floppy::new();
        self.lent = lent;
        self.disk = None;
        self.table = TABLE;
        self.bytes = DATA;
        self.room = fields::TRANSFER;
    }

    // Makes the calls of a session.
    fn play<W: Write>(&mut self, out: &mut W, calls: &[u8]) -> io::Result<()> {
        let mut rest = calls;
        // A call tells how long it is.
        while !rest.is_empty() {
            let kind = Kind::from(fields::byte(rest, 0) as u8);
            let number = fields::word(rest, 1);
            let len = fields::word(rest, 3);
            self.make(out, kind, number, buffer::part(rest, 5, len))?;
            rest = buffer::tail(rest, 5 + len);
        }
        Ok(())
    }

    // Loads a disk: a fresh one where there is no image.
    fn load(&mut self, disk: Disk, image: &[u8]) -> Result<(), Refusal> {
        let from = start_of(Some(disk), TABLE);
        let start = start_of(Some(disk), DATA);
        let tables = &mut self.tables[..];
        let table = &mut tables[from..from + TABLE];
        let contents = &mut self.contents[..];
        let bytes = &mut contents[start..start + DATA];
        if image.is_empty() {
            return loading::new_formatted(table, bytes);
        }
        loading::new(image, table, bytes)
    }

    // Loads a session's two disks.
    fn load_both(&mut self, s: Session<'_>) -> Result<(), Refusal> {
        self.load(Disk::A, s.a)?;
        self.load(Disk::B, s.b)
    }

    // A disk, as it is in the end.
    fn show_disk<W: Write>(&self, out: &mut W, disk: Disk) -> io::Result<()> {
        let table = buffer::part(&self.tables, start_of(Some(disk), TABLE), TABLE);
        let bytes = buffer::part(&self.contents, start_of(Some(disk), DATA), DATA);
        show::disk(out, table, bytes)
    }

    // What the controller and both disks hold in the end.
    fn finish<W: Write>(&self, out: &mut W) -> io::Result<()> {
        show::ask(out, self.floppy)?;
        show::boxes(out, self.floppy, &self.transfer)?;
        writeln!(out, "disk a")?;
        self.show_disk(out, Disk::A)?;
        writeln!(out, "disk b")?;
        self.show_disk(out, Disk::B)
    }

    // Loads a session's two disks and makes its calls; no where a disk is refused.
    fn perform<W: Write>(&mut self, out: &mut W, lent: bool, s: Session<'_>) -> io::Result<bool> {
        headed(out, lent, s.name)?;
        if let Err(why) = self.load_both(s) {
            replay::refused(out, why)?;
            return Ok(false);
        }
        self.restart(lent);
        self.play(out, s.calls)?;
        self.finish(out)?;
        Ok(true)
    }

    // Overwrites all that the buffers hold.
    fn wipe(&mut self) {
        self.tables.fill(WIPED);
        self.contents.fill(WIPED);
        self.transfer.fill(WIPED);
    }
}

// Takes one session and replays it by value, and on wiped buffers over a lent controller; no where the list ends or a disk is refused.
fn replay<R: Read, W: Write>(
    input: &mut R,
    out: &mut W,
    list: &mut List,
    bench: &mut Bench,
) -> Result<bool, Fault> {
    let Some(session) = list.take(input)? else {
        return Ok(false);
    };
    if !bench.perform(out, false, session)? {
        return Ok(false);
    }
    bench.wipe();
    Ok(bench.perform(out, true, session)?)
}

fn main(rt: HostRuntime) -> io::Result<()> {
    let mut input = BufReader::new(rt.alloc(), rt.stdin())?;
    let mut out = BufWriter::new(rt.alloc(), rt.stdout())?;
    let mut list = List {
        name: [0; 256],
        a: [0; 65536],
        b: [0; 65536],
        calls: [0; 65536],
    };
    let mut bench = Bench {
        floppy: Floppy::new(),
        lent: false,
        disk: None,
        table: TABLE,
        bytes: DATA,
        room: fields::TRANSFER,
        tables: [0; 35218],
        contents: [0; 2097152],
        transfer: [0; 131072],
    };
    let replayed = replay::run(|| replay(&mut input, &mut out, &mut list, &mut bench));
    replay::ended(&rt, replayed, "ports: the list ends inside a session")?;
    out.flush()
}

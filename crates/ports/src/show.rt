// What calls answer, and what the controller and the disks hold, as docs/ORACLE.md has it.
use fields::Refusal;
use floppy::Floppy;
use registers::Regs;
use replay::Hex;
use std::io;
use std::io::Write;

// More bytes are not printed one by one.
pub const MOST_HEX: usize = 24;

// A disk with more tracks or sectors is not printed whole.
const MOST_PRINTED: usize = 40;

// What port reads gave: how many bytes, their check number, and the first of them.
#[derive(Clone, Copy)]
pub struct Heard {
    count: usize,
    check: u32,
    first: [u8; MOST_HEX],
}

impl Heard {
    pub(crate) fn nothing() -> Heard {
        Heard {
            count: 0,
            check: 0,
            first: [0; MOST_HEX],
        }
    }

    // One byte more was given.
    pub(crate) fn add(&mut self, b: u8) {
        let at = self.count;
        if at < MOST_HEX {
            self.first[at] = b;
        }
        self.check = replay::check_with(self.check, b);
        self.count = at.saturating_add(1);
    }

    pub(crate) fn show<W: Write>(&self, out: &mut W) -> io::Result<()> {
        hex_or_check(out, self.count, self.check, &self.first)
    }
}

// Bytes one by one, or their check number where they are many.
fn hex_or_check<W: Write>(out: &mut W, count: usize, check: u32, first: &[u8]) -> io::Result<()> {
    if MOST_HEX < count {
        return write!(out, " check {check}");
    }
    write!(out, ":{}", Hex::Lower(buffer::part(first, 0, count)))
}

pub(crate) fn bytes<W: Write>(out: &mut W, bytes: &[u8]) -> io::Result<()> {
    hex_or_check(out, bytes.len(), replay::check_of(bytes), bytes)
}

fn refused<W: Write>(out: &mut W, why: Refusal) -> io::Result<()> {
    write!(out, " refused {}", why.number())
}

// The end of a call's line.
pub(crate) fn end<W: Write>(out: &mut W, done: Result<(), Refusal>) -> io::Result<()> {
    if let Err(why) = done {
        refused(out, why)?;
    }
    writeln!(out)
}

// A number that a controller tells of itself.
fn told<W: Write>(out: &mut W, name: &str, answer: Result<u8, Refusal>) -> io::Result<()> {
    write!(out, " {name}")?;
    match answer {
        Err(why) => refused(out, why),
        Ok(n) => write!(out, " {n}"),
    }
}

// Motor, track, and whether a disk is in.
pub(crate) fn ask<W: Write>(out: &mut W, f: Floppy) -> io::Result<()> {
    write!(out, "ask")?;
    told(out, "motor", f.motor().map(u8::from))?;
    told(out, "track", f.current_track())?;
    told(out, "disk", f.disk().map(u8::from))?;
    writeln!(out)
}

// The write or the Format in progress: how many bytes it still takes, its c1 and ID or shape, and the check number of
// those that it has.
fn pending<W: Write>(out: &mut W, f: Floppy) -> io::Result<()> {
    let w = f.regs.write;
    if !w.on {
        return writeln!(out, " write none");
    }
    let work = if w.track { "format" } else { "write" };
    let taken = w.taken as usize;
    let left = w.goal().whole().saturating_sub(taken);
    let t = w.target;
    let five = [w.c1, t.one, t.two, t.three, t.four];
    let check = replay::check_of(buffer::part(&f.held, 0, taken));
    writeln!(out, " {work} {left}{} {check}", Hex::Lower(&five))
}

// What is unread of the reply, and of the data.
fn unread<W: Write>(out: &mut W, r: Regs, transfer: &[u8]) -> io::Result<()> {
    let reply = buffer::part(
        &r.reply,
        r.place as usize,
        r.fill.saturating_sub(r.place) as usize,
    );
    let data = buffer::part(
        transfer,
        r.from as usize,
        r.until.saturating_sub(r.from) as usize,
    );
    write!(out, " reply{} data {}", Hex::Lower(reply), data.len())?;
    write!(out, " {}", replay::check_of(data))
}

// Seek state, lost count and ID index, and the bytes of a command that is partly sent.
fn numbers<W: Write>(out: &mut W, r: Regs) -> io::Result<()> {
    let seek = r.drive.seek as u8;
    let command = buffer::part(&r.command, 0, r.count as usize);
    write!(out, "boxes seek {seek} lost {} index {}", r.lost, r.index)?;
    write!(out, " command{}", Hex::Lower(command))
}

// What the ports do not show at once.
pub(crate) fn boxes<W: Write>(out: &mut W, f: Floppy, transfer: &[u8]) -> io::Result<()> {
    numbers(out, f.regs)?;
    unread(out, f.regs, transfer)?;
    pending(out, f)
}

// A disk, whole or where that is long its totals and two check numbers: of its rows, and of all data.
pub(crate) fn disk<W: Write>(out: &mut W, table: &[u8], bytes: &[u8]) -> io::Result<()> {
    let held = replay::measure(table);
    if held.tracks <= MOST_PRINTED && held.sectors <= MOST_PRINTED {
        return replay::show_tracks(out, table, bytes);
    }
    replay::show_totals(out, held)?;
    let rows = 1 + 6 * (held.tracks % 65536) + 8 * (held.sectors % 65536);
    let of_rows = replay::check_of(buffer::part(table, 0, rows));
    let of_data = replay::check_of(buffer::part(bytes, 0, held.bytes));
    writeln!(out, "check {of_rows} {of_data}")
}

// The calls of a session, on a controller and two disks.
ghost use Rattle.std.specs.Prelude.{◌≤◌};

use crate::show::Heard;
use crate::{sheets, show};
use fields::{DATA, Refusal};
use floppy::{Floppy, Shown};
use registers::{Regs, Report};
use std::io;
use std::io::Write;
use store::TABLE;

// A call, by the number that stands for it in a session.
#[derive(Clone, Copy)]
pub enum Kind {
    Put,
    Motor,
    Status,
    Read,
    Send,
    Ask,
    Boxes,
    Lend,
    Table,
    Number,
    Sheet,
    Resume,
}

// 10 and every number that stands for no call changes a number of the controller.
impl From<u8> for Kind {
    fn from(number: u8) -> Kind {
        match number {
            1 => Kind::Put,
            2 => Kind::Motor,
            3 => Kind::Status,
            4 => Kind::Read,
            5 => Kind::Send,
            6 => Kind::Ask,
            7 => Kind::Boxes,
            8 => Kind::Lend,
            9 => Kind::Table,
            11 => Kind::Sheet,
            12 => Kind::Resume,
            _ => Kind::Number,
        }
    }
}

// The ports that are read.
#[derive(Clone, Copy)]
enum Port {
    Status,
    Data,
}

// The two disks.
#[derive(Clone, Copy)]
pub enum Disk {
    A,
    B,
}

// The controller, whether it is lent to the port calls, which disk is in its drive, and how many bytes of each buffer are lent. The tables of both
// disks, and their data: A's, and behind them B's. The transfer buffer is longer than its room can be.
#[derive(Drop)]
pub struct Bench {
    pub floppy: Floppy,
    pub lent: bool,
    pub disk: Option<Disk>,
    pub table: usize,
    pub bytes: usize,
    pub room: usize,
    pub tables: [u8; 35218],
    pub contents: [u8; 2097152],
    pub transfer: [u8; 131072],
}

// How far bytes were sent before one was refused: whole rounds, and bytes of the next one.
#[derive(Clone, Copy)]
struct Stopped {
    rounds: usize,
    taken: usize,
    why: Refusal,
}

// Where a disk's part of a buffer begins that has A's and behind it B's.
pub(crate) fn start_of(disk: Option<Disk>, each: usize) -> usize
    ensures { result ≤ each }
{
    match disk {
        Some(Disk::B) => each,
        _ => 0,
    }
}

// The numbers of a controller that a session changes: place and fill of the reply, the bytes of a command, the lost count,
// place and fill of the data, fill and c1 of a write.
#[derive(Clone, Copy)]
enum Changed {
    ReplyPlace,
    ReplyFill,
    Count,
    Lost,
    DataPlace,
    DataFill,
    Taken,
    C1,
}

// 8 and every number that stands for none stands for the last.
impl From<usize> for Changed {
    fn from(number: usize) -> Changed {
        match number {
            1 => Changed::ReplyPlace,
            2 => Changed::ReplyFill,
            3 => Changed::Count,
            4 => Changed::Lost,
            5 => Changed::DataPlace,
            6 => Changed::DataFill,
            7 => Changed::Taken,
            _ => Changed::C1,
        }
    }
}

// The registers with another number.
fn renumbered(r: Regs, changed: Changed, value: usize) -> Regs {
    let small = (value % 256) as u8;
    let large = (value % 1048576) as u32;
    let mut w = r.write;
    match changed {
        Changed::ReplyPlace => Regs { place: small, ..r },
        Changed::ReplyFill => Regs { fill: small, ..r },
        Changed::Count => Regs { count: small, ..r },
        Changed::Lost => Regs { lost: small, ..r },
        Changed::DataPlace => Regs { from: large, ..r },
        Changed::DataFill => Regs { until: large, ..r },
        Changed::Taken => {
            w.taken = (value % 65536) as u16;
            Regs { write: w, ..r }
        }
        Changed::C1 => {
            w.c1 = small;
            Regs { write: w, ..r }
        }
    }
}

impl Bench {
    // What a call answered; its controller is kept.
    fn keep<T: Copy>(&mut self, shown: Shown<T>) -> Result<T, Refusal> {
        self.floppy = shown.floppy;
        shown.answer
    }

    // Puts disk A or B in, or takes out what is in. The one place where the list's number says which: past 2 it is told as B, and is A.
    fn put<W: Write>(&mut self, out: &mut W, number: usize) -> io::Result<()> {
        let (name, disk) = match number {
            0 => ("none", None),
            1 => ("a", Some(Disk::A)),
            2 => ("b", Some(Disk::B)),
            _ => ("b", Some(Disk::A)),
        };
        write!(out, "put {name}")?;
        let shown = self.floppy.set_disk(disk.is_some());
        let done = self.keep(shown);
        if done.is_ok() {
            self.disk = disk;
        }
        show::end(out, done)
    }

    fn motor<W: Write>(&mut self, out: &mut W, on: bool) -> io::Result<()> {
        write!(out, "motor {}", if on { "on" } else { "off" })?;
        let shown = self.floppy.set_motor(on);
        let done = self.keep(shown);
        show::end(out, done)
    }

    // A read of a port, over a lent controller or by value.
    fn read_once(&mut self, port: Port) -> Result<u8, Refusal> {
        let room = buffer::part(&self.transfer, 0, self.room);
        match (port, self.lent) {
            (Port::Data, true) => self.floppy.read_cmd(room),
            (Port::Status, true) => self.floppy.read_status(),
            (Port::Data, false) => {
                let shown = self.floppy.read_step(room);
                self.keep(shown)
            }
            (Port::Status, false) => {
                let shown = self.floppy.status_step();
                self.keep(shown)
            }
        }
    }

    // Reads a port so many times, or until it is refused; what that gave is heard.
    fn hear(&mut self, heard: &mut Heard, port: Port, times: usize) -> Result<(), Refusal> {
        for _ in 0..times {
            heard.add(self.read_once(port)?);
        }
        Ok(())
    }

    // Reads a port, and shows what that gave.
    fn read<W: Write>(&mut self, out: &mut W, port: Port, times: usize) -> io::Result<()> {
        let mut heard = Heard::nothing();
        let done = self.hear(&mut heard, port, times);
        heard.show(out)?;
        show::end(out, done)
    }

    // Sends a byte over as much of the buffers as is lent, likewise.
    fn send_once(&mut self, b: u8) -> Result<Report, Refusal> {
        let from = start_of(self.disk, TABLE);
        let to = from + self.table.min(TABLE);
        let start = start_of(self.disk, DATA);
        let stop = start + self.bytes.min(DATA);
        let tables = &mut self.tables[..];
        let table = &mut tables[from..to];
        let contents = &mut self.contents[..];
        let bytes = &mut contents[start..stop];
        let transfer = &mut self.transfer[..];
        let room = self.room.min(transfer.len());
        if self.lent {
            return self
                .floppy
                .write_cmd(b, table, bytes, &mut transfer[..room]);
        }
        let shown = self
            .floppy
            .write_step(b, table, bytes, &mut transfer[..room]);
        self.keep(shown)
    }

    // Sends bytes so many times, up to one that is refused.
    fn send_times(&mut self, text: &[u8], times: usize) -> Result<(), Stopped> {
        for rounds in 0..times {
            for (taken, b) in text.iter().enumerate() {
                if let Err(why) = self.send_once(*b) {
                    return Err(Stopped { rounds, taken, why });
                }
            }
        }
        Ok(())
    }

    fn send<W: Write>(&mut self, out: &mut W, times: usize, text: &[u8]) -> io::Result<()> {
        write!(out, "send {times} {}", text.len())?;
        show::bytes(out, text)?;
        let Err(stopped) = self.send_times(text, times) else {
            return show::end(out, Ok(()));
        };
        write!(out, " after {} {}", stopped.rounds, stopped.taken)?;
        show::end(out, Err(stopped.why))
    }

    // So much of a buffer is lent from now on: 1 the table, 2 the data, 3 the transfer buffer, by the number of the list, which is printed as it came.
    fn lend<W: Write>(&mut self, out: &mut W, which: usize, len: usize) -> io::Result<()> {
        match which {
            1 => self.table = len,
            2 => self.bytes = len,
            _ => self.room = len,
        }
        writeln!(out, "lend {which} {len}")
    }

    // A byte of the table of the disk in the drive is changed.
    fn set_table<W: Write>(&mut self, out: &mut W, at: usize, b: u8) -> io::Result<()> {
        if at < TABLE {
            let start = start_of(self.disk, TABLE);
            self.tables[start + at] = b;
        }
        writeln!(out, "table {at} {b}")
    }

    // A number of the controller is changed.
    fn set_number<W: Write>(&mut self, out: &mut W, which: usize, value: usize) -> io::Result<()> {
        let f = self.floppy;
        self.floppy = Floppy {
            regs: renumbered(f.regs, Changed::from(which), value),
            ..f
        };
        writeln!(out, "number {which} {value}")
    }

    // Keeps a controller that was read from a sheet, with the disk that was in.
    fn put_back(&mut self, read: Shown<()>) -> Result<(), Refusal> {
        self.keep(read)?;
        let shown = self.floppy.set_disk(self.disk.is_some());
        self.keep(shown)
    }

    // The controller is written out as a sheet and read back, and the disk that was in is put in again.
    fn pause<W: Write>(&mut self, out: &mut W) -> io::Result<()> {
        write!(out, "sheet")?;
        let transfer = &mut self.transfer[..];
        let room = self.room.min(transfer.len());
        let read = sheets::rewrite(out, self.floppy, &mut transfer[..room])?;
        let done = self.put_back(read);
        show::end(out, done)
    }

    // Bytes are read as a sheet, whose controller has no disk.
    fn resume<W: Write>(&mut self, out: &mut W, text: &[u8]) -> io::Result<()> {
        write!(out, "resume {}", text.len())?;
        show::bytes(out, text)?;
        let transfer = &mut self.transfer[..];
        let room = self.room.min(transfer.len());
        let read = sheet::read(self.floppy, text, &mut transfer[..room]);
        let done = self.keep(read);
        if done.is_ok() {
            write!(out, " done")?;
            self.disk = None;
        }
        show::end(out, done)
    }

    // Makes a call.
    pub(crate) fn make<W: Write>(
        &mut self,
        out: &mut W,
        kind: Kind,
        number: usize,
        text: &[u8],
    ) -> io::Result<()> {
        match kind {
            Kind::Put => self.put(out, number),
            Kind::Motor => self.motor(out, number == 1),
            Kind::Status => {
                write!(out, "status {number}")?;
                self.read(out, Port::Status, number)
            }
            Kind::Read => {
                write!(out, "read {number}")?;
                self.read(out, Port::Data, number)
            }
            Kind::Send => self.send(out, number, text),
            Kind::Ask => show::ask(out, self.floppy),
            Kind::Boxes => show::boxes(out, self.floppy, &self.transfer),
            Kind::Lend => self.lend(out, number, replay::number(text, 0)),
            Kind::Table => self.set_table(out, number, fields::byte(text, 0) as u8),
            Kind::Number => self.set_number(out, number, replay::number(text, 0)),
            Kind::Sheet => self.pause(out),
            Kind::Resume => self.resume(out, text),
        }
    }
}

// The calls of a script. Each makes the exported calls of `host` that it stands for, and prints what they answer.
use crate::file::Untaken;
use crate::line::Line;
use crate::message::at_word;
use crate::parse::Spare;
use crate::print::{ROW, answer, named, refusal, rows};
use crate::{file, show};
use std::io;
use std::rt::Files;

// What the host lends to its calls.
pub type Controller = [u8; layout::LENGTH];

pub type Table = [u8; store::TABLE];

pub type Content = [u8; fields::DATA];

pub type Transfer = [u8; fields::TRANSFER];

// What the host lends, how much of the transfer buffer it lends, and room for the bytes of one line.
#[derive(Drop)]
pub struct Bench {
    pub controller: Controller,
    pub table: Table,
    pub content: Content,
    pub transfer: Transfer,
    pub lent: usize,
    pub spare: Spare,
}

// The ports that are read.
#[derive(Clone, Copy)]
enum Port {
    Status,
    Data,
}

// The refusal that ended a call of several bytes: the place of the byte, counted from 1, and the word.
#[derive(Clone, Copy)]
struct Stopped {
    at: usize,
    word: u64,
}

// Says which refusal that was, with its place where the call was of several bytes.
fn refused(rt: &impl Print, stopped: Stopped, times: usize) -> io::Result<()> {
    match refusal(stopped.word) {
        Some(why) if times != 1 => println!(rt; "refused {why} at byte {}", stopped.at),
        _ => answer(rt, stopped.word),
    }
}

// The upper half of an answer word: how long what was written is, or where a sector's data begin.
fn upper(word: u64) -> usize {
    (word / 4294967296) as usize
}

// ---- the disk in the drive

impl Bench {
    // Puts a disk in, unless it was refused.
    fn insert(&mut self, rt: &impl Print, loaded: u64) -> io::Result<()> {
        if refusal(loaded).is_some() {
            return answer(rt, loaded);
        }
        answer(rt, host::floppy_set_disk(&mut self.controller, 1))
    }

    pub(crate) fn fresh(&mut self, rt: &impl Print) -> io::Result<()> {
        let loaded = host::disk_new_formatted(&mut self.table, &mut self.content);
        self.insert(rt, loaded)
    }

    pub(crate) fn load<R: Print + Files>(&mut self, rt: &R, line: Line<'_>) -> io::Result<()> {
        let count = match file::fetch(rt, line.operands(), &mut self.spare) {
            Ok(count) => count,
            Err(why) => {
                let long = " is too long; expected: an image of at most 2097152 bytes\n";
                return file::refuse(rt, line, why, long);
            }
        };
        let image = buffer::part(&self.spare, 0, count);
        let loaded = host::disk_new(image, &mut self.table, &mut self.content);
        self.insert(rt, loaded)
    }

    // Takes the disk out.
    pub(crate) fn remove(&mut self, rt: &impl Print) -> io::Result<()> {
        answer(rt, host::floppy_set_disk(&mut self.controller, 0))
    }
}

// ---- the controller

impl Bench {
    // Makes a new controller, with no disk in its drive.
    pub(crate) fn machine(&mut self, rt: &impl Print, setting: u8) -> io::Result<()> {
        answer(rt, host::floppy_new_with(&mut self.controller, setting))
    }

    pub(crate) fn motor(&mut self, rt: &impl Print, on: bool) -> io::Result<()> {
        answer(
            rt,
            host::floppy_set_motor(&mut self.controller, u8::from(on)),
        )
    }

    fn read_once(&mut self, port: Port) -> u64 {
        match port {
            Port::Status => host::floppy_read_status(&mut self.controller),
            Port::Data => {
                let room = buffer::part(&self.transfer, 0, self.lent);
                host::floppy_read_cmd(&mut self.controller, room)
            }
        }
    }

    // Reads a port so many times, or until it is refused; answers how many bytes that gave.
    fn reads(&mut self, port: Port, times: usize) -> (usize, Option<Stopped>) {
        for before in 0..times {
            let word = self.read_once(port);
            if refusal(word).is_some() {
                let at = before + 1;
                return (before, Some(Stopped { at, word }));
            }
            if let Some(place) = self.spare.get_mut(before) {
                *place = (word % 256) as u8;
            }
        }
        (times, None)
    }

    pub(crate) fn status(&mut self, rt: &impl Print, times: usize) -> io::Result<()> {
        let (count, stopped) = self.reads(Port::Status, times);
        let shown = buffer::part(&self.spare, 0, count);
        match count {
            0 => {}
            1 => rows(rt, "status", shown)?,
            _ => rows(rt, format_args!("status {count} times:"), shown)?,
        }
        match stopped {
            Some(stopped) => refused(rt, stopped, times),
            None => Ok(()),
        }
    }

    pub(crate) fn read(&mut self, rt: &impl Print, times: usize) -> io::Result<()> {
        let (count, stopped) = self.reads(Port::Data, times);
        let shown = buffer::part(&self.spare, 0, count);
        match count {
            0 => {}
            1..=ROW => rows(rt, "read:", shown)?,
            _ => rows(rt, format_args!("read {count} bytes:"), shown)?,
        }
        match stopped {
            Some(stopped) => refused(rt, stopped, times),
            None => Ok(()),
        }
    }

    // Sends so many of the line's bytes over as much of the transfer buffer as is lent, and answers the word of the last.
    fn send(&mut self, count: usize) -> Result<u64, Stopped> {
        let transfer = &mut self.transfer[..];
        let room = self.lent.min(transfer.len());
        let mut last = 0;
        for (before, b) in buffer::part(&self.spare, 0, count).iter().enumerate() {
            let word = host::floppy_write_cmd(
                &mut self.controller,
                &mut self.table,
                &mut self.content,
                &mut transfer[..room],
                *b,
            );
            if refusal(word).is_some() {
                let at = before + 1;
                return Err(Stopped { at, word });
            }
            last = word;
        }
        Ok(last)
    }

    pub(crate) fn write(&mut self, rt: &impl Print, count: usize) -> io::Result<()> {
        match self.send(count) {
            Ok(word) => answer(rt, word),
            Err(stopped) => refused(rt, stopped, count),
        }
    }

    // So much of the transfer buffer is lent from then on.
    pub(crate) fn lend(&mut self, rt: &impl Print, room: usize) -> io::Result<()> {
        self.lent = room;
        answer(rt, 0)
    }
}

// ---- files that are written

// Whether what a call wrote is kept in a file now; where it was refused or the file cannot be written, says so.
fn kept<R: Print + Files>(rt: &R, line: Line<'_>, written: u64, bytes: &[u8]) -> io::Result<bool> {
    if refusal(written).is_some() {
        answer(rt, written)?;
        return Ok(false);
    }
    let path = line.operands();
    if file::replace(rt, path, buffer::part(bytes, 0, upper(written))).is_ok() {
        return Ok(true);
    }
    let fault = " cannot be written; expected: a file in a folder that may be written\n";
    at_word(rt, line.number, path, fault)?;
    Ok(false)
}

impl Bench {
    // Writes the disk that is in as an extended image.
    pub(crate) fn home<R: Print + Files>(&mut self, rt: &R, line: Line<'_>) -> io::Result<()> {
        if self.lacks_disk(rt)? {
            return Ok(());
        }
        let written = host::disk_write_image(&self.table, &self.content, &mut self.spare);
        if kept(rt, line, written, &self.spare)? {
            println!(rt; "home {} bytes", upper(written))?;
        }
        Ok(())
    }

    pub(crate) fn pause<R: Print + Files>(&mut self, rt: &R, line: Line<'_>) -> io::Result<()> {
        let room = buffer::part(&self.transfer, 0, self.lent);
        let written = host::floppy_write_sheet(&self.controller, room, &mut self.spare);
        if kept(rt, line, written, &self.spare)? {
            answer(rt, 0)?;
        }
        Ok(())
    }

    // Reads a sheet over as much of the transfer buffer as is lent. It says nothing of the drive: what was in it stays there.
    fn take_up(&mut self, rt: &impl Print, count: usize) -> io::Result<()> {
        let present = host::floppy_disk(&self.controller);
        let sheet = buffer::part(&self.spare, 0, count);
        let transfer = &mut self.transfer[..];
        let room = self.lent.min(transfer.len());
        let read = host::floppy_read_sheet(&mut self.controller, &mut transfer[..room], sheet);
        if refusal(read).is_some() {
            return answer(rt, read);
        }
        answer(
            rt,
            host::floppy_set_disk(&mut self.controller, (present % 256) as u8),
        )
    }

    pub(crate) fn resume<R: Print + Files>(&mut self, rt: &R, line: Line<'_>) -> io::Result<()> {
        let spare = &mut self.spare[..];
        let most = (host::floppy_sheet_length() as usize).min(spare.len());
        match file::fetch(rt, line.operands(), &mut spare[..most]) {
            Ok(count) => self.take_up(rt, count),
            Err(why) => {
                let long = " is too long; expected: a sheet of at most 66615 bytes\n";
                file::refuse(rt, line, why, long)
            }
        }
    }
}

// ---- what the disk holds

impl Bench {
    // Whether no disk is in, which it then says.
    fn lacks_disk(&self, rt: &impl Print) -> io::Result<bool> {
        if host::floppy_disk(&self.controller) % 256 != 0 {
            return Ok(false);
        }
        println!(rt; "no disk")?;
        Ok(true)
    }

    pub(crate) fn geometry(&self, rt: &impl Print) -> io::Result<()> {
        if self.lacks_disk(rt)? {
            return Ok(());
        }
        let word = host::disk_geometry(&self.table, &self.content);
        if refusal(word).is_some() {
            return answer(rt, word);
        }
        println!(rt; "geometry {} {}", word % 256, word / 65536 % 256)
    }

    fn show_sector(&self, rt: &impl Print, found: u64) -> io::Result<()> {
        let count = (found % 65536) as usize;
        named(rt, found)?;
        let content = buffer::part(&self.content, upper(found), count);
        rows(rt, format_args!(", {count} bytes:"), content)
    }

    // The sector whose address stands in the first six bytes of the line's: side, cylinder, c, h, r and n.
    pub(crate) fn sector(&self, rt: &impl Print) -> io::Result<()> {
        if self.lacks_disk(rt)? {
            return Ok(());
        }
        let [side, cylinder, c, h, r, n, ..] = self.spare;
        let word = host::disk_has_sector(&self.table, &self.content, side, cylinder, c, h, r, n);
        if refusal(word).is_some() {
            return answer(rt, word);
        }
        if word % 256 == 0 {
            return println!(rt; "no such sector");
        }
        let found = host::disk_sector(&self.table, &self.content, side, cylinder, c, h, r, n);
        self.show_sector(rt, found)
    }

    pub(crate) fn disk(&self, rt: &impl Print) -> io::Result<()> {
        if self.lacks_disk(rt)? {
            return Ok(());
        }
        let word = host::disk_geometry(&self.table, &self.content);
        if refusal(word).is_some() {
            return answer(rt, word);
        }
        show::disk(rt, &self.table)
    }
}

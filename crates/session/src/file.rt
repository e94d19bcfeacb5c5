// Files: the bytes of one, and a new one that takes the place of an older.
ghost use Rattle.std.specs.Prelude.{◌<◌, ◌≤◌, length, IfOk};

use crate::line::Line;
use crate::message::at_word;
use std::fs::{OpenFile, OpenOptions};
use std::io::{Read, Write};
use std::os::unix::fs::OpenOptionsExt;
use std::rt::Files;
use std::{fs, io};

// So many names beside a file's own are tried, while each is taken.
const NAMES: u32 = 1000000;

// No name that the system takes is longer.
const LONGEST: usize = 4095;

// Why a file's bytes were not taken.
#[derive(Clone, Copy)]
pub enum Untaken {
    Unopened,
    Unread,
    Long,
}

// ---- reading

// A name as the system's calls are given it: one that is not UTF-8 is no file's.
fn name_of(path: &[u8]) -> io::Result<&str> {
    str::from_utf8(path).map_err(|_| io::Error::from(io::ErrorKind::InvalidInput))
}

fn open_read<R: Files>(rt: &R, path: &[u8]) -> io::Result<R::File> {
    fs::open(rt, name_of(path)?)
}

// Reads until the room is full or the file ends, and answers how many bytes it put at the start.
fn read_full(file: &mut impl Read, room: &mut [u8]) -> io::Result<usize>
    ensures { IfOk result (λ count. count ≤ length room.new) }
{
    let mut count = 0;
    // A read tells how many bytes it gave.
    while count < room.len() {
        let more = file.read(&mut room[count..])?;
        if more == 0 {
            return Ok(count);
        }
        count += more;
    }
    Ok(count)
}

// Takes the bytes of a file, none where it has more; the byte that is asked for behind them tells a long file and a failed read from the end.
fn take(file: &mut impl Read, room: &mut [u8]) -> io::Result<Option<usize>> {
    let count = read_full(file, room)?;
    let mut one = [0u8; 1];
    let more = file.read(&mut one)?;
    Ok((more == 0).then_some(count))
}

// Takes the bytes of a file that has no more than the room, and answers how many they are.
pub(crate) fn fetch<R: Files>(rt: &R, path: &[u8], room: &mut [u8]) -> Result<usize, Untaken> {
    let Ok(mut file) = open_read(rt, path) else {
        return Err(Untaken::Unopened);
    };
    match take(&mut file, room) {
        Ok(count) => count.ok_or(Untaken::Long),
        Err(_) => Err(Untaken::Unread),
    }
}

// Says why a file's bytes were not taken; of a long one, what is said is given.
pub(crate) fn refuse(rt: &impl Print, line: Line<'_>, why: Untaken, long: &str) -> io::Result<()> {
    let fault = match why {
        Untaken::Unopened => " cannot be opened; expected: a file that may be read\n",
        Untaken::Unread => " cannot be read; expected: a file of bytes\n",
        Untaken::Long => long,
    };
    at_word(rt, line.number, line.operands(), fault)
}

// ---- writing

// Makes a file under a name that no file has; its owner alone may read it.
fn create_new<R: Files>(rt: &R, name: &str) -> io::Result<R::File> {
    OpenOptions::new()
        .write(true)
        .create_new(true)
        .mode(0o600)
        .open(rt, name)
}

// Writes a file's bytes, waits until they have reached its device, and closes it.
fn fill(mut file: impl Write + OpenFile + Drop, bytes: &[u8]) -> io::Result<()> {
    file.write_all(bytes)?;
    file.sync_all()
}

// Fills a new file that has the name `beside`, and gives it its own name once it is whole; where that fails, takes it away again.
fn settle<R: Files>(
    rt: &R,
    file: R::File,
    beside: &str,
    name: &str,
    bytes: &[u8],
) -> io::Result<()> {
    let settled = fill(file, bytes).and_then(|()| fs::rename(rt, beside, name));
    if settled.is_err() {
        let _ = fs::remove_file(rt, beside);
    }
    settled
}

// Lays the name of a file beside the one that has a name; the system takes no name that is longer than the room.
fn beside<'a>(name: &str, number: u32, room: &'a mut [u8; LONGEST]) -> io::Result<&'a str> {
    let length = name.len() + 7;
    let mut rest: &mut [u8] = room;
    write!(rest, "{name}.{number:06}")?;
    name_of(buffer::part(room, 0, length))
}

// Puts a file with these bytes in the place of the one that has this name, or of none. Where it fails, that one is as it was.
pub(crate) fn replace<R: Files>(rt: &R, path: &[u8], bytes: &[u8]) -> io::Result<()> {
    let name = name_of(path)?;
    let mut room = [0; LONGEST];
    for number in 0..NAMES {
        let beside = beside(name, number, &mut room)?;
        match create_new(rt, beside) {
            Ok(file) => return settle(rt, file, beside, name, bytes),
            Err(why) if why.kind() == io::ErrorKind::AlreadyExists => {}
            Err(why) => return Err(why),
        }
    }
    Err(io::Error::from(io::ErrorKind::AlreadyExists))
}

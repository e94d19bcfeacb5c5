// What a line gets that no call was made for: its number, what is wrong and what is expected.
use crate::line;
use crate::line::Line;
use crate::parse::{Fault, Name, Wrong};
use std::{fmt, io};

// No more of a word is repeated.
const MOST_QUOTED: usize = 60;

// A letter as it is, and nothing that could command a terminal.
fn letter(b: u8) -> char {
    if b < 32 || 126 < b {
        '?'
    } else {
        char::from(b)
    }
}

// As much of a word as is repeated, in quotes.
#[derive(Clone, Copy)]
struct Quoted<'a>(&'a [u8]);

impl fmt::Display for Quoted<'_> {
    fn fmt<W: fmt::Write>(&self, f: &mut fmt::Formatter<W>) -> fmt::Result {
        write!(f, "'")?;
        for b in buffer::part(self.0, 0, MOST_QUOTED) {
            write!(f, "{}", letter(*b))?;
        }
        if MOST_QUOTED < self.0.len() {
            write!(f, "..")?;
        }
        write!(f, "'")
    }
}

// A word of a line, and what is wrong with it.
pub(crate) fn at_word(rt: &impl Print, number: u64, word: &[u8], fault: &str) -> io::Result<()> {
    print!(rt; "line {number}: {}{fault}", Quoted(word))
}

// How a line of this call is written.
fn form(name: Name) -> &'static str {
    match name {
        Name::Fresh => "fresh",
        Name::Load => "load FILE",
        Name::Out => "out",
        Name::Machine => "machine rust|datasheet",
        Name::Motor => "motor on|off",
        Name::Status => "status [N], N from 1 to 65536",
        Name::Write => "write HEX HEX .., each byte two hex digits",
        Name::Read => "read N, N from 1 to 65536",
        Name::Transfer => "transfer N, N from 0 to 65536",
        Name::Geometry => "geometry",
        Name::Sector => "sector SIDE CYLINDER C H R N, each from 0 to 255",
        Name::Disk => "disk",
        Name::Pause => "pause FILE",
        Name::Resume => "resume FILE",
        Name::Home => "home FILE",
    }
}

// What stands where no call's name does.
const NAMES: &str =
    "fresh, load, out, machine, motor, status, write, read, transfer, geometry, sector, disk, pause, resume or home";

// What is wrong with the words of a call.
fn unfit(rt: &impl Print, line: Line<'_>, fault: Fault) -> io::Result<()> {
    let number = line.number;
    match fault {
        Fault::Few => print!(rt; "line {number}: too few words"),
        Fault::Many => print!(rt; "line {number}: too many words"),
        Fault::Unfit(k) => {
            let word = line::word(line.operands(), k);
            at_word(rt, number, word, " does not fit")
        }
    }
}

pub(crate) fn wrong(rt: &impl Print, line: Line<'_>, wrong: Wrong) -> io::Result<()> {
    match wrong {
        Wrong::Unknown => {
            at_word(rt, line.number, line::word(line.text, 0), " is no call")?;
            println!(rt; "; expected: {NAMES}")
        }
        Wrong::Call(name, fault) => {
            unfit(rt, line, fault)?;
            println!(rt; "; expected: {}", form(name))
        }
    }
}

pub(crate) fn too_long(rt: &impl Print, number: u64) -> io::Result<()> {
    println!(rt; "line {number}: longer than 4096 bytes, the most that a line may have")
}

// What a line of a script asks for. No call is made here, so a line that is not understood changes nothing.
use crate::line;
use crate::line::{Line, Words};

// The first word of a line.
#[derive(Clone, Copy)]
pub enum Name {
    Fresh,
    Load,
    Out,
    Machine,
    Motor,
    Status,
    Write,
    Read,
    Transfer,
    Geometry,
    Sector,
    Disk,
    Pause,
    Resume,
    Home,
}

// What is wrong with the words behind a name. They are counted from 0.
#[derive(Clone, Copy)]
pub enum Fault {
    Few,
    Many,
    Unfit(usize),
}

// What is wrong with a line.
#[derive(Clone, Copy)]
pub enum Wrong {
    Unknown,
    Call(Name, Fault),
}

// A call, with what it sets, how often it is made, or how many bytes it names.
#[derive(Clone, Copy)]
pub enum Call {
    Fresh,
    Load,
    Out,
    Machine(u8),
    Motor(bool),
    Status(usize),
    Write(usize),
    Read(usize),
    Transfer(usize),
    Geometry,
    Sector,
    Disk,
    Pause,
    Resume,
    Home,
}

// Bytes of one line: those that it names, those that it reads, or those of its file, which may be no longer.
pub type Spare = [u8; 2097152];

fn name_of(word: &[u8]) -> Option<Name> {
    match word {
        b"fresh" => Some(Name::Fresh),
        b"load" => Some(Name::Load),
        b"out" => Some(Name::Out),
        b"machine" => Some(Name::Machine),
        b"motor" => Some(Name::Motor),
        b"status" => Some(Name::Status),
        b"write" => Some(Name::Write),
        b"read" => Some(Name::Read),
        b"transfer" => Some(Name::Transfer),
        b"geometry" => Some(Name::Geometry),
        b"sector" => Some(Name::Sector),
        b"disk" => Some(Name::Disk),
        b"pause" => Some(Name::Pause),
        b"resume" => Some(Name::Resume),
        b"home" => Some(Name::Home),
        _ => None,
    }
}

// How many words stand behind this name at least, and at most.
fn operand_counts(name: Name) -> (usize, usize) {
    match name {
        Name::Fresh | Name::Out | Name::Geometry | Name::Disk => (0, 0),
        Name::Load | Name::Write | Name::Pause | Name::Resume | Name::Home => (1, usize::MAX),
        Name::Machine | Name::Motor | Name::Read | Name::Transfer => (1, 1),
        Name::Status => (0, 1),
        Name::Sector => (6, 6),
    }
}

fn switch(word: &[u8]) -> Option<bool> {
    match word {
        b"off" => Some(false),
        b"on" => Some(true),
        _ => None,
    }
}

// Which machine, as the setting that a controller is made with.
fn machine(word: &[u8]) -> Option<u8> {
    match word {
        b"rust" => Some(0),
        b"datasheet" => Some(1),
        _ => None,
    }
}

// One number, no less than the least.
fn number(word: &[u8], least: usize) -> Option<usize> {
    line::number(word).filter(|n| least <= *n)
}

// A byte, written as a decimal number.
fn decimal(word: &[u8]) -> Option<u8> {
    u8::try_from(line::number(word)?).ok()
}

// Lays out the bytes that are named by these words, as `byte` reads them, and answers how many they are.
fn list<F: Fn(&[u8]) -> Option<u8>>(
    operands: &[u8],
    byte: F,
    spare: &mut Spare,
) -> Result<usize, Fault>
    requires { F.IsAlwaysCallable byte }
{
    let mut count = 0;
    for (k, word) in Words(operands).enumerate() {
        let Some(b) = byte(word) else {
            return Err(Fault::Unfit(k));
        };
        let Some(place) = spare.get_mut(k) else {
            return Ok(count);
        };
        *place = b;
        count = k + 1;
    }
    Ok(count)
}

// The call whose words are neither too few nor too many.
fn fitted(name: Name, operands: &[u8], spare: &mut Spare) -> Result<Call, Fault> {
    let first = line::word(operands, 0);
    let call = match name {
        Name::Fresh => Some(Call::Fresh),
        Name::Load => Some(Call::Load),
        Name::Out => Some(Call::Out),
        Name::Machine => machine(first).map(Call::Machine),
        Name::Motor => switch(first).map(Call::Motor),
        Name::Status if first.is_empty() => Some(Call::Status(1)),
        Name::Status => number(first, 1).map(Call::Status),
        Name::Write => Some(Call::Write(list(operands, line::byte, spare)?)),
        Name::Read => number(first, 1).map(Call::Read),
        Name::Transfer => number(first, 0).map(Call::Transfer),
        Name::Geometry => Some(Call::Geometry),
        Name::Sector => {
            list(operands, decimal, spare)?;
            Some(Call::Sector)
        }
        Name::Disk => Some(Call::Disk),
        Name::Pause => Some(Call::Pause),
        Name::Resume => Some(Call::Resume),
        Name::Home => Some(Call::Home),
    };
    call.ok_or(Fault::Unfit(0))
}

// The call with this name.
fn call_of(name: Name, operands: &[u8], spare: &mut Spare) -> Result<Call, Fault> {
    let count = Words(operands).count();
    let (least, most) = operand_counts(name);
    if count < least {
        return Err(Fault::Few);
    }
    if most < count {
        return Err(Fault::Many);
    }
    fitted(name, operands, spare)
}

// Reads a line; nothing where it is blank or a comment.
pub(crate) fn parse(line: Line<'_>, spare: &mut Spare) -> Result<Option<Call>, Wrong> {
    let Some(first) = Words(line.text).next() else {
        return Ok(None);
    };
    if first.starts_with(b"#") {
        return Ok(None);
    }
    let name = name_of(first).ok_or(Wrong::Unknown)?;
    match call_of(name, line.operands(), spare) {
        Ok(call) => Ok(Some(call)),
        Err(fault) => Err(Wrong::Call(name, fault)),
    }
}

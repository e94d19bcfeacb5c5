// Output: each text goes to standard output at once, so that an operator sees every answer as it comes.
use replay::Hex;
use std::{fmt, io};

// How many bytes of hex stand in a row.
pub const ROW: usize = 16;

// Bytes in hex behind what they are: on its line where they are few, else in rows under it, each behind its offset.
pub(crate) fn rows(
    rt: &impl Print,
    what: impl fmt::Display + Drop,
    bytes: &[u8],
) -> io::Result<()> {
    if bytes.len() <= ROW {
        return println!(rt; "{what}{}", Hex::Upper(bytes));
    }
    println!(rt; "{what}")?;
    for (k, row) in bytes.chunks(ROW).enumerate() {
        println!(rt; "{:5}:{}", ROW * k, Hex::Upper(row))?;
    }
    Ok(())
}

// The number of the refusal in an answer word, where there is one.
pub(crate) fn refusal(word: u64) -> Option<u64> {
    match word / 256 % 256 {
        0 => None,
        why => Some(why),
    }
}

// The place in its track of the sector that a word names, 0 where it names none.
fn place(word: u64) -> u64 {
    word / 65536 % 256
}

// That sector: its place, and how many of the track bear its ID.
pub(crate) fn named(rt: &impl Print, word: u64) -> io::Result<()> {
    print!(rt;
        "sector {} of {} with this ID",
        place(word),
        word / 16777216 % 256
    )
}

// That a call was good, and the sector that it names, where it names one.
fn good(rt: &impl Print, word: u64) -> io::Result<()> {
    if place(word) == 0 {
        return println!(rt; "ok");
    }
    print!(rt; "ok, ")?;
    named(rt, word)?;
    println!(rt)
}

// The answer of a call that answers no byte.
pub(crate) fn answer(rt: &impl Print, word: u64) -> io::Result<()> {
    match refusal(word) {
        Some(why) => println!(rt; "refused {why}"),
        None => good(rt, word),
    }
}

// The walk over an image: what it holds in all, and then each track.
ghost use Rattle.std.specs.Prelude.{◌≡◌, ◌≤◌, ◌<◌, drop};
ghost use Rattle.image.specs.Dsk.{image_kind, header_of, entries, table_end, entry_of};
ghost use Rattle.image.specs.Calls.{opened_of, step_of, tracks_left, totals_from, survey_of};

use fields::{Refusal, byte, read_string, word};
use tracks::{Head, Kind, read_track};

// How far a walk has come: the next entry, how many there are, and where the next track stands.
#[derive(Clone, Copy)]
pub struct Walk {
    pub kind: Kind,
    pub entry: usize,
    pub entries: usize,
    pub at: usize,
}

// How much an image holds.
#[derive(Clone, Copy, PartialEq, Eq)]
pub struct Totals {
    pub tracks: usize,
    pub sectors: usize,
    pub bytes: usize,
}

// What a walk meets: no further entry, one without a track, or a track; and the walk behind it. Three cases, of which none is a refusal.
#[derive(Clone, Copy)]
pub enum Step {
    End,
    Absent(Walk),
    Track(Head, Walk),
}

// The kind that an image's first 12 bytes name.
fn read_signature(image: &[u8]) -> Result<Kind, Refusal>
    ensures { result ≡ image_kind image.now }
{
    if read_string(image, 0, b"EXTENDED CPC")? {
        return Ok(Kind::Extended);
    }
    if read_string(image, 0, b"MV - CPC")? {
        return Ok(Kind::Normal);
    }
    Err(Refusal::NotAnImage)
}

// Where the table of an image's disk block ends.
fn table_end(kind: Kind, entries: usize) -> usize
    requires { entries < 65536 }
    ensures { result ≡ table_end kind entries }
{
    match kind {
        Kind::Normal => 0x34,
        Kind::Extended => 0x34 + entries,
    }
}

// Reads an image's disk block: a walk at the first entry of its table, or why the image is refused.
pub fn open(image: &[u8]) -> Result<Walk, Refusal>
    ensures { result ≡ opened_of image.now (header_of image.now) }
{
    let kind = read_signature(image)?;
    let entries = entries_of(image);
    if image.len() < table_end(kind, entries) {
        return Err(Refusal::ShortImage);
    }
    Ok(Walk {
        kind,
        entry: 0,
        entries,
        at: 0x100,
    })
}

// How many entries the table of an image has: tracks times sides.
fn entries_of(image: &[u8]) -> usize
    ensures { (result ≡ entries image.now) × (result ≤ 65025) }
{
    let tracks = byte(image, 0x30);
    let sides = byte(image, 0x31);
    tracks * sides
}

// How many bytes the track of an entry takes, if there is one.
fn entry_of(kind: Kind, image: &[u8], entry: usize) -> Option<u16>
    ensures { result ≡ entry_of kind image.now entry }
{
    match kind {
        Kind::Normal => Some(word(image, 0x32) as u16),
        Kind::Extended => {
            let size = byte(buffer::tail(image, 0x34), entry);
            if size == 0 {
                return None;
            }
            Some((256 * size) as u16)
        }
    }
}

impl Walk {
    // The image from the next track on.
    pub fn block<'a>(self, image: &'a [u8]) -> &'a [u8]
        ensures { result.now ≡ drop self.at image.now }
    {
        buffer::tail(image, self.at)
    }

    // Reads the next entry of the table and the track that it stands for.
    pub fn step(self, image: &[u8]) -> Result<Step, Refusal>
        ensures { result ≡ step_of image.now self }
    {
        if self.entries <= self.entry {
            return Ok(Step::End);
        }
        let rest = Walk {
            entry: self.entry + 1,
            ..self
        };
        let Some(size) = entry_of(self.kind, image, self.entry) else {
            return Ok(Step::Absent(rest));
        };
        let head = read_track(self.kind, self.block(image))?;
        Ok(Step::Track(
            head,
            Walk {
                at: self.at + (size as usize),
                ..rest
            },
        ))
    }
}

// How much the tracks that a walk has still to hand out hold.
fn totals_of(image: &[u8], start: Walk) -> Result<Totals, Refusal>
    requires { start.entries ≤ 65025 }
    ensures { result ≡ totals_from (tracks_left image.now start) }
{
    let mut walk = start;
    let mut totals = Totals {
        tracks: 0,
        sectors: 0,
        bytes: 0,
    };
    // A step tells that the walk has ended.
    loop {
        match walk.step(image)? {
            Step::End => return Ok(totals),
            Step::Absent(rest) => walk = rest,
            Step::Track(head, rest) => {
                totals.tracks += 1;
                totals.sectors += head.sectors as usize;
                totals.bytes += head.stored as usize;
                walk = rest;
            }
        }
    }
}

// Reads an image through: why it is refused, or how much it holds, and the walk over it.
pub fn survey(image: &[u8]) -> Result<(Totals, Walk), Refusal>
    ensures { result ≡ survey_of image.now }
{
    let walk = open(image)?;
    let totals = totals_of(image, walk)?;
    Ok((totals, walk))
}

// Takes a script's lines from standard input, of which a piece is read at a time.
use std::io;
use std::io::Read;

// A line, with a byte to spare that tells one that is too long.
pub type Space = [u8; 4097];

// A stream that is read by pieces into room of its own: no memory is asked for, and no more is read ahead than one piece.
#[derive(Drop)]
pub struct Script<R> {
    reader: R,
    piece: [u8; 4096],
    at: usize,
    end: usize,
}

impl<R: Read + Drop> Script<R> {
    pub fn new(reader: R) -> Script<R> {
        Script {
            reader,
            piece: [0; 4096],
            at: 0,
            end: 0,
        }
    }

    // The next byte, none where the stream is over; the next piece is read where this one is taken.
    fn next(&mut self) -> io::Result<Option<u8>> {
        if self.at == self.end {
            self.at = 0;
            self.end = self.reader.read(&mut self.piece)?;
            if self.end == 0 {
                return Ok(None);
            }
        }
        let b = self.piece.get(self.at).copied();
        self.at = self.at.saturating_add(1);
        Ok(b)
    }

    // Takes a line, of a longer one as much as there is room for; a last one may have no newline. None where the input is over.
    pub(crate) fn take_line<'a>(&mut self, line: &'a mut Space) -> io::Result<Option<&'a [u8]>> {
        let mut len = 0;
        for _ in 0..u64::MAX {
            let Some(b) = self.next()? else {
                break;
            };
            if b == b'\n' {
                return Ok(Some(buffer::part(line, 0, len)));
            }
            if len < line.len() {
                line[len] = b;
                len += 1;
            }
        }
        Ok((len != 0).then_some(buffer::part(line, 0, len)))
    }
}

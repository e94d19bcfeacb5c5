// The list of sessions, as it is taken from standard input.
use replay::Fault;
use std::io::Read;

// Room for the parts of a session: its name, the images of its two disks, and its calls.
#[derive(Drop)]
pub struct List {
    pub name: [u8; 256],
    pub a: [u8; 65536],
    pub b: [u8; 65536],
    pub calls: [u8; 65536],
}

// Those parts, as long as they are.
#[derive(Clone, Copy)]
pub struct Session<'a> {
    pub name: &'a [u8],
    pub a: &'a [u8],
    pub b: &'a [u8],
    pub calls: &'a [u8],
}

// Takes a part that follows a session's name.
fn take_part<R: Read>(input: &mut R, room: &mut [u8]) -> Result<usize, Fault> {
    replay::take_chunk(input, 4, room)?.ok_or(Fault::Broken)
}

impl List {
    // Takes the next session; none where the list ends.
    pub(crate) fn take<R: Read>(&mut self, input: &mut R) -> Result<Option<Session<'_>>, Fault> {
        let Some(name) = replay::take_chunk(input, 1, &mut self.name)? else {
            return Ok(None);
        };
        let a = take_part(input, &mut self.a)?;
        let b = take_part(input, &mut self.b)?;
        let calls = take_part(input, &mut self.calls)?;
        Ok(Some(Session {
            name: buffer::part(&self.name, 0, name),
            a: buffer::part(&self.a, 0, a),
            b: buffer::part(&self.b, 0, b),
            calls: buffer::part(&self.calls, 0, calls),
        }))
    }
}

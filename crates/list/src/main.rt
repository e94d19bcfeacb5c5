// The listing program: reads an image from standard input and prints what it holds.
#![tactic(auto)]

ghost use Rattle.std.specs.Prelude.{◌≤◌, length, IfOk};

use std::io;
use std::io::{Read, Write};

// One byte more than an image may have, so that a longer one shows.
const READ: usize = 65537;

// Reads until a buffer is full or the input ends; answers how many bytes that were. `session` has the same for a file: the two stand on no
// common crate that reads.
fn read_full<R: Read>(input: &mut R, buf: &mut [u8]) -> io::Result<usize>
    ensures { IfOk result (λ n. n ≤ length buf.new) }
{
    let mut done = 0;
    // A read tells how many bytes it gave.
    while done < buf.len() {
        let n = input.read(&mut buf[done..])?;
        if n == 0 {
            return Ok(done);
        }
        done += n;
    }
    Ok(done)
}

fn main(rt: HostRuntime) -> io::Result<()> {
    let mut input = [0; READ];
    let mut out = [0; listing::MOST];
    let n = read_full(&mut rt.reader(), &mut input)?;
    let end = listing::listing(&input[..n], &mut out);
    io::writer(&rt).write_all(buffer::part(&out, 0, end))
}

// Moving bytes inside a slice: a part to another place, and two neighbouring blocks that change places.
ghost use Rattle.std.specs.Prelude.{◌≡◌, ◌+◌, ◌-◌, ◌≤◌, ◌++◌, length};
ghost use Rattle.std.proofs.Math.Seq.{slice};
ghost use Rattle.buffer.specs.Over.{over};

// How many bytes `exchange` keeps aside at a time.
const CHUNK: usize = 8192;

// Moves the bytes of [from, end) to `to`, up or down; where they stand there, no byte is touched.
pub fn shift(buf: &mut [u8], from: usize, to: usize, end: usize)
    requires { (from ≤ end) × ((end ≤ length buf.old) × (to + (end - from) ≤ length buf.old)) }
    ensures { buf.new ≡ over buf.old to (slice from end buf.old) }
{
    if to == from {
        return;
    }
    buf.copy_within(from..end, to);
}

// Swaps the neighbouring blocks [a, m) and [m, b), of which the second fits `chunk`.
fn hop(buf: &mut [u8], a: usize, m: usize, b: usize, chunk: &mut [u8])
    requires a_le_m { (a ≤ m) × ((m ≤ b) × (b ≤ length buf.old)) }
    requires m_in_bounds { b - m ≤ length chunk.old }
    ensures { buf.new ≡ over buf.old a (slice m b buf.old ++ slice a m buf.old) }
{
    let count = b - m;
    crate::copy_in(chunk, 0, &buf[m..b]);
    shift(buf, a, a + count, m);
    crate::copy_in(buf, a, &chunk[..count]);
}

// Swaps the neighbouring blocks [a, m) and [m, b), a chunk of the second at a time: `rotate_left` takes three times as long
// (docs/SPEED.md).
pub fn exchange(buf: &mut [u8], a: usize, m: usize, b: usize)
    requires { (a ≤ m) × ((m ≤ b) × (b ≤ length buf.old)) }
    ensures { buf.new ≡ over buf.old a (slice m b buf.old ++ slice a m buf.old) }
{
    if m <= a {
        return;
    }
    if b <= m {
        return;
    }
    let mut space = [0u8; CHUNK];
    let chunk: &mut [u8] = &mut space;
    let mut low = a;
    let mut mid = m;
    while mid < b {
        let t = (b - mid).min(CHUNK);
        hop(buf, low, mid, mid + t, chunk);
        low += t;
        mid += t;
    }
}

// The operations on byte slices that every crate above uses: copy, fill, compare, parts, and moves inside one.
#![tactic(auto)]

mod moves;

ghost use Rattle.std.specs.Prelude.{◌≡◌, ◌+◌, ◌≤◌, length, take, drop, replicate};
ghost use Rattle.buffer.specs.Over.{over};
ghost use Rattle.buffer.specs.Same.{same_bytes};

pub use moves::{exchange, shift};

// Lays `src` over `dst` from index `at`. Byte by byte: most of what is laid is short, and with `copy_from_slice` the library for C
// would ask for `memmove` from outside.
pub fn copy_in(dst: &mut [u8], at: usize, src: &[u8])
    requires { at + length src.now ≤ length dst.old }
    ensures { dst.new ≡ over dst.old at src.now }
{
    for i in 0..src.len() {
        dst[at + i] = src[i];
    }
}

// Writes `value` at `count` places from index `at`.
pub fn fill(dst: &mut [u8], at: usize, count: usize, value: u8)
    requires { at + count ≤ length dst.old }
    ensures { dst.new ≡ over dst.old at (replicate count value) }
{
    dst[at..at + count].fill(value);
}

// Whether two slices hold the same bytes.
pub fn same(a: &[u8], b: &[u8]) -> bool
    ensures { result ≡ same_bytes a.now b.now }
{
    if a.len() != b.len() {
        return false;
    }
    // All of them, with no early exit (docs/DECISIONS.md, 15).
    let mut alike = true;
    for i in 0..a.len() {
        alike = alike & (a[i] == b[i]);
    }
    alike
}

// Everything from `from` on, which is nothing where the slice ends first.
pub fn tail<'a>(s: &'a [u8], from: usize) -> &'a [u8]
    ensures { result.now ≡ drop from s.now }
{
    &s[from.min(s.len())..]
}

// The `count` bytes from `from`, fewer where the slice ends first.
pub fn part<'a>(s: &'a [u8], from: usize, count: usize) -> &'a [u8]
    ensures { result.now ≡ take count (drop from s.now) }
{
    let rest = tail(s, from);
    &rest[..count.min(rest.len())]
}

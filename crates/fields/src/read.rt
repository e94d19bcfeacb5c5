// The byte readers: little-endian numbers and a text at a place of a slice. A short input is refused.
ghost use Rattle.std.specs.Prelude.{◌≡◌, ◌+◌, ◌<◌, ◌≤◌, ◌↔◌, ◌^◌, length, IsOk, IfErr};
ghost use Rattle.fields.specs.declared.refusal.Refusal.TheVariants.{ShortImage};
ghost use Rattle.fields.specs.Bytes.{byte_at, number_at, read_number, read_string};

use crate::refusal::Refusal;

// The byte at a place as a number, 0 past the end.
pub fn byte(s: &[u8], at: usize) -> usize
    ensures { (result ≡ byte_at s.now at) × (result < 256) }
{
    if at < s.len() {
        return s[at] as usize;
    }
    0
}

// The number in two bytes that are there, low byte first.
pub fn word_at(s: &[u8], at: usize) -> usize
    requires { at + 1 < length s.now }
    ensures { (result ≡ number_at 2 s.now at) × (result < 65536) }
{
    s[at] as usize + 256 * (s[at + 1] as usize)
}

// The number in two bytes, low byte first. Where the second is past the end, it is the first alone.
pub fn word(s: &[u8], at: usize) -> usize
    requires { at + 1 < 2 ^ 64 }
    ensures { (result ≡ number_at 2 s.now at) × (result < 65536) }
{
    if at + 1 < s.len() {
        return word_at(s, at);
    }
    byte(s, at)
}

// Refuses a slice that ends before `width` bytes from `at`.
fn reach(s: &[u8], at: usize, width: usize) -> Result<(), Refusal>
    ensures fits { IsOk result ↔ (at + width ≤ length s.now) }
    ensures short { IfErr result (λ why. why ≡ ShortImage) }
{
    if s.len() < width || s.len() - width < at {
        return Err(Refusal::ShortImage);
    }
    Ok(())
}

// A reader for each width, as document 01 names them; each answers a number of its own type.

pub fn read_u8(s: &[u8], at: usize) -> Result<u8, Refusal>
    ensures { result ≡ read_number 1 s.now at }
{
    reach(s, at, 1)?;
    Ok(byte(s, at) as u8)
}

pub fn read_u16(s: &[u8], at: usize) -> Result<u16, Refusal>
    ensures { result ≡ read_number 2 s.now at }
{
    reach(s, at, 2)?;
    Ok(word(s, at) as u16)
}

pub fn read_u32(s: &[u8], at: usize) -> Result<u32, Refusal>
    ensures { result ≡ read_number 4 s.now at }
{
    reach(s, at, 4)?;
    let low = word(s, at);
    let high = word(s, at + 2);
    Ok((low + 65536 * high) as u32)
}

// Compares the bytes at a place with a text.
pub fn read_string(s: &[u8], at: usize, text: &[u8]) -> Result<bool, Refusal>
    ensures { result ≡ read_string text.now s.now at }
{
    reach(s, at, text.len())?;
    let here = buffer::part(s, at, text.len());
    Ok(buffer::same(here, text))
}

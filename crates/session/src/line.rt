// The words of a line, and the numbers and bytes that they name.
ghost use Rattle.std.specs.Prelude.{◌≤◌, ◌<◌, length, IfSome};
ghost use Rattle.std.specs.Iterator.{at_most};

// No number of a script is larger.
const MOST: usize = 65536;

// A CR is blank, so that one at the end of a line counts for nothing.
fn is_blank(b: u8) -> bool {
    b == b' ' || b == b'\t' || b == b'\r'
}

// The words of a line that are still to be taken.
#[derive(Clone, Copy)]
pub struct Words<'a>(pub &'a [u8]);

impl<'a> Iterator for Words<'a> {
    type Item = &'a [u8];

    ghost remaining = { λ s. at_most (length s.0.now) };

    fn next(&mut self) -> Option<&'a [u8]> {
        let from = self.0.iter().position(|b| !is_blank(*b))?;
        let (_, letters) = self.0[from..].split_first()?;
        let more = letters.iter().position(|b| is_blank(*b));
        let len = more.unwrap_or(letters.len());
        let word = &self.0[from..from + 1 + len];
        self.0 = &letters[len..];
        Some(word)
    }
}

// A line of a script, with its number.
#[derive(Clone, Copy)]
pub struct Line<'a> {
    pub number: u64,
    pub text: &'a [u8],
}

impl<'a> Line<'a> {
    // What stands behind the name of the call, as it stands: a file's name may have blanks inside.
    pub(crate) fn operands(self) -> &'a [u8] {
        rest(self.text)
    }
}

// A word by its number from 0, empty where there are not so many.
pub(crate) fn word<'a>(line: &'a [u8], number: usize) -> &'a [u8] {
    Words(line).nth(number).unwrap_or(b"")
}

// Behind the last byte that is not blank.
fn end(line: &[u8]) -> usize {
    line.iter()
        .rposition(|b| !is_blank(*b))
        .map_or(0, |k| k + 1)
}

// All behind the first word but blanks at both ends.
fn rest<'a>(line: &'a [u8]) -> &'a [u8] {
    let mut words = Words(line);
    let _ = words.next();
    let kept = buffer::part(words.0, 0, end(words.0));
    let from = kept
        .iter()
        .position(|b| !is_blank(*b))
        .unwrap_or(kept.len());
    buffer::tail(kept, from)
}

// What a digit of this radix counts.
fn digit(b: u8, radix: u32) -> Option<usize>
    requires { (2 ≤ radix) × (radix ≤ 36) }
    ensures { IfSome result (λ d. d < radix) }
{
    let d = char::from(b).to_digit(radix)?;
    Some(d as usize)
}

// A decimal number up to MOST.
pub(crate) fn number(word: &[u8]) -> Option<usize> {
    if word.is_empty() {
        return None;
    }
    let mut n: usize = 0;
    for b in word {
        n = 10 * n + digit(*b, 10)?;
        if MOST < n {
            return None;
        }
    }
    Some(n)
}

// A byte of two hex digits.
pub(crate) fn byte(word: &[u8]) -> Option<u8> {
    let [high, low] = word else {
        return None;
    };
    Some((16 * digit(*high, 16)? + digit(*low, 16)?) as u8)
}

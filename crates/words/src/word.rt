// The answer word of each kind of answer.
ghost use Rattle.std.specs.Prelude.{◌≡◌, ℕ, ◌<◌};
ghost use Rattle.words.specs.Words.{refusal_word, answer_word, bool_word, match_word, report_word, found_word, sides_word, length_word};

use fields::Refusal;
use registers::Report;
use store::{Geometry, Match};

// What an exported call answers with, as the word that tells it.
pub trait Word {
    ghost word: { Self → ℕ };

    fn word(self) -> u64
        ensures { result ≡ word self };
}

impl Word for u8 {
    ghost word = { λ b. b };

    fn word(self) -> u64 {
        u64::from(self)
    }
}

impl Word for bool {
    ghost word = { bool_word };

    fn word(self) -> u64 {
        self as u64
    }
}

// Nothing is answered.
impl Word for () {
    ghost word = { λ done. 0 };

    fn word(self) -> u64 {
        0
    }
}

impl Word for Report {
    ghost word = { report_word };

    fn word(self) -> u64 {
        match_word(self.sector)
    }
}

// Whether there is a sector, and which.
impl Word for Option<Match> {
    ghost word = { found_word };

    fn word(self) -> u64 {
        match self {
            Some(m) => 1 + match_word(m),
            None => 0,
        }
    }
}

impl Word for Geometry {
    ghost word = { sides_word };

    fn word(self) -> u64 {
        u64::from(self.c0) + 65536 * u64::from(self.c1)
    }
}

// A length.
impl Word for u32 {
    ghost word = { length_word };

    fn word(self) -> u64 {
        4294967296 * u64::from(self)
    }
}

pub fn refusal_word(why: Refusal) -> u64
    ensures { result ≡ refusal_word why }
{
    256 * u64::from(why.number())
}

// Which sector was served, in bits 16 to 31.
pub fn match_word(m: Match) -> u64
    ensures { (result ≡ match_word m) × (result < 4294967296) }
{
    u64::from(m.place) * 65536 + u64::from(m.count) * 16777216
}

// The word of an answer, or of its refusal.
pub fn answer_word<T: Word>(answer: Result<T, Refusal>) -> u64
    ensures { result ≡ answer_word T.word answer }
{
    match answer {
        Ok(v) => v.word(),
        Err(why) => refusal_word(why),
    }
}

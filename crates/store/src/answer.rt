// What the public calls answer.
ghost use Rattle.std.specs.Prelude.{◌≡◌};
ghost use Rattle.store.specs.Search.{no_match};

// Which sector a search serves: its place in the track, from 1, and how many sectors of the track bear its ID; 0 and 0 where there is none:
// the word for a host has both numbers always, and so no `Option` (docs/DECISIONS.md, 87).
#[derive(Clone, Copy, PartialEq, Eq)]
pub struct Match {
    pub place: u8,
    pub count: u8,
}

impl Match {
    pub fn none() -> Match
        ensures { result ≡ no_match }
    {
        Match { place: 0, count: 0 }
    }
}

// The greatest cylinder of side 0, and of all other sides.
#[derive(Clone, Copy, PartialEq, Eq)]
pub struct Geometry {
    pub c0: u8,
    pub c1: u8,
}

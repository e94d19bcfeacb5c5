// What the public calls answer.
ghost use Rattle.std.specs.Prelude.{◌≡◌};
ghost use Rattle.disk.specs.Calls.{end_of};

use fields::{St1, St2};
use store::Match;

// What a read put into the transfer buffer: how many bytes, how many the sizes by n would be, the first sector's status bytes, and which of its track it is.
#[derive(Clone, Copy)]
pub struct Served {
    pub total: usize,
    pub sizes: usize,
    pub st1: St1,
    pub st2: St2,
    pub sector: Match,
}

impl Served {
    // What Read Data replies as st1: the first sector's, with the end of the cylinder where all is as long as n says, else with an overrun.
    #[tactic(auto, using(std::proofs::lemmas::Bool::Decides::nat_tests), unfolding(crate::specs::Calls::end_of, fields::specs::Bytes::with_bit))]
    pub fn end_st1(self) -> u8
        ensures { result ≡ end_of self.total self.sizes self.st1.bits }
    {
        let bits = self.st1.bits;
        if self.total == self.sizes {
            if bits / 128 % 2 == 1 {
                return bits;
            }
            return bits + St1::END_OF_CYLINDER;
        }
        if bits / 16 % 2 == 1 {
            return bits;
        }
        bits + St1::OVERRUN
    }
}

// The listing of an image: its text is the definition in `specs/Text.antt`.
#![tactic(auto)]

mod text;

ghost use Rattle.std.specs.Prelude.{◌≡◌, length};
ghost use Rattle.buffer.specs.Over.{over};
ghost use Rattle.listing.specs.Text.{printed};
ghost use Rattle.listing.specs.Lines.{Judged};

use fields::Refusal;
use image::{Totals, Walk};
use text::{put_disk, put_refusal, put_tracks};

// No longer input is listed.
const INPUT: usize = 65536;

// More bytes no listing has: a line for the disk, 204 for tracks and 2,048 for sectors.
pub const MOST: usize = 98304;

// How much an image that is listed holds, and the walk over it; or why the image is refused.
fn judge(input: &[u8]) -> Result<(Totals, Walk), Refusal>
    ensures { Judged input.now result }
{
    if INPUT < input.len() {
        return Err(Refusal::LongInput);
    }
    let (totals, walk) = image::survey(input)?;
    if fields::TRACKS < totals.tracks {
        return Err(Refusal::TooManyTracks);
    }
    if fields::SECTORS < totals.sectors {
        return Err(Refusal::TooManySectors);
    }
    Ok((totals, walk))
}

// Lays what the listing program prints for an input from the start of `out`, and answers how many bytes that is.
pub fn listing(input: &[u8], out: &mut [u8; MOST]) -> usize
    ensures { (result ≡ length (printed input.now))
        × (out.new ≡ over out.old 0 (printed input.now)) }
{
    match judge(input) {
        Err(why) => put_refusal(out, why),
        Ok((totals, walk)) => {
            let at = put_disk(out, walk.kind, totals);
            put_tracks(out, at, input, walk)
        }
    }
}

// The pass that judges and measures: whether a store keeps the layout, whether its disk can be written, and how long the image is.
ghost use Rattle.std.specs.Prelude.{◌≡◌, ◌+◌, ◌*◌, ◌≤◌, ◌<◌};
ghost use Rattle.store.specs.Store.{disk_of};
ghost use Rattle.home.specs.Home.{units};
ghost use Rattle.home.specs.Calls.{extent_of, image_in};
ghost use Rattle.home.specs.Passes.{met_none, met_with, measured_of, Modest, sides_if, shape_by, shaped_as};

use fields::{Refusal, SECTORS, TRACKS};
use store::{TABLE, room_of, rows_len};

// What the tracks that were met come to.
#[derive(Clone, Copy)]
pub struct Met {
    // the least that cylinder and side of the next track may be, as one number
    pub next: usize,
    // whether each of them can be written, and they rise; where not, the pass goes on, since 2 comes before 12
    pub fits: bool,
    pub cylinders: usize,
    // whether one has side 1
    pub second: bool,
    // how long the image is with them
    pub long: usize,
}

// What an image has in its disk block, and how long it is.
#[derive(Clone, Copy)]
pub struct Shape {
    pub cylinders: usize,
    pub sides: usize,
    pub long: u32,
}

// Bytes in units of 256, the last one begun counted whole.
#[tactic(auto, unfolding(crate::specs::Home::units))]
pub(crate) fn units_of(bytes: usize) -> usize
    requires { bytes < 4294967296 }
    ensures { (result ≡ units bytes) × (result ≤ 16777216) }
{
    (bytes + 255) / 256
}

// No track: the disk block alone.
fn none_met() -> Met
    ensures { result ≡ met_none }
{
    Met {
        next: 0,
        fits: true,
        cylinders: 0,
        second: false,
        long: 256,
    }
}

// One more track: its cylinder and side, how many sectors it has and how many bytes they store.
#[tactic(auto, using(std::proofs::lemmas::Bool::Decides::nat_tests), unfolding(crate::specs::Passes::met_with))]
fn meet(m: Met, cylinder: usize, side: usize, sectors: usize, stored: usize) -> Met
    requires { (cylinder < 256) × ((side < 256) × ((stored < 4294967296) × (m.long < 4294967296))) }
    ensures { result ≡ met_with m cylinder side sectors stored }
{
    let here = cylinder * 256 + side;
    let block = 256 + 256 * units_of(stored);
    Met {
        next: here + 1,
        fits: m.fits & (m.next <= here) & (side <= 1) & (sectors <= 29) & (block <= 65280),
        cylinders: m.cylinders.max(cylinder + 1),
        second: m.second | (side == 1),
        long: m.long + block,
    }
}

// Meets every track of a table in one pass over its rows, which is the check of a store as well.
fn measure(table: &[u8], room: usize) -> Result<Met, Refusal>
    ensures { (result ≡ measured_of table.now room) × Modest result }
{
    if table.len() != TABLE {
        return Err(Refusal::BadStore);
    }
    let tracks = fields::byte(table, 0);
    if TRACKS < tracks {
        return Err(Refusal::BadStore);
    }
    let mut at: usize = 1;
    let mut sectors: usize = 0;
    let mut bytes: usize = 0;
    let mut met = none_met();
    for _ in 0..tracks {
        let count = fields::byte(table, at + 5);
        if SECTORS < sectors + count {
            return Err(Refusal::BadStore);
        }
        let stored = rows_len(table, at + 6, count);
        let cylinder = fields::byte(table, at);
        let side = fields::byte(table, at + 1);
        met = meet(met, cylinder, side, count, stored);
        bytes += stored;
        sectors += count;
        at += 6 + 8 * count;
    }
    if room < bytes {
        return Err(Refusal::BadStore);
    }
    Ok(met)
}

// How many sides the table of an image has.
fn sides_of(second: bool) -> usize
    ensures { (result ≡ sides_if second) × (result ≤ 2) }
{
    if second { 2 } else { 1 }
}

// The shape of an image by what was met; 12 where there is none.
#[tactic(auto, using(std::proofs::lemmas::Bool::Decides::nat_tests), unfolding(crate::specs::Passes::shape_by))]
fn shape_of(m: Met) -> Result<Shape, Refusal>
    requires { (m.cylinders ≤ 256) × (m.long < 4294967296) }
    ensures { result ≡ shape_by m }
{
    let sides = sides_of(m.second);
    if m.fits & (m.cylinders * sides <= 204) {
        return Ok(Shape {
            cylinders: m.cylinders,
            sides,
            long: m.long as u32,
        });
    }
    Err(Refusal::NoImage)
}

// The shape of the image of the disk that a store holds; 2, then 12.
pub(crate) fn judge(table: &[u8], bytes: &[u8]) -> Result<Shape, Refusal>
    ensures { result ≡ shaped_as (disk_of table.now bytes.now) }
{
    shape_of(measure(table, room_of(bytes))?)
}

// How long the image is that `write_image` would write. 2, then 12.
pub fn image_length(table: &[u8], bytes: &[u8]) -> Result<u32, Refusal>
    ensures { result ≡ extent_of (image_in table.now bytes.now) }
{
    Ok(judge(table, bytes)?.long)
}

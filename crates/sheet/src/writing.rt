// Writes a controller out as a sheet, box by box.
ghost use Rattle.std.specs.Prelude.{◌≡◌, true, false, cond, [], ◌∷◌, ◌+◌, ◌-◌, ◌%◌, ◌≤◌, length, take};
ghost use Rattle.std.proofs.Math.Seq.{slice};
ghost use Rattle.buffer.specs.Over.{over};
ghost use Rattle.store.specs.Calls.{penned};
ghost use Rattle.registers.specs.View.{writing_if};
ghost use Rattle.sending.specs.Calls.{impossible_with};
ghost use Rattle.layout.specs.Layout.{flag_byte, seek_byte};
ghost use Rattle.sheet.specs.Sheets.{high_for, box_for, write_box, format_box, sheet_version, sheet_of};
ghost use Rattle.sheet.specs.Calls.{boxes_seen, work_for, sheet_written};

use fields::{HELD, Refusal, TRANSFER};
use floppy::Floppy;
use layout::{flag_byte, seek_byte};
use registers::{Pending, Regs};

// No sheet is longer.
pub const LONGEST: usize = 36 + 8 + 7 + TRANSFER + 5 + (HELD - 1);

// What stands before the command: the version, the length of the rest, and the boxes of motor, cylinder, seek state and ID index.
fn opening(r: Regs, rest: usize) -> [u8; 18]
    ensures { result ≡ sheet_version ∷ high_for 4 rest (box_for 2 (flag_byte r.motor ∷ []) (box_for 2 (r.drive.cylinder ∷ [])
        (box_for 2 (seek_byte r.drive.seek ∷ []) (box_for 2 (high_for 2 r.index []) [])))) }
{
    let i = r.index;
    [
        2,
        (rest / 256 / 256 / 256 % 256) as u8,
        (rest / 256 / 256 % 256) as u8,
        (rest / 256 % 256) as u8,
        (rest % 256) as u8,
        0,
        1,
        flag_byte(r.motor),
        0,
        1,
        r.drive.cylinder,
        0,
        1,
        seek_byte(r.drive.seek),
        0,
        2,
        (i / 256 % 256) as u8,
        (i % 256) as u8,
    ]
}

// Lays a box at a place, its length in so many bytes first, and answers the place behind it. The width is a constant, as it is
// where a box is laid: 2, or 4 for the unread data.
fn put<const WIDTH: usize>(sheet: &mut [u8], at: usize, x: &[u8]) -> usize
    requires width_bound { WIDTH ≤ 4 }
    requires room { at + WIDTH + length x.now ≤ length sheet.old }
    ensures { (sheet.new ≡ over sheet.old at (box_for WIDTH x.now []))
        × (result ≡ at + WIDTH + length x.now) }
{
    let n = x.len().to_be_bytes();
    buffer::copy_in(sheet, at, &n[8 - WIDTH..]);
    buffer::copy_in(sheet, at + WIDTH, x);
    at + WIDTH + x.len()
}

// Lays the box of a write in progress, c1, its four numbers and the bytes so far, if it is to stand here, else an empty one, and answers the place
// behind it.
fn put_work(sheet: &mut [u8], at: usize, here: bool, p: Pending, held: &[u8]) -> usize
    requires held_in_bounds { at + 2 + length (work_for here p held.now) ≤ length sheet.old }
    requires taken_in_bounds { here ≡ true → p.taken ≤ length held.now }
    ensures { (sheet.new ≡ over sheet.old at (box_for 2 (work_for here p held.now) []))
        × (result ≡ at + 2 + length (work_for here p held.now)) }
{
    if !here {
        return put::<2>(sheet, at, &[]);
    }
    let taken = p.taken as usize;
    let n = 5 + taken;
    let t = p.target;
    let head = [
        (n / 256 % 256) as u8,
        (n % 256) as u8,
        p.c1,
        t.one,
        t.two,
        t.three,
        t.four,
    ];
    buffer::copy_in(sheet, at, &head);
    buffer::copy_in(sheet, at + 7, &held[..taken]);
    at + 2 + n
}

// Lays the write, the machine and the Format.
fn lay_works(r: Regs, held: &[u8], at: usize, sheet: &mut [u8])
    requires taken_in_bounds { r.write.on ≡ true → r.write.taken ≤ length held.now }
    requires room { at + 7 + cond r.write.on (5 + r.write.taken) 0 ≤ length sheet.old }
    ensures { sheet.new ≡ over sheet.old at
        (box_for 2 (write_box (writing_if r.write.on r.write held.now))
        (box_for 2 (r.setting % 2 ∷ []) (box_for 2 (format_box (writing_if r.write.on r.write held.now)) []))) }
{
    let p = r.write;
    // `&` has no branch: behind `&&` each call's room would have to be shown for two ways that lead there.
    let machine = put_work(sheet, at, p.on & !p.track, p, held);
    let format = put::<2>(sheet, machine, &[r.setting % 2]);
    put_work(sheet, format, p.on & p.track, p, held);
}

// How many bytes the box of a write has, and the whole sheet.
fn write_size(p: Pending) -> usize
    ensures { result ≡ cond p.on (5 + p.taken) 0 }
{
    if p.on { 5 + p.taken as usize } else { 0 }
}

fn size(r: Regs) -> usize
    requires { (r.place ≤ r.fill) × (r.from ≤ r.until) }
    ensures { result ≡ 36 + r.count + (r.fill - r.place) + (r.until - r.from) + cond r.write.on (5 + r.write.taken) 0 }
{
    let command = r.count as usize;
    let reply = (r.fill - r.place) as usize;
    let unread = (r.until - r.from) as usize;
    let write = write_size(r.write);
    36 + command + reply + unread + write
}

// Lays what stands before the unread data, command and reply last, and answers the place behind it.
fn lay_first(r: Regs, rest: usize, sheet: &mut [u8]) -> usize
    requires count_bound { (r.count ≤ 9) × ((r.place ≤ r.fill) × (r.fill ≤ 7)) }
    requires place_in_bounds { 22 + r.count + (r.fill - r.place) ≤ length sheet.old }
    ensures { (sheet.new ≡ over sheet.old 0 (sheet_version ∷ high_for 4 rest
        (box_for 2 (flag_byte r.motor ∷ []) (box_for 2 (r.drive.cylinder ∷ [])
        (box_for 2 (seek_byte r.drive.seek ∷ []) (box_for 2 (high_for 2 r.index [])
        (box_for 2 (take r.count r.command) (box_for 2 (slice r.place r.fill r.reply) []))))))))
        × (result ≡ 22 + r.count + (r.fill - r.place)) }
{
    buffer::copy_in(sheet, 0, &opening(r, rest));
    let next = put::<2>(sheet, 18, &r.command[..r.count as usize]);
    put::<2>(sheet, next, &r.reply[r.place as usize..r.fill as usize])
}

// Lays the unread data, the lost count, the write, the machine and the Format.
fn lay_rest(r: Regs, held: &[u8], transfer: &[u8], at: usize, sheet: &mut [u8])
    requires from_le_until { (r.from ≤ r.until) × (r.until ≤ length transfer.now) }
    requires taken_in_bounds { r.write.on ≡ true → r.write.taken ≤ length held.now }
    requires room { at + 14 + (r.until - r.from) + cond r.write.on (5 + r.write.taken) 0 ≤ length sheet.old }
    ensures { sheet.new ≡ over sheet.old at (box_for 4 (slice r.from r.until transfer.now)
        (box_for 2 (r.lost ∷ []) (box_for 2 (write_box (writing_if r.write.on r.write held.now))
        (box_for 2 (r.setting % 2 ∷ []) (box_for 2 (format_box (writing_if r.write.on r.write held.now)) []))))) }
{
    let next = put::<4>(sheet, at, &transfer[r.from as usize..r.until as usize]);
    let last = put::<2>(sheet, next, &[r.lost]);
    lay_works(r, held, last, sheet);
}

// Lays the whole sheet, so many bytes, at the buffer's start.
fn lay(r: Regs, held: &[u8], transfer: &[u8], n: usize, sheet: &mut [u8])
    requires r_value { impossible_with held.now transfer.now r ≡ false }
    requires n_value { (n ≡ length (sheet_of (boxes_seen r held.now transfer.now))) × (n ≤ length sheet.old) }
    ensures { sheet.new ≡ over sheet.old 0 (sheet_of (boxes_seen r held.now transfer.now)) }
{
    let at = lay_first(r, n - 5, sheet);
    lay_rest(r, held, transfer, at, sheet);
}

// Numbers that no controller has, with so many bytes held and so much lent for its data.
fn impossible_with(r: Regs, held: &[u8], transfer: &[u8]) -> bool
    ensures { result ≡ impossible_with held.now transfer.now r }
{
    held.len() != HELD || r.impossible_in(transfer)
}

// Writes the sheet of registers and held bytes to the buffer's start; bytes behind it stay. 1 for numbers that no
// controller has, then 13 for a buffer that is too short; both leave it as it came.
pub fn write_parts(r: Regs, held: &[u8], transfer: &[u8], sheet: &mut [u8]) -> Result<u32, Refusal>
    ensures { penned result sheet.new ≡ sheet_written r held.now transfer.now sheet.old }
{
    if impossible_with(r, held, transfer) {
        return Err(Refusal::BadController);
    }
    let n = size(r);
    if sheet.len() < n {
        return Err(Refusal::ShortBuffer);
    }
    lay(r, held, transfer, n, sheet);
    Ok(n as u32)
}

// The same for a whole controller.
pub fn write(floppy: Floppy, transfer: &[u8], sheet: &mut [u8]) -> Result<u32, Refusal>
    ensures { penned result sheet.new ≡ sheet_written floppy.regs floppy.held transfer.now sheet.old }
{
    write_parts(floppy.regs, &floppy.held, transfer, sheet)
}

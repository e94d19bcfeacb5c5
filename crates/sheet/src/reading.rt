// Reads a sheet: where its boxes stand, whether it is one, and the controller that it gives.
ghost use Rattle.std.specs.Prelude.{◌≡◌, Bool, true, false, ◌+◌, ◌≤◌, ◌<◌, ◌^◌, length, leb};
ghost use Rattle.fields.specs.Bytes.{byte_at};
ghost use Rattle.fields.specs.Capacities.{most_transfer, most_held};
ghost use Rattle.codes.specs.Table.{command_of, bytes_for};
ghost use Rattle.layout.specs.Layout.{seek_at};
ghost use Rattle.registers.specs.Boxes.{setting_of};
ghost use Rattle.sheet.specs.Sheets.{high_at, box_at, behind, behind_new, is_old, places_of, boxes_at, framed, one_to, is_work, in_range, target_at};
ghost use Rattle.sheet.specs.Sheets.{in_box, either_box, no_write, world_from, wrong_writing, wrong_boxes};
ghost use Rattle.sheet.specs.Calls.{on_zeros, pending_for, held_for, regs_for, taken_from, whether_taken, resuming, sheet_read};

use codes::{bytes_for, command_of};
use fields::{Refusal, byte};
use floppy::{Floppy, Shown};
use layout::{flag_at, seek_at};
use registers::{Answered, Drive, Pending, Regs, Target, goal_of, wrong_work};
use store::transfer_room;

// Where the length of each box stands, and where the last box ends.
#[derive(Clone, Copy, PartialEq, Eq)]
pub struct Places {
    pub motor: usize,
    pub cylinder: usize,
    pub seek: usize,
    pub index: usize,
    pub command: usize,
    pub reply: usize,
    pub unread: usize,
    pub lost: usize,
    pub write: usize,
    pub machine: usize,
    pub format: usize,
    pub end: usize,
}

// ---- the form

// The number in so many bytes, high byte first; a byte past the end counts as 0.
fn high_at(s: &[u8], at: usize, width: usize) -> usize
    requires { (width ≤ 4) × (at + width < 2 ^ 64) }
    ensures { (result ≡ high_at width s.now at) × (result < 256 ^ width) }
{
    let mut n = 0;
    for k in 0..width {
        n = 256 * n + byte(s, at + k);
    }
    n
}

// The place behind a box whose length takes so many bytes.
fn behind(s: &[u8], at: usize, width: usize) -> usize
    requires { (width ≤ 4) × (at < 2 ^ 40) }
    ensures { (result ≡ behind width s.now at) × (result < at + width + 256 ^ width) }
{
    at + width + high_at(s, at, width)
}

// The place behind a box that version 1 does not have.
fn behind_new(s: &[u8], old: bool, at: usize) -> usize
    requires { at < 2 ^ 40 }
    ensures { (result ≡ behind_new old s.now at) × (result < at + 65538) }
{
    if old { at } else { behind(s, at, 2) }
}

// Whether it is a sheet of version 1.
fn is_old(s: &[u8]) -> bool
    ensures { result ≡ is_old s.now }
{
    byte(s, 0) == 1
}

// Where the boxes stand, by the lengths that the sheet tells.
fn locate(s: &[u8]) -> Places
    ensures { result ≡ places_of s.now }
{
    let motor = 5;
    let cylinder = behind(s, motor, 2);
    let seek = behind(s, cylinder, 2);
    let index = behind(s, seek, 2);
    let command = behind(s, index, 2);
    let reply = behind(s, command, 2);
    let unread = behind(s, reply, 2);
    let lost = behind(s, unread, 4);
    let write = behind(s, lost, 2);
    let machine = behind(s, write, 2);
    let old = is_old(s);
    let format = behind_new(s, old, machine);
    let end = behind_new(s, old, format);
    Places {
        motor,
        cylinder,
        seek,
        index,
        command,
        reply,
        unread,
        lost,
        write,
        machine,
        format,
        end,
    }
}

// The bytes of a box whose length takes so many bytes; fewer where the sheet ends first.
fn box_at<'a>(s: &'a [u8], at: usize, width: usize) -> &'a [u8]
    requires { width ≤ 4 }
    ensures { result.now ≡ box_at width s.now at }
{
    let rest = buffer::tail(s, at);
    buffer::part(rest, width, high_at(rest, 0, width))
}

// ---- the boxes

// Whether a box is a number of one byte, up to a greatest.
fn one_to(x: &[u8], most: u8) -> bool
    ensures { result ≡ one_to most x.now }
{
    x.len() == 1 && x[0] <= most
}

// Whether version and lengths are those of a sheet, whose last box ends where the bytes do, and one of version 2 has a machine.
fn is_framed(s: &[u8], p: Places) -> bool
    requires { p ≡ places_of s.now }
    ensures { result ≡ framed s.now }
{
    (is_old(s) || byte(s, 0) == 2 && one_to(box_at(s, p.machine, 2), 1))
        && 5 + high_at(s, 1, 4) == s.len()
        && p.end == s.len()
}

// Whether the box of a write, or of a Format, is empty, or has its five numbers.
fn is_work(x: &[u8]) -> bool
    ensures { result ≡ is_work x.now }
{
    x.is_empty() || 5 <= x.len()
}

// Whether every number is as long as it must be, and motor and seek state are in their range.
fn in_range(s: &[u8], p: Places) -> bool
    ensures { result ≡ in_range (boxes_at s.now p) }
{
    let write = box_at(s, p.write, 2);
    let format = box_at(s, p.format, 2);
    one_to(box_at(s, p.motor, 2), 1)
        && box_at(s, p.cylinder, 2).len() == 1
        && one_to(box_at(s, p.seek, 2), 2)
        && box_at(s, p.index, 2).len() == 2
        && box_at(s, p.lost, 2).len() == 1
        && is_work(write)
        && is_work(format)
        && (write.is_empty() || format.is_empty())
}

// The four numbers in the box of a write, or of a Format.
fn target_in(x: &[u8]) -> Target
    requires { 5 ≤ length x.now }
    ensures { result ≡ target_at x.now }
{
    Target {
        one: x[1],
        two: x[2],
        three: x[3],
        four: x[4],
    }
}

// The write in progress, or none; whether it is a Format's is told.
fn pending_from(track: bool, x: &[u8]) -> Pending
    requires { (is_work x.now ≡ true) × (length x.now < 65536) }
    ensures { result ≡ pending_for (in_box track x.now) }
{
    if x.is_empty() {
        return Pending::none();
    }
    Pending {
        on: true,
        c1: x[0],
        track,
        target: target_in(x),
        taken: (x.len() - 5) as u16,
    }
}

// Where the box of a write is empty, that of a Format counts.
fn no_write(s: &[u8], p: Places) -> bool
    ensures { result ≡ no_write (boxes_at s.now p) }
{
    box_at(s, p.write, 2).is_empty()
}

fn work_box<'a>(s: &'a [u8], p: Places) -> &'a [u8]
    ensures { result.now ≡ either_box (no_write (boxes_at s.now p)) (box_at 2 s.now p.write) (box_at 2 s.now p.format) }
{
    if no_write(s, p) {
        box_at(s, p.format, 2)
    } else {
        box_at(s, p.write, 2)
    }
}

// A write or a Format that no controller has with this setting.
fn wrong_box(setting: u8, track: bool, x: &[u8]) -> bool
    requires { is_work x.now ≡ true }
    ensures { result ≡ wrong_writing (setting_of setting) (in_box track x.now) }
{
    !x.is_empty() && wrong_work(setting, x[0], goal_of(track, target_in(x)), x.len() - 5)
}

// A command that is as long as it has bytes, or longer. Where nothing was sent, no table is asked.
fn wrong_command(x: &[u8]) -> bool
    ensures { result ≡ leb (bytes_for (command_of (byte_at x.now 0))) (length x.now) }
{
    !x.is_empty() && bytes_for(command_of(x[0])) as usize <= x.len()
}

// Boxes that no controller has.
fn wrong_boxes(s: &[u8], p: Places) -> bool
    requires { in_range (boxes_at s.now p) ≡ true }
    ensures { result ≡ wrong_boxes (world_from (boxes_at s.now p)) }
{
    7 < box_at(s, p.reply, 2).len()
        || wrong_command(box_at(s, p.command, 2))
        || 2 < number_in(s, p.lost)
        || wrong_box(number_in(s, p.machine), no_write(s, p), work_box(s, p))
}

// ---- the controller

// The bytes of a box, with zeros behind them.
fn on_zeros<const N: usize>(x: &[u8]) -> [u8; N]
    requires { length x.now ≤ N }
    ensures { result ≡ on_zeros N x.now }
{
    let mut zeros = [0; N];
    buffer::copy_in(&mut zeros, 0, x);
    zeros
}

// The bytes that it holds, with zeros behind them.
fn lay_held(x: &[u8], held: &mut [u8])
    requires { (length held.old ≡ most_held) × (length x.now ≤ 5 + most_held) }
    ensures { (track : Bool) → held.new ≡ held_for (in_box track x.now) }
{
    held.fill(0);
    buffer::copy_in(held, 0, buffer::tail(x, 5));
}

// The number in a box of one byte, and of two: each of its own type.
fn number_in(s: &[u8], at: usize) -> u8
    ensures { result ≡ byte_at (box_at 2 s.now at) 0 }
{
    byte(box_at(s, at, 2), 0) as u8
}

fn index_in(s: &[u8], at: usize) -> u16
    ensures { result ≡ high_at 2 (box_at 2 s.now at) 0 }
{
    high_at(box_at(s, at, 2), 0, 2) as u16
}

// The drive, with no disk in it.
fn drive_in(s: &[u8], p: Places) -> Drive
    ensures { result ≡ record {
      cylinder = byte_at (box_at 2 s.now p.cylinder) 0;
      seek = seek_at (byte_at (box_at 2 s.now p.seek) 0);
      disk = false;
    } }
{
    Drive {
        cylinder: number_in(s, p.cylinder),
        seek: seek_at(number_in(s, p.seek)),
        disk: false,
    }
}

// The registers of a sheet that is one, all places 0.
fn regs_from(s: &[u8], p: Places) -> Regs
    requires p_value { (in_range (boxes_at s.now p) ≡ true) × (wrong_boxes (world_from (boxes_at s.now p)) ≡ false) }
    requires unread_len_bound { length (box_at 4 s.now p.unread) ≤ most_transfer }
    ensures { result ≡ regs_for (world_from (boxes_at s.now p)) }
{
    let command = box_at(s, p.command, 2);
    let reply = box_at(s, p.reply, 2);
    let unread = box_at(s, p.unread, 4);
    Regs {
        command: on_zeros(command),
        count: command.len() as u8,
        reply: on_zeros(reply),
        place: 0,
        fill: reply.len() as u8,
        from: 0,
        until: unread.len() as u32,
        lost: number_in(s, p.lost),
        motor: flag_at(number_in(s, p.motor)),
        index: index_in(s, p.index),
        write: pending_from(no_write(s, p), work_box(s, p)),
        drive: drive_in(s, p),
        setting: number_in(s, p.machine) % 2,
    }
}

// Whether these bytes are a sheet, and their unread data fit the transfer room.
fn judge(s: &[u8], p: Places, transfer: &[u8]) -> Result<(), Refusal>
    requires { p ≡ places_of s.now }
    ensures { result ≡ whether_taken (taken_from s.now transfer.now) }
{
    if !is_framed(s, p) || !in_range(s, p) || wrong_boxes(s, p) {
        return Err(Refusal::BadSheet);
    }
    if transfer_room(transfer) < box_at(s, p.unread, 4).len() {
        return Err(Refusal::NoTransferRoom);
    }
    Ok(())
}

// Reads a sheet, which all of `sheet` is: the registers, with no disk; the held bytes, and unread data from the transfer
// buffer's start, where bytes behind them stay. 11 for bytes that are no sheet, then 9 for unread data over the transfer
// room; both leave all as it came.
pub fn read_parts(regs: Regs, held: &mut [u8], sheet: &[u8], transfer: &mut [u8]) -> Answered<()>
    requires { length held.old ≡ most_held }
    ensures { resuming result held.new transfer.new
        ≡ sheet_read regs held.old sheet.now transfer.old }
{
    let p = locate(sheet);
    if let Err(why) = judge(sheet, p, transfer) {
        return regs.refused(why);
    }
    lay_held(work_box(sheet, p), held);
    buffer::copy_in(transfer, 0, box_at(sheet, p.unread, 4));
    regs_from(sheet, p).answered(())
}

// The same for a whole controller, which comes back as it was where the sheet is refused.
pub fn read(floppy: Floppy, sheet: &[u8], transfer: &mut [u8]) -> Shown<()>
    ensures { resuming (record { answer = result.answer; regs = result.floppy.regs }) result.floppy.held transfer.new
        ≡ sheet_read floppy.regs floppy.held sheet.now transfer.old }
{
    let mut held = floppy.held;
    let Answered { answer, regs } = read_parts(floppy.regs, &mut held, sheet, transfer);
    Shown {
        answer,
        floppy: Floppy { regs, held },
    }
}

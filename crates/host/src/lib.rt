// The calls that `host_c` exports for C and Rust: on numbers and byte slices, each with one word for its answer. docs/HOST.md describes them.
// Nothing is kept between two calls: a controller and a disk are the bytes that the host lends.
#![tactic(auto)]

ghost use Rattle.std.specs.Prelude.{◌≡◌, not, length, eqb, Result};
ghost use Rattle.fields.specs.declared.refusal.Refusal.{Refusal};
ghost use Rattle.store.specs.Store.{table_length, disk_of};
ghost use Rattle.store.specs.Calls.{outcome, load_of, fresh_of, geometry_of, has_of};
ghost use Rattle.registers.specs.declared.regs.Regs.{Regs};
ghost use Rattle.registers.specs.declared.regs.Answered.{Answered as WithRegs};
ghost use Rattle.layout.specs.Layout.{controller_length, regs_in};
ghost use Rattle.sheet.specs.Calls.{longest_sheet};
ghost use Rattle.words.specs.Words.{answer_word, geometry_word, has_word};
ghost use Rattle.host.specs.Calls.{asked_of, answered, answered_of, settled_on, new_on, set_motor_on, motor_on, track_on, set_disk_on, disk_on, setting_on, status_on};
ghost use Rattle.host.specs.Calls.{read_on, sending, write_on, write_sheet_on, taken_up, read_sheet_on, worded, image_length_on, write_image_on, part_on};

use fields::{Refusal, SectorId};
use layout::{LENGTH, NUMBERS, SETTING, decode, encode, regs_in};
use registers::{Answered, Regs};
use sheet::{LONGEST, read_parts, write_parts};
use store::TABLE;
use words::{Word, answer_word, match_word, refusal_word};

// ---- lengths

// Answers how many bytes a controller is, as a plain number.
pub fn floppy_controller_length() -> u64
    ensures { result ≡ controller_length }
{
    LENGTH as u64
}

// Answers how many bytes the table of a disk is, as a plain number.
pub fn disk_table_length() -> u64
    ensures { result ≡ table_length }
{
    TABLE as u64
}

// Answers how many bytes the longest sheet is, as a plain number.
pub fn floppy_sheet_length() -> u64
    ensures { result ≡ longest_sheet }
{
    LONGEST as u64
}

// ---- the controller

// The word of what the registers in the bytes answer. 1 where no controller has these bytes.
fn ask<T: Word, F: FnOnce(Regs) -> Result<T, Refusal>>(controller: &[u8], f: F) -> u64
    requires { F.IsAlwaysCallable f }
    ensures { (s : Regs → Result T Refusal) → ((r : Regs) (a : Result T Refusal) → F.post f r a → a ≡ s r)
        → result ≡ asked_of (regs_in controller.now) (λ r. answer_word T.word (s r)) }
{
    match regs_in(controller) {
        Ok(regs) => answer_word(f(regs)),
        Err(why) => refusal_word(why),
    }
}

// The word of an answer; the registers go into the bytes where it is not a refusal.
fn settle<T: Word>(a: Answered<T>, controller: &mut [u8]) -> u64
    requires { length controller.old ≡ controller_length }
    ensures { answered result controller.new ≡ settled_on T.word controller.old a }
{
    if a.answer.is_ok() {
        encode(a.regs, controller);
    }
    answer_word(a.answer)
}

// Settles what the registers in the bytes answer. 1 where no controller has these bytes, and they stay.
fn change<T: Word, F: FnOnce(Regs) -> Answered<T>>(controller: &mut [u8], f: F) -> u64
    requires { F.IsAlwaysCallable f }
    ensures { (s : Regs → WithRegs T) → ((r : Regs) (a : WithRegs T) → F.post f r a → a ≡ s r)
        → answered result controller.new ≡ answered_of controller.old (regs_in controller.old) (λ r. settled_on T.word controller.old (s r)) }
{
    match regs_in(controller) {
        Ok(regs) => settle(f(regs), controller),
        Err(why) => refusal_word(why),
    }
}

// Makes the bytes a new controller with a setting, of which bit 0 is the machine: 0 the Rust's, 1 the data sheet's; other bits mean nothing yet.
// Every other byte is 0 then, whatever they were. 1 for another length, and they stay.
pub fn floppy_new_with(controller: &mut [u8], setting: u8) -> u64
    ensures { answered result controller.new ≡ new_on setting controller.old }
{
    if controller.len() != LENGTH {
        return refusal_word(Refusal::BadController);
    }
    controller.fill(0);
    controller[SETTING] = setting % 2;
    0
}

// The same with setting 0, the Rust machine.
pub fn floppy_new(controller: &mut [u8]) -> u64
    ensures { answered result controller.new ≡ new_on 0 controller.old }
{
    floppy_new_with(controller, 0)
}

// Answers the setting that the controller was made with. 1 as a refusal where no controller has these bytes.
pub fn floppy_setting(controller: &[u8]) -> u64
    ensures { result ≡ setting_on controller.now }
{
    ask(controller, |regs| regs.setting())
}

// Turns the motor off (0) or on, and changes nothing else. 1 where no controller has these bytes, and they stay.
pub fn floppy_set_motor(controller: &mut [u8], on: u8) -> u64
    ensures { answered result controller.new ≡ set_motor_on (not (eqb on 0)) controller.old }
{
    change(controller, |regs| regs.set_motor(on != 0))
}

// Answers 1 if the motor is on, else 0. 1 as a refusal where no controller has these bytes.
pub fn floppy_motor(controller: &[u8]) -> u64
    ensures { result ≡ motor_on controller.now }
{
    ask(controller, |regs| regs.motor())
}

// Answers the cylinder that the head is over. 1 as a refusal where no controller has these bytes.
pub fn floppy_current_track(controller: &[u8]) -> u64
    ensures { result ≡ track_on controller.now }
{
    ask(controller, |regs| regs.current_track())
}

// Takes the disk out (0), or puts in the one that is lent from now on; all else is carried over, a write in progress included.
// 1 where no controller has these bytes, and they stay.
pub fn floppy_set_disk(controller: &mut [u8], present: u8) -> u64
    ensures { answered result controller.new ≡ set_disk_on (not (eqb present 0)) controller.old }
{
    change(controller, |regs| regs.set_disk(present != 0))
}

// Answers 1 if a disk is in the drive, else 0. 1 as a refusal where no controller has these bytes.
pub fn floppy_disk(controller: &[u8]) -> u64
    ensures { result ≡ disk_on controller.now }
{
    ask(controller, |regs| regs.disk())
}

// Answers the main status, counts a read that was lost and ends a seek that is done. 1 where no controller has these bytes, and they stay.
pub fn floppy_read_status(controller: &mut [u8]) -> u64
    ensures { answered result controller.new ≡ status_on controller.old }
{
    change(controller, |regs| regs.read_status())
}

// Answers the next byte of the data, else of the reply, else 0. The transfer buffer is the one that the data were read into.
// 1 where no controller has these bytes or their data end past the buffer, and they stay.
pub fn floppy_read_cmd(controller: &mut [u8], transfer: &[u8]) -> u64
    ensures { answered result controller.new ≡ read_on controller.old transfer.now }
{
    change(controller, |regs| regs.read_cmd(transfer))
}

// Sends a byte to the data port. The last byte of a command has it obeyed, the last one of a write has it saved; the disk is the one in table and
// bytes. A byte that is refused is not taken: every lent byte is as it came, and it may be sent again.
pub fn floppy_write_cmd(
    controller: &mut [u8],
    table: &mut [u8],
    bytes: &mut [u8],
    transfer: &mut [u8],
    b: u8,
) -> u64
    ensures { sending result controller.new table.new bytes.new transfer.new
        ≡ write_on controller.old table.old bytes.old transfer.old b }
{
    match regs_in(controller) {
        Ok(regs) => {
            let a = sending::write_cmd(regs, b, &mut controller[NUMBERS..], table, bytes, transfer);
            settle(a, controller)
        }
        Err(why) => refusal_word(why),
    }
}

// ---- sheets

// Writes the controller out as a sheet at the buffer's start, and answers its length in bits 32 to 63; bytes behind it stay. 1 where no controller
// has these bytes or their data end past the transfer buffer, then 13 for a buffer that is too short: it stays.
pub fn floppy_write_sheet(controller: &[u8], transfer: &[u8], sheet: &mut [u8]) -> u64
    ensures { answered result sheet.new ≡ write_sheet_on controller.now transfer.now sheet.old }
{
    match regs_in(controller) {
        Ok(regs) => answer_word(write_parts(regs, &controller[NUMBERS..], transfer, sheet)),
        Err(why) => refusal_word(why),
    }
}

// Makes the bytes the controller of a sheet, which all of `sheet` is, with no disk, whatever they were. Its unread data are laid from the transfer
// buffer's start; bytes behind them stay. 1 for a controller of another length, 11 for bytes that are no sheet, 9 for unread data over the room, in
// this order: both buffers stay.
pub fn floppy_read_sheet(controller: &mut [u8], transfer: &mut [u8], sheet: &[u8]) -> u64
    ensures { taken_up result controller.new transfer.new
        ≡ read_sheet_on controller.old transfer.old sheet.now }
{
    if controller.len() != LENGTH {
        return refusal_word(Refusal::BadController);
    }
    let regs = decode(controller);
    let a = read_parts(regs, &mut controller[NUMBERS..], sheet, transfer);
    settle(a, controller)
}

// ---- the disk

// Loads an image into table and bytes. A refusal (2 to 8) leaves every lent byte as it came.
pub fn disk_new(image: &[u8], table: &mut [u8], bytes: &mut [u8]) -> u64
    ensures { outcome result table.new bytes.new
        ≡ worded (load_of image.now table.old bytes.old) }
{
    answer_word(loading::new(image, table, bytes))
}

// Puts a fresh disk into table and bytes: 40 tracks of nine sectors. A refusal (2 or 8) leaves every lent byte as it came.
pub fn disk_new_formatted(table: &mut [u8], bytes: &mut [u8]) -> u64
    ensures { outcome result table.new bytes.new ≡ worded (fresh_of table.old bytes.old) }
{
    answer_word(loading::new_formatted(table, bytes))
}

// Answers how long the image of the disk is that `disk_write_image` writes, in bits 32 to 63. 2 for bytes that hold no disk, then 12 for a disk that
// has no extended image.
pub fn disk_image_length(table: &[u8], bytes: &[u8]) -> u64
    ensures { result ≡ image_length_on table.now bytes.now }
{
    answer_word(home::image_length(table, bytes))
}

// Writes the disk as an extended image at the buffer's start, and answers its length in bits 32 to 63; bytes behind it stay. 2, 12, then 13 for a
// buffer that is too short: it stays.
pub fn disk_write_image(table: &[u8], bytes: &[u8], image: &mut [u8]) -> u64
    ensures { answered result image.new
        ≡ write_image_on table.now bytes.now image.old }
{
    answer_word(home::write_image(table, bytes, image))
}

// Answers the greatest cylinder of side 0, and of the other sides in bits 16 to 23. 2 for bytes that hold no disk.
pub fn disk_geometry(table: &[u8], bytes: &[u8]) -> u64
    ensures { result ≡ geometry_word (geometry_of (disk_of table.now bytes.now)) }
{
    answer_word(store::geometry(table, bytes))
}

// Answers 1 if a sector with this ID is on this side and cylinder, else 0. 2 for bytes that hold no disk.
pub fn disk_has_sector(
    table: &[u8],
    bytes: &[u8],
    side: u8,
    cylinder: u8,
    c: u8,
    h: u8,
    r: u8,
    n: u8,
) -> u64
    ensures { result ≡ has_word (has_of (disk_of table.now bytes.now) side cylinder (record { c = c; h = h; r = r; n = n })) }
{
    let id = SectorId { c, h, r, n };
    answer_word(store::has_sector(table, bytes, side, cylinder, id))
}

// Answers where the bytes of that sector stand, which one of its track it is and how many bytes it has, as a plain number; 0 where there is none, or
// no disk.
pub fn disk_sector(
    table: &[u8],
    bytes: &[u8],
    side: u8,
    cylinder: u8,
    c: u8,
    h: u8,
    r: u8,
    n: u8,
) -> u64
    ensures { result ≡ part_on table.now bytes.now side cylinder (record { c = c; h = h; r = r; n = n }) }
{
    let id = SectorId { c, h, r, n };
    match store::locate(table, bytes, side, cylinder, id) {
        Ok(Some(part)) => (part.from as u64) * 4294967296
            + match_word(part.which)
            + (part.to - part.from) as u64,
        Ok(None) => 0,
        Err(_) => 0,
    }
}

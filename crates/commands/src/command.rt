// The commands. Each takes what it needs of the command, and the store where it looks at it.
ghost use Rattle.std.specs.Prelude.{◌≡◌, List, ℕ, ◌≤◌, get_or};
ghost use Rattle.fields.specs.Capacities.{most_transfer};
ghost use Rattle.store.specs.Calls.{outcome};
ghost use Rattle.disk.specs.Calls.{set_of};
ghost use Rattle.codes.specs.Second.{head_of};
ghost use Rattle.tracks.specs.Rows.{ids_at};
ghost use Rattle.registers.specs.declared.regs.Goal.TheVariants.{IntoTrack};
ghost use Rattle.registers.specs.Boxes.{setting_of, fitted, Interrupt, ReplyIfNone};
ghost use Rattle.registers.specs.View.{named_in};
ghost use Rattle.registers.specs.Settle.{drive_named, replied, regs_with_unread, regs_responded, regs_of};
ghost use Rattle.commands.specs.Commands.{id_of, no_id, missing, not_ready, not_ready_id, sense_if, seek_if, no_seek, invalid, mark_of, read_reply, write_data};
ghost use Rattle.commands.specs.Commands.{read_id, shape_of, track_as, numbered_for, format_reply, has_phase};
ghost use Rattle.commands.specs.Lent.{Fills, Stores, ran, read_here, at_once_here, format_here, into_here, ran_here};

use codes::{Command, St0, St3, drive_of, head_of};
use disk::Served;
use fields::{Refusal, SectorId, St1, St2};
use formatting::Format;
use registers::{Answered, Goal, Regs, Report, Seek, Shape, fitted, is_rust};

// The sector that bytes 2 to 5 of a command name.
fn sector_id(command: [u8; 9]) -> SectorId
    ensures { result ≡ id_of command }
{
    SectorId {
        c: command[2],
        h: command[3],
        r: command[4],
        n: command[5],
    }
}

// What a read replies as st2: the first sector's, its control mark flipped by Read Deleted. The two reads differ in this bit alone, so a flag tells
// them apart.
#[tactic(auto, unfolding(crate::specs::Commands::mark_of, fields::specs::Bytes::flip_bit))]
fn mark_st2(deleted: bool, st2: u8) -> u8
    ensures { result ≡ mark_of deleted st2 }
{
    if !deleted {
        return st2;
    }
    if st2 / 64 % 2 == 1 {
        return st2 - St2::CONTROL_MARK;
    }
    st2 + St2::CONTROL_MARK
}

// FF four times.
fn no_id() -> SectorId
    ensures { result ≡ no_id }
{
    SectorId {
        c: 0xFF,
        h: 0xFF,
        r: 0xFF,
        n: 0xFF,
    }
}

// The reply where no sector is found.
#[tactic(auto, unfolding(crate::specs::Commands::missing))]
fn missing(regs: Regs, c1: u8) -> Regs
    ensures { result ≡ replied (missing c1) regs }
{
    regs.reply7(St0::from_c1(c1) + St0::FAIL, St1::MISSING_AM, 0, no_id())
}

// The reply of a drive that is not ready.
fn not_ready(regs: Regs, c1: u8, id: SectorId) -> Regs
    ensures { result ≡ replied (not_ready c1 id) regs }
{
    let st0 = St0::from_c1(c1) + (St0::FAIL + St0::UNKNOWN + St0::NOT_READY);
    regs.reply7(st0, 0, 0, id)
}

#[tactic(auto, unfolding(crate::specs::Commands::sense_if))]
fn sense_drive(regs: Regs, c1: u8) -> Regs
    ensures { result ≡ replied (sense_if c1 (drive_named c1 regs).cylinder (drive_named c1 regs).disk) regs }
{
    let d = regs.named(c1);
    if !d.disk {
        return regs.replied(&[St3::FAULT + drive_of(c1)]);
    }
    let st3 = St3::from_c1(c1) + (St3::READY + St3::TWO_SIDE);
    if d.cylinder == 0 {
        return regs.replied(&[st3 + St3::TRACK_0]);
    }
    regs.replied(&[st3])
}

// Recalibrate and Seek.
#[tactic(auto, unfolding(crate::specs::Commands::seek_if, registers::specs::Settle::regs_of, registers::specs::Settle::regs_all, registers::specs::Settle::regs_responded))]
fn seek(regs: Regs, c1: u8, cylinder: u8) -> Answered<Report>
    ensures { result ≡ regs_of (seek_if (fitted c1) cylinder) regs }
{
    if !fitted(c1) {
        return regs.done();
    }
    regs.moved(cylinder, Seek::Running).replied(&[]).done()
}

// Sense Interrupt with no seek to tell of.
fn no_seek(regs: Regs, c: u8) -> Regs
    ensures { result ≡ replied (no_seek (setting_of regs.setting).machine c) regs }
{
    if is_rust(regs.setting) {
        return regs.replied(&[St0::UNKNOWN, c]);
    }
    regs.replied(&[St0::UNKNOWN])
}

#[tactic(auto, unfolding(registers::specs::Settle::regs_responded, registers::specs::Settle::interrupted_by))]
fn sense_interrupt(regs: Regs) -> Regs
    ensures { result ≡ regs_responded (Interrupt regs.drive.cylinder (no_seek (setting_of regs.setting).machine regs.drive.cylinder)) regs }
{
    let c = regs.drive.cylinder;
    match regs.drive.seek {
        Seek::Running => regs.moved(c, Seek::Done).replied(&[St0::SEEK_END, c]),
        Seek::Idle | Seek::Done => no_seek(regs, c),
    }
}

// A first byte that is no command's.
#[tactic(auto, unfolding(registers::specs::Settle::regs_responded))]
fn invalid(regs: Regs) -> Regs
    ensures { result ≡ regs_responded (invalid (setting_of regs.setting).machine) regs }
{
    if is_rust(regs.setting) {
        return regs;
    }
    regs.replied(&[St0::UNKNOWN])
}

// Read ID, not ready: a reply only if no reply byte is unread.
#[tactic(auto, unfolding(registers::specs::Settle::regs_responded, registers::specs::Settle::if_unread))]
fn id_not_ready(regs: Regs, c1: u8) -> Regs
    ensures { result ≡ regs_responded (ReplyIfNone (not_ready c1 not_ready_id)) regs }
{
    if regs.place < regs.fill {
        return regs;
    }
    let id = SectorId {
        c: 0,
        h: 0,
        r: 0,
        n: 2,
    };
    not_ready(regs, c1, id)
}

fn read_id(regs: Regs, c1: u8, table: &[u8], bytes: &[u8]) -> Answered<Report>
    ensures { result ≡ regs_of (read_id c1 regs.index (named_in c1 regs table.now bytes.now)) regs }
{
    let d = regs.named(c1);
    if !d.disk {
        return id_not_ready(regs, c1).done();
    }
    match store::id_by_idx(table, bytes, head_of(c1), d.cylinder, regs.index) {
        Err(why) => regs.refused(why),
        Ok(None) => missing(regs.turned(), c1).done(),
        Ok(Some(id)) => regs.turned().reply7(St0::from_c1(c1), 0, 0, id).done(),
    }
}

// A write starts where its sector is found.
fn write_data(regs: Regs, c1: u8, id: SectorId, table: &[u8], bytes: &[u8]) -> Answered<Report>
    ensures { result ≡ regs_of (write_data c1 id (named_in c1 regs table.now bytes.now)) regs }
{
    let d = regs.named(c1);
    if !d.disk {
        return not_ready(regs, c1, no_id()).done();
    }
    match store::has_sector(table, bytes, head_of(c1), d.cylinder, id) {
        Err(why) => regs.refused(why),
        Ok(None) => missing(regs, c1).done(),
        Ok(Some(sector)) => regs.started(c1, Goal::IntoSector(id)).found(sector),
    }
}

// The data that a read has put into the transfer buffer, and its reply.
#[tactic(auto, unfolding(crate::specs::Commands::read_reply))]
fn served(regs: Regs, deleted: bool, command: [u8; 9], got: Served) -> Regs
    requires { got.total ≤ most_transfer }
    ensures { result ≡ replied (read_reply deleted command got.total got.sizes got.st1.bits got.st2.bits)
        (regs_with_unread 0 got.total regs.lost regs) }
{
    let id = SectorId {
        r: command[6],
        ..sector_id(command)
    };
    let st0 = St0::from_c1(command[1]) + St0::FAIL;
    let regs = Regs {
        from: 0,
        until: got.total as u32,
        ..regs
    };
    regs.reply7(st0, got.end_st1(), mark_st2(deleted, got.st2.bits), id)
}

fn read_data(
    regs: Regs,
    deleted: bool,
    command: [u8; 9],
    table: &[u8],
    bytes: &[u8],
    transfer: &mut [u8],
) -> Answered<Report>
    ensures { Fills (read_here deleted command regs table.now bytes.now transfer.old)
        regs transfer.old result transfer.new }
{
    let c1 = command[1];
    let id = sector_id(command);
    let d = regs.named(c1);
    if !d.disk {
        return not_ready(regs, c1, id).done();
    }
    match disk::read(
        table,
        bytes,
        head_of(c1),
        d.cylinder,
        id,
        command[6],
        transfer,
    ) {
        Err(why) => regs.refused(why),
        Ok(None) => missing(regs, c1).done(),
        Ok(Some(got)) => served(regs, deleted, command, got).found(got.sector),
    }
}

// The shape that a Format asks for.
fn shape_of(command: [u8; 9]) -> Shape
    ensures { result ≡ shape_of command }
{
    Shape {
        size: command[2],
        sectors: command[3],
        gap: command[4],
        filler: command[5],
    }
}

// The store with a track of a shape, where the head is. Its IDs are lent, four bytes each.
fn lay_track(
    c1: u8,
    cylinder: u8,
    shape: Shape,
    ids: &[u8],
    table: &mut [u8],
    bytes: &mut [u8],
) -> Result<(), Refusal>
    ensures { outcome result table.new bytes.new
        ≡ set_of (head_of c1) cylinder (track_as c1 cylinder shape (ids_at ids.now 0 shape.sectors)) table.old bytes.old }
{
    let format = Format {
        cylinder,
        side: head_of(c1),
        size: shape.size,
        sectors: shape.sectors,
        gap: shape.gap,
        filler: shape.filler,
    };
    formatting::set_track(table, bytes, format, ids)
}

// The same with numbered IDs, as the Rust has them.
fn lay_numbered(
    command: [u8; 9],
    cylinder: u8,
    table: &mut [u8],
    bytes: &mut [u8],
) -> Result<(), Refusal>
    ensures { outcome result table.new bytes.new
        ≡ set_of (head_of (get_or command 1 0)) cylinder (track_as (get_or command 1 0) cylinder (shape_of command) (numbered_for command cylinder))
        table.old bytes.old }
{
    let c1 = command[1];
    let mut ids = [0; tracks::IDS];
    tracks::number_ids(&mut ids, cylinder, head_of(c1), command[2], command[3]);
    lay_track(c1, cylinder, shape_of(command), &ids, table, bytes)
}

// The reply to a Format, whether its track was laid or the disk was out.
fn format_reply(regs: Regs, c1: u8, n: u8) -> Regs
    ensures { result ≡ replied (format_reply c1 n) regs }
{
    let id = SectorId {
        c: 0,
        h: 0,
        r: 0,
        n,
    };
    regs.reply7(St0::from_c1(c1), 0, 0, id)
}

// A Format that takes no ID bytes.
fn format_at_once(
    regs: Regs,
    command: [u8; 9],
    table: &mut [u8],
    bytes: &mut [u8],
) -> Answered<Report>
    ensures { (x : List ℕ) → Stores (at_once_here command regs table.old bytes.old x)
        regs table.old bytes.old result table.new bytes.new }
{
    let c1 = command[1];
    let n = command[2];
    let d = regs.named(c1);
    if !d.disk {
        let id = SectorId {
            c: d.cylinder,
            h: head_of(c1),
            r: 0,
            n,
        };
        return not_ready(regs, c1, id).done();
    }
    match lay_numbered(command, d.cylinder, table, bytes) {
        Err(why) => regs.refused(why),
        Ok(()) => format_reply(regs, c1, n).done(),
    }
}

// Whether a Format has an execution phase: in the data-sheet machine, with a disk in the drive, for one sector or more.
fn has_phase(regs: Regs, c1: u8, count: u8) -> bool
    ensures { result ≡ has_phase (setting_of regs.setting).machine count (drive_named c1 regs).disk }
{
    !is_rust(regs.setting) && regs.named(c1).disk && count != 0
}

fn format_track(
    regs: Regs,
    command: [u8; 9],
    table: &mut [u8],
    bytes: &mut [u8],
) -> Answered<Report>
    ensures { (x : List ℕ) → Stores (format_here command regs table.old bytes.old x)
        regs table.old bytes.old result table.new bytes.new }
{
    if has_phase(regs, command[1], command[3]) {
        let goal = Goal::IntoTrack(shape_of(command));
        return regs.started(command[1], goal).done();
    }
    format_at_once(regs, command, table, bytes)
}

// The last ID byte of a Format is held: the reply, and the track in the store.
pub fn finish_format(
    regs: Regs,
    shape: Shape,
    ids: &[u8],
    table: &mut [u8],
    bytes: &mut [u8],
) -> Answered<Report>
    ensures { (x : List ℕ) → Stores (into_here (IntoTrack shape) ids.now regs table.old bytes.old x)
        regs table.old bytes.old result table.new bytes.new }
{
    let c1 = regs.write.c1;
    let d = regs.named(c1);
    let r = format_reply(regs.finished(), c1, shape.size);
    if !d.disk {
        return r.done();
    }
    match lay_track(c1, d.cylinder, shape, ids, table, bytes) {
        Err(why) => regs.refused(why),
        Ok(()) => r.done(),
    }
}

// A whole command. Each case takes other parts of it, so they stand in one `match`.
pub fn run_cmd(
    regs: Regs,
    which: Command,
    command: [u8; 9],
    table: &mut [u8],
    bytes: &mut [u8],
    transfer: &mut [u8],
) -> Answered<Report>
    ensures { ran result table.new bytes.new transfer.new
        ≡ ran_here which command regs table.old bytes.old transfer.old }
{
    match which {
        Command::Specify | Command::Unserved => regs.done(),
        Command::SenseDrive => sense_drive(regs, command[1]).done(),
        Command::Recalibrate => seek(regs, command[1], 0),
        Command::SenseInterrupt => sense_interrupt(regs).done(),
        Command::SeekTo => seek(regs, command[1], command[2]),
        Command::Version => regs.replied(&[0x80]).done(),
        Command::ReadData => read_data(regs, false, command, table, bytes, transfer),
        Command::ReadDeleted => read_data(regs, true, command, table, bytes, transfer),
        Command::WriteData => write_data(regs, command[1], sector_id(command), table, bytes),
        Command::ReadId => read_id(regs, command[1], table, bytes),
        Command::FormatTrack => format_track(regs, command, table, bytes),
        Command::Invalid => invalid(regs).done(),
    }
}

// A write in progress, and a byte sent.
ghost use Rattle.std.specs.Prelude.{◌≡◌, List, ℕ, ◌<◌, ◌≤◌, length};
ghost use Rattle.fields.specs.Capacities.{most_held};
ghost use Rattle.registers.specs.declared.regs.Goal.TheVariants.{IntoSector};
ghost use Rattle.registers.specs.Boxes.{whole_of};
ghost use Rattle.registers.specs.View.{goal_of};
ghost use Rattle.commands.specs.Lent.{Stores, into_here, written_here, left, left_of};
ghost use Rattle.sending.specs.Calls.{command_here, data_here, data_write};

use codes::{St0, bytes_for, command_of, head_of};
use commands::{finish_format, run_cmd};
use fields::{HELD, Refusal, SectorId, St1};
use registers::{Answered, Goal, Regs, Report};

// The last byte of a sector is held: the reply, and the sector in the store.
fn finish_sector(
    regs: Regs,
    id: SectorId,
    held: &[u8],
    table: &mut [u8],
    bytes: &mut [u8],
) -> Answered<Report>
    requires { length held.now ≤ most_held }
    ensures { (x : List ℕ) → Stores (into_here (IntoSector id) held.now regs table.old bytes.old x)
        regs table.old bytes.old result table.new bytes.new }
{
    let c1 = regs.write.c1;
    let d = regs.named(c1);
    let r = regs
        .finished()
        .reply7(St0::from_c1(c1) + St0::FAIL, St1::END_OF_CYLINDER, 0, id);
    if !d.disk {
        return r.done();
    }
    match disk::save(table, bytes, head_of(c1), d.cylinder, id, held) {
        Err(why) => regs.refused(why),
        Ok(None) => r.done(),
        Ok(Some(sector)) => r.found(sector),
    }
}

// The last byte of a write is held, be it of a sector or of a Format.
fn finish_write(regs: Regs, held: &[u8], table: &mut [u8], bytes: &mut [u8]) -> Answered<Report>
    requires { length held.now ≤ most_held }
    ensures { (x : List ℕ) → Stores (written_here held.now regs table.old bytes.old x)
        regs table.old bytes.old result table.new bytes.new }
{
    match regs.write.goal() {
        Goal::IntoSector(id) => finish_sector(regs, id, held, table, bytes),
        Goal::IntoTrack(shape) => finish_format(regs, shape, held, table, bytes),
    }
}

// A byte of a write in progress: the last one has it saved.
#[tactic(auto, using(crate::proofs::Sends::in_held, crate::proofs::Sends::set_room, crate::proofs::Sends::set_count, crate::proofs::Sends::set_few, crate::proofs::Sends::set_in))]
fn data_byte(
    regs: Regs,
    b: u8,
    held: &mut [u8],
    table: &mut [u8],
    bytes: &mut [u8],
) -> Answered<Report>
    requires { (length held.old ≡ most_held) × (regs.write.taken < whole_of (goal_of regs.write)) }
    ensures { (x : List ℕ) → left result held.new table.new bytes.new x
        ≡ left_of (data_here regs b held.old table.old bytes.old x)
        regs held.old table.old bytes.old x }
{
    let whole = regs.write.goal().whole();
    let at = regs.write.taken as usize;
    let was = held[at];
    held[at] = b;
    let r = regs.holds(b);
    let end = at + 1;
    if end != whole {
        return r.done();
    }
    let a = finish_write(r, &held[..end], table, bytes);
    match a.answer {
        Ok(_) => a,
        Err(why) => {
            held[at] = was;
            regs.refused(why)
        }
    }
}

// A byte of a command: the last one has it obeyed.
fn maybe_run_cmd(
    regs: Regs,
    b: u8,
    table: &mut [u8],
    bytes: &mut [u8],
    transfer: &mut [u8],
) -> Answered<Report>
    requires { regs.count < 9 }
    ensures { (h : List ℕ) → left result h table.new bytes.new transfer.new
        ≡ left_of (command_here regs b table.old bytes.old transfer.old)
        regs h table.old bytes.old transfer.old }
{
    let r = regs.added(b);
    let which = command_of(r.command[0]);
    if r.count != bytes_for(which) {
        return r.done();
    }
    regs.kept(run_cmd(r.cleared(), which, r.command, table, bytes, transfer))
}

// A byte sent: one of a write in progress, or else of a command. 1 for held bytes of another length, or numbers that no controller has.
pub fn write_cmd(
    regs: Regs,
    b: u8,
    held: &mut [u8],
    table: &mut [u8],
    bytes: &mut [u8],
    transfer: &mut [u8],
) -> Answered<Report>
    ensures { left result held.new table.new bytes.new transfer.new
        ≡ data_write regs b held.old table.old bytes.old transfer.old }
{
    if held.len() != HELD || regs.impossible_in(transfer) {
        return regs.refused(Refusal::BadController);
    }
    if regs.write.on {
        return data_byte(regs, b, held, table, bytes);
    }
    maybe_run_cmd(regs, b, table, bytes, transfer)
}

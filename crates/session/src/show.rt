// Shows a disk as the listing rules of document 01 print it, by the layout of docs/STORE.md.
ghost use Rattle.std.specs.Prelude.{◌<◌};
ghost use Rattle.store.specs.Store.{table_length};

use std::io;

fn sector(rt: &impl Print, table: &[u8], at: usize) -> io::Result<()>
    requires { at < 65536 }
{
    let row = tracks::row_at(table, at);
    let id = row.id;
    print!(rt; "sector {} {} {} {}", id.c, id.h, id.r, id.n)?;
    let stored = row.stored as usize;
    println!(rt;
        " {} {} {stored} {}",
        row.st1.bits,
        row.st2.bits,
        id.copies(stored)
    )
}

fn track(rt: &impl Print, table: &[u8], at: usize) -> io::Result<()>
    requires { at < table_length }
{
    let cylinder = fields::byte(table, at);
    let side = fields::byte(table, at + 1);
    let gap = fields::byte(table, at + 3);
    let filler = fields::byte(table, at + 4);
    let count = fields::byte(table, at + 5);
    println!(rt; "track {cylinder} {side} sectors {count} gap {gap} filler {filler}")?;
    for k in 0..count {
        sector(rt, table, at + 6 + 8 * k)?;
    }
    Ok(())
}

pub(crate) fn disk(rt: &impl Print, table: &[u8]) -> io::Result<()> {
    let held = replay::measure(table);
    println!(rt;
        "disk tracks {} sectors {} bytes {}",
        held.tracks, held.sectors, held.bytes
    )?;
    let mut at: usize = 1;
    for _ in 0..fields::byte(table, 0) {
        if store::TABLE <= at {
            return Ok(());
        }
        track(rt, table, at)?;
        at += 6 + 8 * fields::byte(table, at + 5);
    }
    Ok(())
}

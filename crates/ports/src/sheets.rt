// Sheets: the controller written out and read back.
use crate::show;
use fields::HELD;
use floppy::{Floppy, Shown};
use registers::{Pending, Regs};
use sheet::LONGEST;
use std::io;
use std::io::Write;

// What is overwritten holds nothing but this byte.
const OTHER: u8 = 90;

// A controller with something in its boxes, for a sheet to be read over.
fn other() -> Floppy {
    let regs = Floppy::new().regs;
    let write = Pending {
        on: true,
        c1: 4,
        taken: 90,
        ..regs.write
    };
    Floppy {
        regs: Regs {
            write,
            motor: true,
            index: 23130,
            fill: 7,
            until: 90,
            lost: 2,
            ..regs
        },
        held: [OTHER; HELD],
    }
}

// Shows a controller written out, and reads that back over other bytes in as much of a transfer buffer as is lent.
pub(crate) fn rewrite<W: Write>(
    out: &mut W,
    floppy: Floppy,
    transfer: &mut [u8],
) -> io::Result<Shown<()>> {
    let mut paper = [0; LONGEST];
    let length = match sheet::write(floppy, transfer, &mut paper) {
        Ok(length) => length,
        Err(why) => {
            let answer = Err(why);
            return Ok(Shown { answer, floppy });
        }
    };
    let written = buffer::part(&paper, 0, length as usize);
    write!(out, " {}", written.len())?;
    show::bytes(out, written)?;
    transfer.fill(OTHER);
    Ok(sheet::read(other(), written, transfer))
}

// Runs a script of calls on a controller and its disk, and prints what each call answers. docs/SESSION.md has the calls.
#![tactic(auto)]

mod call;
mod file;
mod input;
mod line;
mod message;
mod parse;
mod print;
mod show;

use call::Bench;
use input::Script;
use line::Line;
use parse::{Call, parse};
use std::io;
use std::io::Read;
use std::rt::Files;

// No line is longer.
const LONGEST: usize = 4096;

// Makes a call.
fn obey<R: Print + Files>(rt: &R, line: Line<'_>, call: Call, bench: &mut Bench) -> io::Result<()> {
    match call {
        Call::Fresh => bench.fresh(rt),
        Call::Load => bench.load(rt, line),
        Call::Out => bench.remove(rt),
        Call::Machine(setting) => bench.machine(rt, setting),
        Call::Motor(on) => bench.motor(rt, on),
        Call::Status(times) => bench.status(rt, times),
        Call::Write(count) => bench.write(rt, count),
        Call::Read(times) => bench.read(rt, times),
        Call::Transfer(room) => bench.lend(rt, room),
        Call::Geometry => bench.geometry(rt),
        Call::Sector => bench.sector(rt),
        Call::Disk => bench.disk(rt),
        Call::Pause => bench.pause(rt, line),
        Call::Resume => bench.resume(rt, line),
        Call::Home => bench.home(rt, line),
    }
}

// Runs a line.
fn run_line<R: Print + Files>(rt: &R, line: Line<'_>, bench: &mut Bench) -> io::Result<()> {
    if LONGEST < line.text.len() {
        return message::too_long(rt, line.number);
    }
    match parse(line, &mut bench.spare) {
        Ok(Some(call)) => obey(rt, line, call, bench),
        Ok(None) => Ok(()),
        Err(wrong) => message::wrong(rt, line, wrong),
    }
}

// Runs every line.
fn run<R: Print + Files>(
    rt: &R,
    input: &mut Script<impl Read + Drop>,
    bench: &mut Bench,
) -> io::Result<()> {
    let mut space = [0; 4097];
    for number in 1..=u64::MAX {
        let Some(text) = input.take_line(&mut space)? else {
            return Ok(());
        };
        run_line(rt, Line { number, text }, bench)?;
    }
    Ok(())
}

fn main(rt: HostRuntime) -> io::Result<()> {
    let mut input = Script::new(rt.reader());
    let mut bench = Bench {
        controller: [0; layout::LENGTH],
        table: [0; store::TABLE],
        content: [0; fields::DATA],
        transfer: [0; fields::TRANSFER],
        lent: fields::TRANSFER,
        spare: [0; 2097152],
    };
    host::floppy_new(&mut bench.controller);
    run(&rt, &mut input, &mut bench)
}

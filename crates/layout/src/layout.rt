// The controller as bytes that the host lends: 44 bytes of numbers, then the 1,024 held bytes. docs/HOST.md has the layout.
ghost use Rattle.std.specs.Prelude.{◌≡◌, ◌+◌, ◌≤◌, [], length};
ghost use Rattle.fields.specs.Bytes.{number_at};
ghost use Rattle.layout.specs.Layout.{controller_length, flag_byte, seek_byte, part_for, command_for, reading_for, state_for, numbers_for};
ghost use Rattle.layout.specs.Layout.{flag_at, seek_at, write_at, drive_at, regs_at, held_at, formed, regs_in};

use fields::{HELD, Refusal, word_at};
use registers::{Drive, Pending, Regs, Seek, Target};

// How many bytes the numbers take; the held bytes stand behind them.
pub const NUMBERS: usize = 44;

pub const LENGTH: usize = NUMBERS + HELD;

// Where the setting stands.
pub const SETTING: usize = 42;

pub fn flag_at(b: u8) -> bool
    ensures { result ≡ flag_at b }
{
    b != 0
}

pub fn flag_byte(f: bool) -> u8
    ensures { result ≡ flag_byte f }
{
    u8::from(f)
}

pub fn seek_at(b: u8) -> Seek
    ensures { result ≡ seek_at b }
{
    match b {
        1 => Seek::Running,
        2 => Seek::Done,
        _ => Seek::Idle,
    }
}

pub fn seek_byte(s: Seek) -> u8
    ensures { result ≡ seek_byte s }
{
    match s {
        Seek::Idle => 0,
        Seek::Running => 1,
        Seek::Done => 2,
    }
}

// The number in four bytes from a place, the lowest first. Numbers are read byte by byte: every port call goes through
// this, and the compiled code is sensitive to how it is done (docs/SPEED.md). They are written likewise below, in the order of `numbers_for`.
fn long_at(c: &[u8], at: usize) -> u32
    requires { at + 4 ≤ length c.now }
    ensures { result ≡ number_at 4 c.now at }
{
    (word_at(c, at) + 65536 * word_at(c, at + 2)) as u32
}

// Whether a controller has these bytes, as far as one by one they can tell.
pub fn formed(c: &[u8]) -> bool
    ensures { result ≡ formed c.now }
{
    c.len() == LENGTH
        && c[28] <= 1
        && c[31] <= 1
        && c[40] <= 2
        && c[41] <= 1
        && c[42] <= 1
        && c[43] <= 1
}

// The parts of the registers that are in these bytes. Command and reply are taken byte by byte, each with its length: as one function
// over a length they are laid apart from their neighbours, at the price of up to a fifth more instructions a call (docs/SPEED.md).
fn command_at(c: &[u8]) -> [u8; 9]
    requires { length c.now ≡ controller_length }
    ensures { result ≡ part_for 9 c.now 0 [] }
{
    [c[0], c[1], c[2], c[3], c[4], c[5], c[6], c[7], c[8]]
}

fn reply_at(c: &[u8]) -> [u8; 7]
    requires { length c.now ≡ controller_length }
    ensures { result ≡ part_for 7 c.now 10 [] }
{
    [c[10], c[11], c[12], c[13], c[14], c[15], c[16]]
}

fn write_at(c: &[u8]) -> Pending
    requires { length c.now ≡ controller_length }
    ensures { result ≡ write_at c.now }
{
    Pending {
        on: flag_at(c[31]),
        c1: c[32],
        track: flag_at(c[43]),
        target: Target {
            one: c[33],
            two: c[34],
            three: c[35],
            four: c[36],
        },
        taken: word_at(c, 37) as u16,
    }
}

fn drive_at(c: &[u8]) -> Drive
    requires { length c.now ≡ controller_length }
    ensures { result ≡ drive_at c.now }
{
    Drive {
        cylinder: c[39],
        seek: seek_at(c[40]),
        disk: flag_at(c[41]),
    }
}

// The registers that are in these bytes.
pub fn decode(c: &[u8]) -> Regs
    requires { length c.now ≡ controller_length }
    ensures { result ≡ regs_at c.now }
{
    Regs {
        command: command_at(c),
        count: c[9],
        reply: reply_at(c),
        place: c[17],
        fill: c[18],
        from: long_at(c, 19),
        until: long_at(c, 23),
        lost: c[27],
        motor: flag_at(c[28]),
        index: word_at(c, 29) as u16,
        write: write_at(c),
        drive: drive_at(c),
        setting: c[42],
    }
}

// The registers as bytes, in three parts.
fn command_bytes(r: Regs) -> [u8; 17]
    ensures { result ≡ command_for r [] }
{
    let e = r.command;
    let y = r.reply;
    [
        e[0], e[1], e[2], e[3], e[4], e[5], e[6], e[7], e[8], r.count, y[0], y[1], y[2], y[3],
        y[4], y[5], y[6],
    ]
}

fn reading_bytes(r: Regs) -> [u8; 11]
    ensures { result ≡ reading_for r [] }
{
    let f = r.from;
    let u = r.until;
    [
        r.place,
        r.fill,
        (f % 256) as u8,
        (f / 256 % 256) as u8,
        (f / 256 / 256 % 256) as u8,
        (f / 256 / 256 / 256 % 256) as u8,
        (u % 256) as u8,
        (u / 256 % 256) as u8,
        (u / 256 / 256 % 256) as u8,
        (u / 256 / 256 / 256 % 256) as u8,
        r.lost,
    ]
}

fn state_bytes(r: Regs) -> [u8; 16]
    ensures { result ≡ state_for r [] }
{
    let i = r.index;
    let p = r.write;
    let d = p.target;
    let t = p.taken;
    let v = r.drive;
    [
        flag_byte(r.motor),
        (i % 256) as u8,
        (i / 256 % 256) as u8,
        flag_byte(p.on),
        p.c1,
        d.one,
        d.two,
        d.three,
        d.four,
        (t % 256) as u8,
        (t / 256 % 256) as u8,
        v.cylinder,
        seek_byte(v.seek),
        flag_byte(v.disk),
        r.setting,
        flag_byte(p.track),
    ]
}

// The registers that are in these bytes. 1 where no controller has them.
pub fn regs_in(c: &[u8]) -> Result<Regs, Refusal>
    ensures { result ≡ regs_in c.now }
{
    if !formed(c) {
        return Err(Refusal::BadController);
    }
    Ok(decode(c))
}

// Writes the registers into the bytes, part behind part; the held bytes stay.
pub fn encode(r: Regs, c: &mut [u8])
    requires { length c.old ≡ controller_length }
    ensures { c.new ≡ numbers_for r (held_at c.old) }
{
    buffer::copy_in(c, 0, &command_bytes(r));
    buffer::copy_in(c, 17, &reading_bytes(r));
    buffer::copy_in(c, 28, &state_bytes(r));
}

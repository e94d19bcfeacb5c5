// The commands, by their first byte.
ghost use Rattle.std.specs.Prelude.{◌≡◌};
ghost use Rattle.codes.specs.Table.{mask_rows, command_by, command_of, bytes_for};

#[derive(Clone, Copy, PartialEq, Eq)]
pub enum Command {
    Specify,
    SenseDrive,
    Recalibrate,
    SenseInterrupt,
    SeekTo,
    Version,
    ReadData,
    ReadDeleted,
    WriteData,
    ReadId,
    FormatTrack,
    Unserved,
    Invalid,
}

// The command of the rows that go by a mask: masks first, then plain branches.
fn mask_command(c: u8) -> Command
    ensures { result ≡ command_by mask_rows c }
{
    let m1f = c % 32;
    let m3f = c % 64;
    let mbf = c / 128 * 128 + c % 64;
    let m9f = c / 128 * 128 + c % 32;
    if m1f == 0x10 {
        return Command::Version;
    }
    if m1f == 0x06 {
        return Command::ReadData;
    }
    if m1f == 0x0C {
        return Command::ReadDeleted;
    }
    if m3f == 0x05 {
        return Command::WriteData;
    }
    if mbf == 0x0A {
        return Command::ReadId;
    }
    if mbf == 0x0D {
        return Command::FormatTrack;
    }
    if m3f == 0x09 {
        return Command::Unserved;
    }
    if m9f == 0x02 {
        return Command::Unserved;
    }
    if m1f == 0x11 {
        return Command::Unserved;
    }
    if m1f == 0x19 {
        return Command::Unserved;
    }
    if m1f == 0x1D {
        return Command::Unserved;
    }
    Command::Invalid
}

// The command that this first byte begins. Tests in a row: the last arm of a `match` on numbers tells a proof nothing of those before it.
pub fn command_of(c: u8) -> Command
    ensures { result ≡ command_of c }
{
    if c == 0x03 {
        return Command::Specify;
    }
    if c == 0x04 {
        return Command::SenseDrive;
    }
    if c == 0x07 {
        return Command::Recalibrate;
    }
    if c == 0x0F {
        return Command::SeekTo;
    }
    if c == 0x08 {
        return Command::SenseInterrupt;
    }
    mask_command(c)
}

// How many bytes a command has.
pub fn bytes_for(k: Command) -> u8
    ensures { result ≡ bytes_for k }
{
    match k {
        Command::Specify => 3,
        Command::SenseDrive => 2,
        Command::Recalibrate => 2,
        Command::SenseInterrupt => 1,
        Command::SeekTo => 3,
        Command::Version => 1,
        Command::ReadData => 9,
        Command::ReadDeleted => 9,
        Command::WriteData => 9,
        Command::ReadId => 2,
        Command::FormatTrack => 6,
        Command::Unserved => 9,
        Command::Invalid => 1,
    }
}

// What the second byte of a command, c1, names.
ghost use Rattle.std.specs.Prelude.{◌≡◌};
ghost use Rattle.codes.specs.Second.{drive_of, head_of};

// The drive.
pub fn drive_of(c1: u8) -> u8
    ensures { result ≡ drive_of c1 }
{
    c1 % 4
}

// The head.
pub fn head_of(c1: u8) -> u8
    ensures { result ≡ head_of c1 }
{
    c1 / 4 % 2
}

// A sector's ID and its two status bytes, with the names of their bits.
ghost use Rattle.std.specs.Prelude.{◌≡◌};
ghost use Rattle.fields.specs.Model.{size_of, copies};

#[derive(Clone, Copy, PartialEq, Eq)]
pub struct SectorId {
    pub c: u8,
    pub h: u8,
    pub r: u8,
    pub n: u8,
}

// The size that an n names: the printed one that n & 3 chooses.
pub fn size_of(n: u8) -> usize
    ensures { result ≡ size_of n }
{
    match n % 4 {
        0 => 128,
        1 => 256,
        2 => 512,
        _ => 1024,
    }
}

impl SectorId {
    // The size that its n names, whatever is stored.
    pub fn len(self) -> usize
        ensures { result ≡ size_of self.n }
    {
        size_of(self.n)
    }

    // How many copies are stored. A sector with n of 4 or more counts as one large one, or none without bytes.
    // Of a smaller n it is how often the size goes into the stored length, 0 where that leaves a remainder.
    pub fn copies(self, stored: usize) -> usize
        ensures { result ≡ copies stored self.n }
    {
        if 4 <= self.n {
            return (0 < stored) as usize;
        }
        let size = self.len();
        if stored % size == 0 {
            return stored / size;
        }
        0
    }
}

// Status register 1. A loaded byte keeps every bit. It and the next are two types: the names of bits stand with their register (document 01).
#[derive(Clone, Copy)]
pub struct St1 {
    pub bits: u8,
}

impl St1 {
    pub const MISSING_AM: u8 = 0x01;

    pub const NOT_WRITEABLE: u8 = 0x02;

    pub const NO_DATA: u8 = 0x04;

    pub const UNUSED_0: u8 = 0x08;

    pub const OVERRUN: u8 = 0x10;

    pub const DATA_ERROR: u8 = 0x20;

    pub const UNUSED_1: u8 = 0x40;

    pub const END_OF_CYLINDER: u8 = 0x80;
}

// Status register 2. A loaded byte keeps every bit.
#[derive(Clone, Copy)]
pub struct St2 {
    pub bits: u8,
}

impl St2 {
    pub const MISSING_AM_IN_DATA: u8 = 0x01;

    pub const BAD_CYLINDER: u8 = 0x02;

    pub const SCAN_NOT_SATISFIED: u8 = 0x04;

    pub const SCAN_EQUAL_HIT: u8 = 0x08;

    pub const WRONG_CYLINDER: u8 = 0x10;

    pub const DATA_ERROR_IN_DATA: u8 = 0x20;

    pub const CONTROL_MARK: u8 = 0x40;

    pub const UNUSED_0: u8 = 0x80;
}

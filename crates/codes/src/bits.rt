// The names of the bits of the main status register and of status registers 0 and 3, each with its register, as document 01 has them; St1 and St2 stand in `fields`, since a disk keeps them.
ghost use Rattle.std.specs.Prelude.{◌≡◌};
ghost use Rattle.codes.specs.Second.{u};

// The main status register.
#[derive(Clone, Copy)]
pub struct MainReg {
    pub bits: u8,
}

impl MainReg {
    pub const FDD0_BUSY: u8 = 0x01;

    pub const FDD1_BUSY: u8 = 0x02;

    pub const FDD2_BUSY: u8 = 0x04;

    pub const FDD3_BUSY: u8 = 0x08;

    pub const BUSY: u8 = 0x10;

    pub const EXE_MODE: u8 = 0x20;

    pub const DIO: u8 = 0x40;

    pub const RQM: u8 = 0x80;
}

// Status register 0.
#[derive(Clone, Copy)]
pub struct St0 {
    pub bits: u8,
}

impl St0 {
    pub const DRIVE_0: u8 = 0x01;

    pub const DRIVE_1: u8 = 0x02;

    pub const HEAD: u8 = 0x04;

    pub const NOT_READY: u8 = 0x08;

    pub const EQUIP_CHECK: u8 = 0x10;

    pub const SEEK_END: u8 = 0x20;

    pub const FAIL: u8 = 0x40;

    pub const UNKNOWN: u8 = 0x80;

    // The drive and the head that a command's second byte names.
    pub fn from_c1(c1: u8) -> u8
        ensures { result ≡ u c1 }
    {
        c1 % 8
    }
}

// Status register 3.
#[derive(Clone, Copy)]
pub struct St3 {
    pub bits: u8,
}

impl St3 {
    pub const DRIVE_0: u8 = 0x01;

    pub const DRIVE_1: u8 = 0x02;

    pub const HEAD: u8 = 0x04;

    pub const TWO_SIDE: u8 = 0x08;

    pub const TRACK_0: u8 = 0x10;

    pub const READY: u8 = 0x20;

    pub const WRITE_PROTECTED: u8 = 0x40;

    pub const FAULT: u8 = 0x80;

    // The drive and the head that a command's second byte names: the same bits, made under this register's name.
    pub fn from_c1(c1: u8) -> u8
        ensures { result ≡ u c1 }
    {
        St0::from_c1(c1)
    }
}

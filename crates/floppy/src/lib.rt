// The floppy controller uPD765A, over a disk that is kept in a lent table and a lent data buffer. What is read lies in a lent transfer buffer.
#![tactic(auto)]

ghost use Rattle.std.specs.Prelude.{◌≡◌};
ghost use Rattle.floppy.specs.Calls.{new_floppy, shown, shown_as, changed_as, wrote, status_call, read_call, write_call};
ghost use Rattle.registers.specs.Calls.{motor_set, disk_set, motor_of, current_track, disk_in, setting_in};

use fields::{HELD, Refusal};
use registers::{Answered, Drive, Pending, Regs, Report, Seek};

// A controller: its registers, and beside them the bytes of an unfinished write.
#[derive(Clone, Copy)]
pub struct Floppy {
    pub regs: Regs,
    pub held: [u8; HELD],
}

// What a call answers, or why it was refused, with the controller then. `Answered` of `registers` has the registers there: promises name either.
#[derive(Clone, Copy)]
pub struct Shown<T> {
    pub answer: Result<T, Refusal>,
    pub floppy: Floppy,
}

impl Floppy {
    // A new controller with the Rust machine.
    pub fn new() -> Floppy
        ensures { result ≡ new_floppy 0 }
    {
        Floppy::new_with(0)
    }

    // A new controller with a setting, of which bit 0 is the machine: 0 the Rust's, 1 the data sheet's. Other bits mean nothing yet.
    #[tactic(auto, unfolding(crate::specs::Calls::new_floppy))]
    pub fn new_with(setting: u8) -> Floppy
        ensures { result ≡ new_floppy setting }
    {
        let regs = Regs {
            command: [0; 9],
            count: 0,
            reply: [0; 7],
            place: 0,
            fill: 0,
            from: 0,
            until: 0,
            lost: 0,
            motor: false,
            index: 0,
            write: Pending::none(),
            drive: Drive {
                cylinder: 0,
                seek: Seek::Idle,
                disk: false,
            },
            setting: setting % 2,
        };
        Floppy {
            regs,
            held: [0; HELD],
        }
    }

    // What the registers answer, with the controller then.
    fn with<T>(self, a: Answered<T>) -> Shown<T>
        ensures { result ≡ shown_as a self.held }
    {
        Shown {
            answer: a.answer,
            floppy: Floppy {
                regs: a.regs,
                ..self
            },
        }
    }

    pub fn set_motor(self, motor: bool) -> Shown<()>
        ensures { result ≡ changed_as (motor_set motor self.regs) self.held }
    {
        self.with(self.regs.set_motor(motor))
    }

    pub fn motor(self) -> Result<bool, Refusal>
        ensures { result ≡ motor_of self.regs }
    {
        self.regs.motor()
    }

    pub fn current_track(self) -> Result<u8, Refusal>
        ensures { result ≡ current_track self.regs }
    {
        self.regs.current_track()
    }

    // Whether a disk is in the drive.
    pub fn disk(self) -> Result<bool, Refusal>
        ensures { result ≡ disk_in self.regs }
    {
        self.regs.disk()
    }

    // The setting that the controller was made with.
    pub fn setting(self) -> Result<u8, Refusal>
        ensures { result ≡ setting_in self.regs }
    {
        self.regs.setting()
    }

    // Another disk is in the drive, the one in the store that is lent from now on, or none. All else is carried over, a write in progress included.
    pub fn set_disk(self, present: bool) -> Shown<()>
        ensures { result ≡ changed_as (disk_set present self.regs) self.held }
    {
        self.with(self.regs.set_disk(present))
    }

    // A byte sent to the data port. A refused one is not taken and may be sent again.
    pub fn write_step(
        mut self,
        b: u8,
        table: &mut [u8],
        bytes: &mut [u8],
        transfer: &mut [u8],
    ) -> Shown<Report>
        ensures { wrote result table.new bytes.new transfer.new
            ≡ write_call self b table.old bytes.old transfer.old }
    {
        let a = sending::write_cmd(self.regs, b, &mut self.held, table, bytes, transfer);
        self.with(a)
    }

    // A read of the data port.
    pub fn read_step(self, transfer: &[u8]) -> Shown<u8>
        ensures { result ≡ read_call self transfer.now }
    {
        self.with(self.regs.read_cmd(transfer))
    }

    // A read of the main status.
    pub fn status_step(self) -> Shown<u8>
        ensures { result ≡ status_call self }
    {
        self.with(self.regs.read_status())
    }

    // The same three over a controller that is lent to be changed, as the Rust has them. A port read copies the registers and no held byte.

    pub fn write_cmd(
        &mut self,
        b: u8,
        table: &mut [u8],
        bytes: &mut [u8],
        transfer: &mut [u8],
    ) -> Result<Report, Refusal>
        ensures { wrote (shown result self.new) table.new bytes.new transfer.new
            ≡ write_call self.old b table.old bytes.old transfer.old }
    {
        let a = self.write_step(b, table, bytes, transfer);
        *self = a.floppy;
        a.answer
    }

    pub fn read_cmd(&mut self, transfer: &[u8]) -> Result<u8, Refusal>
        ensures { shown result self.new ≡ read_call self.old transfer.now }
    {
        let a = self.regs.read_cmd(transfer);
        self.regs = a.regs;
        a.answer
    }

    pub fn read_status(&mut self) -> Result<u8, Refusal>
        ensures { shown result self.new ≡ status_call self.old }
    {
        let a = self.regs.read_status();
        self.regs = a.regs;
        a.answer
    }
}

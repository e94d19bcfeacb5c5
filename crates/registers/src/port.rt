// Reads of the two ports, and the calls that ask or change one box.
ghost use Rattle.std.specs.Prelude.{◌≡◌, ◌<◌, ◌≤◌, ◌==◌, nat_lt, not, Ok};
ghost use Rattle.fields.specs.Refusals.{need};
ghost use Rattle.fields.specs.declared.refusal.Refusal.TheVariants.{BadController};
ghost use Rattle.store.specs.Store.{transfer_room};
ghost use Rattle.registers.specs.Ports.{phase, seek_bit, settled, poll_by};
ghost use Rattle.registers.specs.View.{impossible, impossible_in};
ghost use Rattle.registers.specs.Settle.{sought};
ghost use Rattle.registers.specs.Calls.{status_of, regs_polled, after_status_of, status_read, data_read, motor_set, disk_set, motor_of, current_track, disk_in, setting_in};

use crate::regs::{Answered, Drive, Regs, Seek};
use codes::MainReg;
use fields::Refusal;
use store::transfer_room;

impl Seek {
    fn bit(self) -> u8
        ensures { (result ≡ seek_bit self) × (result ≤ 1) }
    {
        match self {
            Seek::Idle => 0,
            Seek::Running | Seek::Done => MainReg::FDD0_BUSY,
        }
    }

    fn settled(self) -> Self
        ensures { result ≡ settled self }
    {
        match self {
            Seek::Idle | Seek::Done => Seek::Idle,
            Seek::Running => Seek::Running,
        }
    }
}

impl Regs {
    // Numbers that no controller has, with so much lent for its data.
    #[tactic(auto, unfolding(crate::specs::View::impossible_in))]
    pub fn impossible_in(self, transfer: &[u8]) -> bool
        ensures { result ≡ impossible_in transfer.now self }
    {
        self.impossible() || transfer_room(transfer) < self.until as usize
    }

    // Refuses numbers that no controller has.
    fn checked(self) -> Result<(), Refusal>
        ensures { result ≡ need (not (impossible self)) BadController (Ok tt) }
    {
        if self.impossible() {
            return Err(Refusal::BadController);
        }
        Ok(())
    }

    // What the status shows of the phase.
    fn phase(self) -> u8
        ensures { (result ≡ phase self.write.on (nat_lt self.from self.until) (nat_lt self.place self.fill) (nat_lt 0 self.count)) × (result < 255) }
    {
        if self.write.on {
            return MainReg::RQM + MainReg::EXE_MODE + MainReg::BUSY;
        }
        if self.from < self.until {
            return MainReg::RQM + MainReg::DIO + MainReg::EXE_MODE + MainReg::BUSY;
        }
        if self.place < self.fill {
            return MainReg::RQM + MainReg::DIO + MainReg::BUSY;
        }
        if 0 < self.count {
            return MainReg::RQM + MainReg::BUSY;
        }
        MainReg::RQM
    }

    // Unread data that are not taken: the lost count rises, and at three a byte is dropped.
    #[tactic(auto, unfolding(crate::specs::Calls::regs_polled))]
    fn polled(self) -> Self
        requires { self.lost ≤ 2 }
        ensures { result ≡ regs_polled (poll_by self.write.on (nat_lt self.from self.until) (self.lost == 2)) self }
    {
        if self.write.on || self.until <= self.from {
            return self;
        }
        if self.lost == 2 {
            return Regs {
                from: self.from + 1,
                lost: 0,
                ..self
            };
        }
        Regs {
            lost: self.lost + 1,
            ..self
        }
    }

    #[tactic(auto, unfolding(crate::specs::Calls::status_read, crate::specs::Calls::status_of, crate::specs::Calls::after_status_of))]
    pub fn read_status(self) -> Answered<u8>
        ensures { result ≡ status_read self }
    {
        if self.impossible() {
            return self.refused(Refusal::BadController);
        }
        let d = self.drive;
        let shown = self.phase() + d.seek.bit();
        self.moved(d.cylinder, d.seek.settled())
            .polled()
            .answered(shown)
    }

    // Changed in place, and the reply taken out for its byte: every port read goes through this, and with the registers copied, or
    // asked for a place that is not known, it takes a fifth more (docs/SPEED.md).
    #[tactic(auto, unfolding(crate::specs::Calls::data_read, crate::specs::Calls::byte_from, crate::specs::Calls::regs_read))]
    pub fn read_cmd(mut self, transfer: &[u8]) -> Answered<u8>
        ensures { result ≡ data_read self transfer.now }
    {
        if self.impossible_in(transfer) {
            return self.refused(Refusal::BadController);
        }
        self.lost = 0;
        if self.from < self.until {
            let b = transfer[self.from as usize];
            self.from += 1;
            return self.answered(b);
        }
        if self.place < self.fill {
            let reply = self.reply;
            let b = reply[self.place as usize];
            self.place += 1;
            return self.answered(b);
        }
        self.answered(0)
    }

    #[tactic(auto, unfolding(crate::specs::Calls::motor_set))]
    pub fn set_motor(self, motor: bool) -> Answered<()>
        ensures { result ≡ motor_set motor self }
    {
        if self.impossible() {
            return self.refused(Refusal::BadController);
        }
        Regs { motor, ..self }.answered(())
    }

    #[tactic(auto, unfolding(crate::specs::Calls::motor_of))]
    pub fn motor(self) -> Result<bool, Refusal>
        ensures { result ≡ motor_of self }
    {
        self.checked()?;
        Ok(self.motor)
    }

    #[tactic(auto, unfolding(crate::specs::Calls::current_track))]
    pub fn current_track(self) -> Result<u8, Refusal>
        ensures { result ≡ current_track self }
    {
        self.checked()?;
        Ok(self.drive.cylinder)
    }

    #[tactic(auto, unfolding(crate::specs::Calls::disk_in))]
    pub fn disk(self) -> Result<bool, Refusal>
        ensures { result ≡ disk_in self }
    {
        self.checked()?;
        Ok(self.drive.disk)
    }

    // The number of what the controller was made with.
    #[tactic(auto, unfolding(crate::specs::Calls::setting_in))]
    pub fn setting(self) -> Result<u8, Refusal>
        ensures { result ≡ setting_in self }
    {
        self.checked()?;
        Ok(self.setting)
    }

    // Another disk, or none: all else is carried over.
    #[tactic(auto, unfolding(crate::specs::Calls::disk_set))]
    pub fn set_disk(self, present: bool) -> Answered<()>
        ensures { result ≡ disk_set present self }
    {
        if self.impossible() {
            return self.refused(Refusal::BadController);
        }
        let drive = Drive {
            disk: present,
            ..self.drive
        };
        Regs { drive, ..self }.answered(())
    }
}

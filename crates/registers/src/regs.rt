// The controller's numbers, without the bytes of an unfinished write, and the changes that they go through.
ghost use Rattle.std.specs.Prelude.{◌≡◌, ◌<◌, ◌≤◌, nat_le, slice_index, take};
ghost use Rattle.fields.specs.Capacities.{most_held};
ghost use Rattle.codes.specs.Table.{command_of, bytes_for};
ghost use Rattle.registers.specs.Boxes.{setting_of, whole_of, silent, serves, fitted, seven, Add, Hold, Clear, Turn, Start, Finish, MoveTo};
ghost use Rattle.registers.specs.View.{goal_if, goal_of, is_rust, unknown_to, impossible, wrong_work, wrong_write};
ghost use Rattle.registers.specs.Settle.{accepted, declined, drive_named, replied, regs_with_drive, no_pending, track_in, target_in, regs_taken, regs_changed, kept};

use codes::{bytes_for, command_of, drive_of};
use fields::{Refusal, SectorId};
use store::Match;

// The state of the last seek.
#[derive(Clone, Copy, PartialEq, Eq)]
pub enum Seek {
    Idle,
    Running,
    Done,
}

// A drive: the cylinder that its head is over, the state of its last seek, and whether a disk is in it: a flag, since the disk is lent
// apart.
#[derive(Clone, Copy, PartialEq, Eq)]
pub struct Drive {
    pub cylinder: u8,
    pub seek: Seek,
    pub disk: bool,
}

// A track that a Format asks for: its n, how many sectors, gap and filler.
#[derive(Clone, Copy, PartialEq, Eq)]
pub struct Shape {
    pub size: u8,
    pub sectors: u8,
    pub gap: u8,
    pub filler: u8,
}

// What is written: the data of the sector with an ID, or, for a Format, the IDs of a track of a shape.
#[derive(Clone, Copy, PartialEq, Eq)]
pub enum Goal {
    IntoSector(SectorId),
    IntoTrack(Shape),
}

// Four numbers: c, h, r, n of an ID, or size, sectors, gap, filler of a shape.
#[derive(Clone, Copy, PartialEq, Eq)]
pub struct Target {
    pub one: u8,
    pub two: u8,
    pub three: u8,
    pub four: u8,
}

// A write in progress: the command's second byte, what is written (of a track or not, and which), and how many bytes are held. Flags, four numbers and a
// count, and no `Option` or `Goal`: nothing that the controller keeps changes its shape.
#[derive(Clone, Copy, PartialEq, Eq)]
pub struct Pending {
    pub on: bool,
    pub c1: u8,
    pub track: bool,
    pub target: Target,
    pub taken: u16,
}

// In the Rust: `cmd` is `command` and `count`; `reply` is `reply`, `place` and `fill`; `data` is the transfer buffer from `from` up to `until`;
// `setting` is what the controller was made with, of which bit 0 is the machine. `lost_read` is `lost`; `read_id_idx` is `index`; `data_in` is `write`; `int_seek_completed` is the drive's `seek`.
// Places over fixed buffers, and a setting by its number: nothing here changes its shape.
#[derive(Clone, Copy, PartialEq, Eq)]
pub struct Regs {
    pub command: [u8; 9],
    pub count: u8,
    pub reply: [u8; 7],
    pub place: u8,
    pub fill: u8,
    pub from: u32,
    pub until: u32,
    pub lost: u8,
    pub motor: bool,
    pub index: u16,
    pub write: Pending,
    pub drive: Drive,
    pub setting: u8,
}

// What the host is told beside that a byte was taken: which sector a Read, a Write Data or the end of a write has found, or the match that is none.
#[derive(Clone, Copy, PartialEq, Eq)]
pub struct Report {
    pub sector: Match,
}

// What a call answers, or why it was refused, with the registers then.
#[derive(Clone, Copy)]
pub struct Answered<T> {
    pub answer: Result<T, Refusal>,
    pub regs: Regs,
}

// Whether a setting is that of the Rust machine: bit 0 is the machine.
pub fn is_rust(setting: u8) -> bool
    ensures { result ≡ is_rust (setting_of setting).machine }
{
    setting % 2 == 0
}

// What is written, of a track or not, by its four numbers.
pub fn goal_of(track: bool, t: Target) -> Goal
    ensures { result ≡ goal_if track t }
{
    if track {
        return Goal::IntoTrack(Shape {
            size: t.one,
            sectors: t.two,
            gap: t.three,
            filler: t.four,
        });
    }
    Goal::IntoSector(SectorId {
        c: t.one,
        h: t.two,
        r: t.three,
        n: t.four,
    })
}

// Numbers that no write in progress has, with a setting: as many bytes as it takes, or more, a drive that is not fitted, or a Format in the Rust
// machine.
#[tactic(auto, unfolding(crate::specs::View::wrong_work))]
pub fn wrong_work(setting: u8, c1: u8, goal: Goal, taken: usize) -> bool
    ensures { result ≡ wrong_work (setting_of setting) c1 goal taken }
{
    goal.whole() <= taken || !fitted(c1) || goal.unknown_to(setting)
}

// Whether a command names a drive that is fitted: drive 0.
pub fn fitted(c1: u8) -> bool
    ensures { result ≡ fitted c1 }
{
    drive_of(c1) == 0
}

impl Goal {
    // How many bytes it takes.
    pub fn whole(self) -> usize
        ensures { (result ≡ whole_of self) × (result ≤ most_held) }
    {
        match self {
            Goal::IntoSector(id) => id.len(),
            Goal::IntoTrack(shape) => 4 * (shape.sectors as usize),
        }
    }

    // Whether it is a Format's, and its four numbers.
    fn is_track(self) -> bool
        ensures { result ≡ track_in self }
    {
        matches!(self, Goal::IntoTrack(_))
    }

    // A method, as is `goal_of`, which takes the flag beside: of a `From` the promise would stand in a ghost member, where these have a clause.
    fn target(self) -> Target
        ensures { result ≡ target_in self }
    {
        match self {
            Goal::IntoSector(id) => Target {
                one: id.c,
                two: id.h,
                three: id.r,
                four: id.n,
            },
            Goal::IntoTrack(shape) => Target {
                one: shape.size,
                two: shape.sectors,
                three: shape.gap,
                four: shape.filler,
            },
        }
    }

    // Whether a machine has no such write: the Rust's has no Format in progress.
    fn unknown_to(self, setting: u8) -> bool
        ensures { result ≡ unknown_to (setting_of setting).machine self }
    {
        self.is_track() && is_rust(setting)
    }
}

impl Pending {
    // No write in progress.
    pub fn none() -> Pending
        ensures { result ≡ no_pending }
    {
        Pending {
            on: false,
            c1: 0,
            track: false,
            target: Target {
                one: 0,
                two: 0,
                three: 0,
                four: 0,
            },
            taken: 0,
        }
    }

    // What is written.
    pub fn goal(self) -> Goal
        ensures { result ≡ goal_of self }
    {
        goal_of(self.track, self.target)
    }
}

impl Regs {
    // Whether as much was sent as the command has, or more. Where nothing was sent, no table is asked.
    fn oversent(self) -> bool
        ensures { result ≡ nat_le (bytes_for (command_of (slice_index self.command 0))) self.count }
    {
        self.count != 0 && bytes_for(command_of(self.command[0])) <= self.count
    }

    // Numbers that no write in progress has.
    fn wrong_write(self) -> bool
        ensures { result ≡ wrong_write (setting_of self.setting) self.write }
    {
        self.write.on
            && wrong_work(
                self.setting,
                self.write.c1,
                self.write.goal(),
                self.write.taken as usize,
            )
    }

    // Numbers that no controller has.
    #[tactic(auto, unfolding(crate::specs::View::impossible))]
    pub fn impossible(self) -> bool
        ensures { result ≡ impossible self }
    {
        if self.fill < self.place || self.until < self.from || 7 < self.fill {
            return true;
        }
        if self.oversent() || 2 < self.lost {
            return true;
        }
        self.wrong_write()
    }

    // An answer, with these registers.
    pub fn answered<T>(self, answer: T) -> Answered<T>
        ensures { result ≡ accepted answer self }
    {
        Answered {
            answer: Ok(answer),
            regs: self,
        }
    }

    // The byte was taken, and this sector was found.
    pub fn found(self, sector: Match) -> Answered<Report>
        ensures { result ≡ accepted (serves sector) self }
    {
        self.answered(Report { sector })
    }

    // The byte was taken, and there is nothing to tell.
    pub fn done(self) -> Answered<Report>
        ensures { result ≡ accepted silent self }
    {
        self.found(Match::none())
    }

    // A refusal, with these registers.
    pub fn refused<T>(self, why: Refusal) -> Answered<T>
        ensures { result ≡ declined why self }
    {
        Answered {
            answer: Err(why),
            regs: self,
        }
    }

    // The answer, or where it refuses the refusal with these registers.
    pub fn kept(self, a: Answered<Report>) -> Answered<Report>
        ensures { result ≡ kept self a }
    {
        match a.answer {
            Ok(_) => a,
            Err(why) => self.refused(why),
        }
    }

    // The drive that a command names. One that is not fitted has no disk in, and shows the cylinder of drive 0.
    #[tactic(auto, unfolding(crate::specs::Settle::drive_named))]
    pub fn named(self, c1: u8) -> Drive
        ensures { result ≡ drive_named c1 self }
    {
        if fitted(c1) {
            return self.drive;
        }
        Drive {
            disk: false,
            ..self.drive
        }
    }

    // One more byte of a command.
    pub fn added(self, b: u8) -> Self
        requires { self.count < 9 }
        ensures { result ≡ regs_taken (Add b) self }
    {
        let mut command = self.command;
        command[self.count as usize] = b;
        Regs {
            command,
            count: self.count + 1,
            ..self
        }
    }

    // One more byte of a write is held.
    pub fn holds(self, b: u8) -> Self
        requires { self.write.taken < most_held }
        ensures { result ≡ regs_taken (Hold b) self }
    {
        let write = Pending {
            taken: self.write.taken + 1,
            ..self.write
        };
        Regs { write, ..self }
    }

    pub fn cleared(self) -> Self
        ensures { result ≡ regs_changed Clear self }
    {
        Regs { count: 0, ..self }
    }

    pub fn turned(self) -> Self
        ensures { result ≡ regs_changed Turn self }
    {
        Regs {
            index: self.index.wrapping_add(1),
            ..self
        }
    }

    // A write starts, be it of a sector or of a Format's IDs.
    pub fn started(self, c1: u8, goal: Goal) -> Self
        ensures { result ≡ regs_changed (Start c1 goal) self }
    {
        let write = Pending {
            on: true,
            c1,
            track: goal.is_track(),
            target: goal.target(),
            taken: 0,
        };
        Regs { write, ..self }
    }

    pub fn finished(self) -> Self
        ensures { result ≡ regs_changed Finish self }
    {
        let write = Pending {
            on: false,
            taken: 0,
            ..self.write
        };
        Regs { write, ..self }
    }

    // The head over a cylinder, and a seek state.
    pub fn moved(self, cylinder: u8, seek: Seek) -> Self
        ensures { result ≡ regs_with_drive (record { cylinder = cylinder; seek = seek; disk = self.drive.disk }) self }
    {
        let drive = Drive {
            cylinder,
            seek,
            ..self.drive
        };
        Regs { drive, ..self }
    }

    // A reply: of no more than seven bytes, or of the first seven.
    pub fn replied(self, bytes: &[u8]) -> Self
        ensures { result ≡ replied (take 7 bytes.now) self }
    {
        let n = bytes.len().min(7);
        let mut reply = [0; 7];
        reply[..n].copy_from_slice(&bytes[..n]);
        Regs {
            reply,
            place: 0,
            fill: n as u8,
            ..self
        }
    }

    // A reply of seven: st0, st1, st2 and four more.
    pub fn reply7(self, st0: u8, st1: u8, st2: u8, id: SectorId) -> Self
        ensures { result ≡ replied (seven st0 st1 st2 id) self }
    {
        self.replied(&[st0, st1, st2, id.c, id.h, id.r, id.n])
    }
}

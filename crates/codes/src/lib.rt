// Which command a first byte begins and how many bytes it has, what a second byte names, and the bits of the status registers.
#![tactic(auto)]

mod bits;
mod command;
mod second;

pub use bits::{MainReg, St0, St3};
pub use command::{Command, bytes_for, command_of};
pub use second::{drive_of, head_of};

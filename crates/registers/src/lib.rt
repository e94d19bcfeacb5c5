// The controller's registers by value: what port reads do, and the changes that commands bring. The held bytes of a write are not among them.
#![tactic(auto)]

mod port;
mod regs;

pub use regs::{
    Answered, Drive, Goal, Pending, Regs, Report, Seek, Shape, Target, fitted, goal_of, is_rust,
    wrong_work,
};

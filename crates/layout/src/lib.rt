// A controller as the bytes that a host lends: 44 for the registers, and behind them the held bytes of a write. docs/HOST.md describes them.
#![tactic(auto)]

mod layout;

pub use layout::{
    LENGTH, NUMBERS, SETTING, flag_at, flag_byte, formed, regs_in, seek_at, seek_byte,
};

// For the crate above only: they have a `requires`.
pub use layout::{decode, encode};

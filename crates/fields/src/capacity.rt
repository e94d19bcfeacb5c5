// How much there can be: the capacities of document 01.

// Tracks, and sectors of all of them.
pub const TRACKS: usize = 204;

pub const SECTORS: usize = 2048;

// Bytes of sector data, and bytes of a read.
pub const DATA: usize = 1048576;

pub const TRANSFER: usize = 65536;

// Bytes of a write that the controller holds.
pub const HELD: usize = 1024;

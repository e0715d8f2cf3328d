//! The limits of a network, of this project.

/// How many cuts and clamps a segment has at most.
pub const MOST_MARKS: usize = 256;

/// How far a cut or a clamp may be from its segment's terminal 1, in millimetres.
pub const MOST_LENGTH: u64 = 1_000_000_000_000;

/// How many terminals equipment has at most that is no segment, no switch and not single.
pub const MOST_TERMINALS: usize = 64;

/// How many terminals stand at a place at most.
pub const MOST_AT_PLACE: usize = 1024;

/// How many items an overlay has at most.
pub const MOST_ITEMS: usize = 4096;

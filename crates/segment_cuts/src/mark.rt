//! The marks of a line segment, and the spots on it.

use cim_words::{Id, Length};

/// A cut or a clamp of a line segment (IEC 61970-301).
#[derive(Clone, Copy, Debug, PartialEq, Eq, PartialOrd, Ord, Hash)]
pub struct Mark {
    /// Its identifier.
    pub id: Id,
    /// How far it is from the segment's terminal 1.
    pub length: Length,
    /// Whether it divides the segment: a cut does, a clamp does not.
    pub divides: bool,
}

/// A terminal that stands on a line segment.
#[derive(Clone, Copy, Debug, PartialEq, Eq, PartialOrd, Ord, Hash)]
pub enum Spot {
    /// Terminal 1 of the segment.
    EndOne,
    /// Terminal 2 of the segment.
    EndTwo,
    /// The terminal of a clamp.
    Clamp(Id),
    /// Terminal 1 of a cut.
    CutOne(Id),
    /// Terminal 2 of a cut.
    CutTwo(Id),
}

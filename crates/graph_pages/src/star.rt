//! What a graph says of one piece of equipment or temporary item.

use cim_words::{Class, Id, Listed, PhaseSet};
use room_words::{Anchor, Members, Term};

/// The phases of a terminal.
#[derive(Clone, Copy, Debug, PartialEq, Eq)]
pub enum SpokePhases {
    /// Its own.
    Own(PhaseSet),
    /// Those of the segment that its owner stands on.
    OfSegment,
}

/// A terminal as its owner's star lists it.
#[derive(Clone, Copy, Debug, PartialEq, Eq)]
pub struct Spoke {
    /// The terminal.
    pub term: Term,
    /// The place where it stands, if it stands at one.
    pub at: Option<Anchor>,
    /// Its phases.
    pub phases: SpokePhases,
}

/// The terminals of one star.
pub type Spokes = Listed<Spoke>;

/// The terminals on a segment, section by section, from its terminal 1 to its terminal 2.
pub type Sections = Listed<Members>;

/// How current passes between the terminals of a star.
#[derive(Drop)]
pub enum Pass {
    /// Not at all.
    Nothing,
    /// From each terminal to each, in every phase.
    Same,
    /// As through a switch, which may be open.
    Switch {
        /// Whether it is open.
        is_open: bool,
    },
    /// As through a transformer.
    Transformer,
    /// Along a line segment, within its sections and in its phases.
    Line {
        /// The segment's phases.
        phases: PhaseSet,
        /// The terminals on the segment, section by section.
        sections: Sections,
    },
}

/// A piece of equipment or a temporary item, with its terminals.
#[derive(Drop)]
pub struct Star {
    /// Its identifier.
    pub id: Id,
    /// Its class; that of an item is Cut, Clamp, Jumper or Ground.
    pub class: Class,
    /// The segment on which a cut or clamp stands.
    pub on: Option<Id>,
    /// Its terminals.
    pub spokes: Spokes,
    /// How current passes between them.
    pub pass: Pass,
}

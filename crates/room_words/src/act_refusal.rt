//! Why a switching order is refused.

use cim_words::Id;

/// The refusals of an act, in the order in which they are asked: the first that holds is the answer.
#[derive(Clone, Copy, Debug, PartialEq, Eq)]
pub enum ActRefusal {
    /// What is acted on, or the segment of a cut or a clamp, is neither equipment of the model nor an item.
    Unknown(Id),
    /// The identifier of what is placed is a subject of the model or an item already.
    Taken(Id),
    /// What is acted on is of a kind that the act does not fit: no switch, or no line segment.
    Kind(Id),
    /// What is to be taken away is permanent equipment.
    Permanent(Id),
    /// What is switched has that position now.
    Already,
    /// No position is in force for the switch that is released.
    NotHeld,
    /// The length is beyond the limit or beyond the segment's end.
    Length,
    /// At that length stands another mark: the least one for a cut, the cut for a clamp.
    SamePlace(Id),
    /// This anchor, counted from 1, is no node of the model and no side of an item.
    NoAnchor(u8),
    /// Both anchors of a jumper are one place.
    SameAnchor,
    /// A jumper or a ground has no phase.
    Phases,
    /// The segment has as many marks as it may, or the place of an anchor as many terminals: the segment, the node or the item.
    Crowded(Id),
    /// An item is anchored at a side of what is to be taken away: the first such item in order of placing.
    InUse(Id),
    /// The overlay has as many items as it may.
    Full,
}

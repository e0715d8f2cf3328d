//! Switching orders.

ghost use Rattle.std.specs.Prelude.{◌≡◌};
ghost use Rattle.room_words.specs.Acts.{acted_on, placed};

use crate::anchor::Anchor;
use crate::items::TempItem;
use cim_words::{Id, Length, PhaseSet};

/// What an operator orders: a switch is opened or closed, or an item is placed or taken away (after Switch, Cut, Clamp, Jumper and
/// Ground of IEC 61970-301).
#[derive(Clone, Copy, Debug, PartialEq, Eq)]
pub enum Act {
    /// A switch, or a temporary cut or jumper, is opened.
    OpenSwitch(Id),
    /// A switch, or a temporary cut or jumper, is closed.
    CloseSwitch(Id),
    /// The position in force of a switch is taken away: the switch is again as the model states.
    Release(Id),
    /// A temporary item is taken away.
    Remove(Id),
    /// A line segment is cut, and the cut is open.
    Cut {
        /// The cut's own identifier.
        new_id: Id,
        /// The segment that it divides.
        segment: Id,
        /// How far it stands from the segment's terminal 1.
        length: Length,
    },
    /// A clamp is put on a line segment.
    Clamp {
        /// The clamp's own identifier.
        new_id: Id,
        /// The segment that it stands on.
        segment: Id,
        /// How far it stands from the segment's terminal 1.
        length: Length,
    },
    /// A jumper is fitted between two places, and is closed.
    Jumper {
        /// The jumper's own identifier.
        new_id: Id,
        /// Where its first terminal is anchored.
        first: Anchor,
        /// Where its second terminal is anchored.
        second: Anchor,
        /// The phases that it joins.
        phases: PhaseSet,
    },
    /// A place is grounded.
    Ground {
        /// The ground's own identifier.
        new_id: Id,
        /// Where its terminal is anchored.
        at: Anchor,
        /// The phases that it grounds.
        phases: PhaseSet,
    },
}

impl Act {
    /// The identifier of what it acts on: the switch or the item, or the segment of a cut or a clamp.
    pub fn acted_on(&self) -> Option<Id>
        ensures { result ≡ acted_on self.now }
    {
        match *self {
            Act::OpenSwitch(id) | Act::CloseSwitch(id) | Act::Release(id) | Act::Remove(id) => {
                Some(id)
            }
            Act::Cut { segment, .. } | Act::Clamp { segment, .. } => Some(segment),
            Act::Jumper { .. } | Act::Ground { .. } => None,
        }
    }

    /// The item that it places, as it is placed.
    pub fn placed(&self) -> Option<TempItem>
        ensures { result ≡ placed self.now }
    {
        match *self {
            Act::OpenSwitch(_) | Act::CloseSwitch(_) | Act::Release(_) | Act::Remove(_) => None,
            Act::Cut {
                new_id,
                segment,
                length,
            } => Some(TempItem::Cut {
                id: new_id,
                segment,
                length,
                is_open: true,
            }),
            Act::Clamp {
                new_id,
                segment,
                length,
            } => Some(TempItem::Clamp {
                id: new_id,
                segment,
                length,
            }),
            Act::Jumper {
                new_id,
                first,
                second,
                phases,
            } => Some(TempItem::Jumper {
                id: new_id,
                first,
                second,
                phases,
                is_open: false,
            }),
            Act::Ground { new_id, at, phases } => Some(TempItem::Ground {
                id: new_id,
                at,
                phases,
            }),
        }
    }
}

//! Temporary items.

ghost use Rattle.std.specs.Prelude.{◌≡◌};
ghost use Rattle.room_words.specs.Items.{item_class, item_id, item_phases, item_segment, makes, side, side_one, side_two};

use crate::anchor::{Anchor, places_are_compared};
use crate::term::{Term, TermKey};
use cim_words::{Class, Id, Length, Listed, PhaseSet};

/// Equipment that is placed on the network for a time (after Cut, Clamp, Jumper and Ground of IEC 61970-301).
#[derive(Clone, Copy, Debug, PartialEq, Eq)]
pub enum TempItem {
    /// A cut of a line segment at a length from its terminal 1, open or closed between its sides 1 and 2.
    Cut {
        /// The cut's own identifier.
        id: Id,
        /// The segment that it divides.
        segment: Id,
        /// How far it stands from the segment's terminal 1.
        length: Length,
        /// Whether it is open.
        is_open: bool,
    },
    /// A clamp on a line segment at a length from its terminal 1, with side 1 alone.
    Clamp {
        /// The clamp's own identifier.
        id: Id,
        /// The segment that it stands on.
        segment: Id,
        /// How far it stands from the segment's terminal 1.
        length: Length,
    },
    /// A jumper between two places, open or closed.
    Jumper {
        /// The jumper's own identifier.
        id: Id,
        /// Where its first terminal is anchored.
        first: Anchor,
        /// Where its second terminal is anchored.
        second: Anchor,
        /// The phases that it joins.
        phases: PhaseSet,
        /// Whether it is open.
        is_open: bool,
    },
    /// A ground at a place.
    Ground {
        /// The ground's own identifier.
        id: Id,
        /// Where its terminal is anchored.
        at: Anchor,
        /// The phases that it grounds.
        phases: PhaseSet,
    },
}

/// A list of temporary items.
pub type Items = Listed<TempItem>;

impl TempItem {
    /// Its identifier.
    pub fn id(&self) -> Id
        ensures { result ≡ item_id self.now }
    {
        match *self {
            TempItem::Cut { id, .. }
            | TempItem::Clamp { id, .. }
            | TempItem::Jumper { id, .. }
            | TempItem::Ground { id, .. } => id,
        }
    }

    /// Its class: Cut, Clamp, Jumper or Ground.
    pub fn class(&self) -> Class
        ensures { result ≡ item_class self.now }
    {
        match self {
            TempItem::Cut { .. } => Class::Cut,
            TempItem::Clamp { .. } => Class::Clamp,
            TempItem::Jumper { .. } => Class::Jumper,
            TempItem::Ground { .. } => Class::Ground,
        }
    }

    /// The segment that a cut or a clamp stands on.
    pub fn segment(&self) -> Option<Id>
        ensures { result ≡ item_segment self.now }
    {
        match *self {
            TempItem::Cut { segment, .. } | TempItem::Clamp { segment, .. } => Some(segment),
            TempItem::Jumper { .. } | TempItem::Ground { .. } => None,
        }
    }

    /// The phases that a jumper or a ground states; a cut and a clamp have those of their segment.
    pub fn phases(&self) -> Option<PhaseSet>
        ensures { result ≡ item_phases self.now }
    {
        match *self {
            TempItem::Cut { .. } | TempItem::Clamp { .. } => None,
            TempItem::Jumper { phases, .. } | TempItem::Ground { phases, .. } => Some(phases),
        }
    }

    /// The terminal at side 1, with the place where it stands.
    pub fn side_one(&self) -> (Anchor, Term)
        ensures { result ≡ side_one self.now }
    {
        match *self {
            TempItem::Cut { id, .. } | TempItem::Clamp { id, .. } => (
                Anchor::Side(id, 1),
                side(id, 1),
            ),
            TempItem::Jumper { id, first, .. } => (first, side(id, 1)),
            TempItem::Ground { id, at, .. } => (at, side(id, 1)),
        }
    }

    /// The terminal at side 2 of a cut or a jumper, with the place where it stands.
    pub fn side_two(&self) -> Option<(Anchor, Term)>
        ensures { result ≡ side_two self.now }
    {
        match *self {
            TempItem::Cut { id, .. } => Some((Anchor::Side(id, 2), side(id, 2))),
            TempItem::Jumper { id, second, .. } => Some((second, side(id, 2))),
            TempItem::Clamp { .. } | TempItem::Ground { .. } => None,
        }
    }

    /// Whether a place is a side of this cut or clamp; a jumper and a ground make none.
    pub fn makes(&self, place: Anchor) -> bool
        ensures { result ≡ makes place self.now }
    {
        places_are_compared();
        match *self {
            TempItem::Cut { id, .. } => {
                place == Anchor::Side(id, 1) || place == Anchor::Side(id, 2)
            }
            TempItem::Clamp { id, .. } => place == Anchor::Side(id, 1),
            TempItem::Jumper { .. } | TempItem::Ground { .. } => false,
        }
    }
}

/// A side of an item as a terminal.
fn side(id: Id, number: u8) -> Term
    ensures { result ≡ side id number }
{
    Term {
        owner: id,
        key: TermKey::Side(number),
    }
}

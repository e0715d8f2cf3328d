//! The places at which terminals stand.

ghost use Rattle.std.specs.Prelude.{◌≡◌, ◌↔◌, IsTrue};
ghost use Rattle.std.specs.Ordering.{is_eq};
ghost use Rattle.room_words.specs.Terms.{same_anchor};
ghost use Rattle.room_words.specs.declared.anchor.Anchor.{Anchor};

use cim_words::Id;

/// A place that terminals can share: a ConnectivityNode (IEC 61970-301), or a side of a temporary cut or clamp.
#[derive(Clone, Copy, Debug, PartialEq, Eq, PartialOrd, Ord, Hash)]
pub enum Anchor {
    /// The ConnectivityNode with this identifier.
    Node(Id),
    /// Side 1 or 2 of the temporary item with this identifier.
    Side(Id, u8),
}

/// Two places are equal where their kinds, identifiers and sides are, and so they are for the derived order.
pub fn places_are_compared()
    ensures derived { (a b : Anchor) → ⟦<Anchor as PartialEq>⟧.eq a b ≡ same_anchor a b }
    ensures ordered { (a b : Anchor) → is_eq (⟦<Anchor as Ord>⟧.cmp a b) ≡ same_anchor a b }
    ensures equal { (a b : Anchor) → IsTrue (same_anchor a b) ↔ (a ≡ b) }
{}

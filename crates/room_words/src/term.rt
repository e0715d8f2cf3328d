//! Terminals of equipment and of temporary items, and the points of a network.

ghost use Rattle.std.specs.Prelude.{◌≡◌, ◌↔◌, IsTrue};
ghost use Rattle.std.specs.declared.cmp.Ordering.TheVariants.{Equal};
ghost use Rattle.room_words.specs.Terms.{same_term, term_order};
ghost use Rattle.room_words.specs.declared.term.Term.{Term};

use cim_words::{Id, Listed, Phase};

/// Which terminal of its owner a terminal is.
#[derive(Clone, Copy, Debug, PartialEq, Eq, PartialOrd, Ord, Hash)]
pub enum TermKey {
    /// The Terminal of the model with this identifier (IEC 61970-301).
    Real(Id),
    /// Side 1 or 2 of a temporary item.
    Side(u8),
}

/// A terminal: of a piece of equipment or of a temporary item, in ascending order of owner and then of key.
#[derive(Clone, Copy, Debug, PartialEq, Eq, PartialOrd, Ord, Hash)]
pub struct Term {
    /// The equipment or item that it belongs to.
    pub owner: Id,
    /// Which of its terminals.
    pub key: TermKey,
}

/// A list of terminals, as those at a place or in a section of a segment.
pub type Members = Listed<Term>;

/// A point of a network: a terminal in one phase.
#[derive(Clone, Copy, Debug, PartialEq, Eq)]
pub struct Point {
    /// The terminal.
    pub term: Term,
    /// The phase.
    pub phase: Phase,
}

/// Two terminals are equal where both their owners and their keys are.
pub fn terms_are_compared()
    ensures derived { (t u : Term) → ⟦<Term as PartialEq>⟧.eq t u ≡ same_term t u }
    ensures equal { (t u : Term) → IsTrue (same_term t u) ↔ (t ≡ u) }
{}

/// The derived order of terminals is that by owner and then by key, and it tells different terminals apart.
pub fn terms_are_ordered()
    ensures derived { (t u : Term) → ⟦<Term as Ord>⟧.cmp t u ≡ term_order t u }
    ensures apart { (t u : Term) → term_order t u ≡ Equal → t ≡ u }
{}

//! What stands in a map under a key of its own, and what it counts for.

ghost use Rattle.std.specs.Prelude.{◌≡◌};

use crate::counts::Counts;
use crate::fold::{fold_of_anchor, fold_of_number};
use crate::star::Star;
use room_words::{Anchor, Members, places_are_compared};

/// What stands in a map under a key of its own.
pub(crate) trait Keyed: Drop {
    ghost use Rattle.std.specs.Prelude.{◌≡◌, ℕ, Bool, true};

    /// What it is found by.
    type Key: Copy;

    /// Its key.
    ghost key_of: { Self → Self.Key };

    /// Whether two keys are one.
    ghost same_key: { Self.Key → Self.Key → Bool };

    /// The number by which a key is spread.
    ghost fold_of: { Self.Key → ℕ };

    /// How many spokes it lists, and how many places or sections it is.
    ghost spokes: { Self → ℕ };

    ghost hubs: { Self → ℕ };

    /// Its key.
    fn key(&self) -> Self::Key
        ensures { result ≡ key_of self.now };

    /// Whether it stands under a key.
    fn is_at(&self, key: Self::Key) -> bool
        ensures { result ≡ same_key (key_of self.now) key };

    /// The number by which a key is spread.
    fn fold(key: Self::Key) -> u64
        ensures { result ≡ fold_of key };

    /// What it counts for.
    fn counts(&self) -> Counts
        ensures spokes { result.spokes ≡ spokes self.now }
        ensures hubs { result.hubs ≡ hubs self.now };

    /// A key is itself.
    ghost itself: { (k : Self.Key) → same_key k k ≡ true };

    /// Keys that are one are equal.
    ghost exact: { (a b : Self.Key) → same_key a b ≡ true → a ≡ b };
}

/// A star stands under the number of its identifier.
impl Keyed for Star {
    ghost use Rattle.std.specs.Prelude.{nat_eq, refl};
    ghost use Rattle.std.proofs.lemmas.Bool.{eqb-true, eq-eqb};
    ghost use Rattle.graph_pages.specs.Fold.{fold_of_number};
    ghost use Rattle.graph_pages.specs.Size.{sections_of, spokes_of};

    type Key = u128;

    ghost key_of = { λ star. star.id.number };

    ghost same_key = { nat_eq };

    ghost fold_of = { fold_of_number };

    ghost spokes = { spokes_of };

    ghost hubs = { sections_of };

    ghost itself = { λ k. eq-eqb k k refl };

    ghost exact = { eqb-true };

    fn key(&self) -> u128 {
        self.id.number
    }

    fn is_at(&self, key: u128) -> bool {
        self.id.number == key
    }

    fn fold(key: u128) -> u64 {
        fold_of_number(key)
    }

    fn counts(&self) -> Counts {
        Counts::of_star(self)
    }
}

/// Members stand under their place.
impl Keyed for (Anchor, Members) {
    ghost use Rattle.graph_pages.specs.Fold.{fold_of_anchor};
    ghost use Rattle.room_words.specs.Terms.{same_anchor};
    ghost use Rattle.room_words.proofs.Compared.{anchor_exact, anchor_itself};

    type Key = Anchor;

    ghost key_of = { λ entry. entry.0 };

    ghost same_key = { same_anchor };

    ghost fold_of = { fold_of_anchor };

    ghost spokes = { λ entry. 0 };

    ghost hubs = { λ entry. 1 };

    ghost itself = { anchor_itself };

    ghost exact = { anchor_exact };

    fn key(&self) -> Anchor {
        self.0
    }

    fn is_at(&self, key: Anchor) -> bool {
        places_are_compared();
        self.0 == key
    }

    fn fold(key: Anchor) -> u64 {
        fold_of_anchor(key)
    }

    fn counts(&self) -> Counts {
        Counts::PLACE
    }
}

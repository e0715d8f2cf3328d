//! The fold of an identifier, which says where its entry stands.

ghost use Rattle.std.specs.Prelude.{◌≡◌};
ghost use Rattle.graph_pages.specs.Fold.{fold_of_anchor, fold_of_number};

use room_words::Anchor;

/// One more than the greatest half of a number.
const HALF: u128 = 0x1_0000_0000_0000_0000;

/// The weight of the upper half of a number. Both weights are odd, so that the lowest bits of a half still tell numbers apart.
const UPPER_WEIGHT: u128 = 0x2545_F491_4F6C_DD1D;

/// The weight of the lower half of a number.
const LOWER_WEIGHT: u128 = 0x1E37_79B9_7F4A_7C15;

/// The fold of a number. Most numbers that differ in a few digits, wherever these stand, have folds whose lowest bits differ.
#[tactic(auto, unfolding(crate::specs::Fold::fold_of_number, crate::specs::Fold::weighed))]
pub(crate) fn fold_of_number(number: u128) -> u64
    ensures { result ≡ fold_of_number number }
{
    let weighed = number / HALF * UPPER_WEIGHT + number % HALF * LOWER_WEIGHT;
    ((weighed / HALF + weighed % HALF) % HALF) as u64
}

/// The fold of a place.
pub(crate) fn fold_of_anchor(place: Anchor) -> u64
    ensures { result ≡ fold_of_anchor place }
{
    match place {
        Anchor::Node(node) => fold_of_number(node.number),
        Anchor::Side(item, side) => fold_of_number(item.number).wrapping_add(u64::from(side)),
    }
}

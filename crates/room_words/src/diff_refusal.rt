//! Why a difference is refused.

use cim_words::Id;

/// The refusals of a difference, in the order in which they are asked: the first that holds is the answer.
#[derive(Clone, Copy, Debug, PartialEq, Eq)]
pub enum DiffRefusal {
    /// The precondition with this number, the least such, is not in the model. The first has number 1.
    Precondition(u32),
    /// The reverse statement with this number, the least such, is not in the model. The first has number 1.
    Reverse(u32),
    /// The model would have so many statements, more than a model may have.
    TooMany(u64),
    /// The model would break a rule of the profile: the number of the rule and the subject of its least fault.
    Profile(u8, Id),
    /// An item would not stand on the model, the first in order of placing, or else a position in force, the first.
    Place(Id),
}

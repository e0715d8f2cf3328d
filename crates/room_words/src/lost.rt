//! What of an overlay a model does not bear.

use cim_words::Id;

/// What does not stand on a model.
#[derive(Clone, Copy, Debug, PartialEq, Eq)]
pub struct Lost {
    /// The identifier of the item, or of the switch that the position is of.
    pub id: Id,
}

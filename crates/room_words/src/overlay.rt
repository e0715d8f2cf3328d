//! What stands on the permanent network for a time.

ghost use Rattle.std.specs.Prelude.{◌≡◌, IfOk, option_copied};
ghost use Rattle.room_words.specs.Overlay.{item_of, no_overlay, position_of};

use crate::items::{Items, TempItem};
use cim_words::{Id, Listed, NoMemory};
use std::alloc::Global;

/// The position in force of a permanent switch, which goes before what the model states.
#[derive(Clone, Copy, Debug, PartialEq, Eq)]
pub struct Position {
    /// The switch.
    pub switch: Id,
    /// Whether it is open.
    pub is_open: bool,
}

/// A list of positions.
pub type Positions = Listed<Position>;

/// The temporary items in order of placing, and the positions in force in ascending order of switch.
#[derive(Drop)]
pub struct Overlay {
    /// The temporary items.
    pub items: Items,
    /// The positions in force.
    pub positions: Positions,
}

impl Overlay {
    /// The overlay of an untouched network: no item and no position in force.
    pub fn empty(alloc: Global) -> Overlay
        ensures { result ≡ no_overlay }
    {
        Overlay {
            items: Listed::empty(alloc),
            positions: Listed::empty(alloc),
        }
    }

    /// The item with an identifier.
    pub fn item(&self, id: Id) -> Option<&TempItem>
        ensures { option_copied result ≡ item_of self.now id.number }
    {
        self.items
            .as_slice()
            .iter()
            .find(|item| item.id().number == id.number)
    }

    /// Whether a switch is open by the position in force for it, if there is one.
    pub fn position(&self, switch: Id) -> Option<bool>
        ensures { result ≡ position_of self.now switch.number }
    {
        self.positions
            .as_slice()
            .iter()
            .find(|position| position.switch.number == switch.number)
            .map(|position| position.is_open)
    }

    /// The same overlay once more.
    pub fn copy(&self, alloc: Global) -> Result<Overlay, NoMemory>
        ensures { IfOk result (λ overlay. overlay ≡ self.now) }
    {
        Ok(Overlay {
            items: copied(alloc, &self.items)?,
            positions: copied(alloc, &self.positions)?,
        })
    }
}

/// The same list once more.
pub fn copied<T: Copy>(alloc: Global, list: &Listed<T>) -> Result<Listed<T>, NoMemory>
    ensures { IfOk result (λ copy. copy ≡ list.now) }
{
    Ok(Listed::of(Vec::from_slice(alloc, list.as_slice())?))
}

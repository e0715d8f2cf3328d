//! The name of a room.
ghost use Rattle.std.specs.Prelude.{ℕ, []};
ghost use Rattle.atomic_table.specs.Seated.{TableId};

use std::marker::Brand;
use std::sync::ledger::Ledger;

/// Names one room, which is one ledger and one board. Whoever opens a seed takes `Brand` for it.
pub trait RoomName: Ledger {
    /// Which board it is.
    ghost board: { TableId };

    /// How many posts the room has.
    ghost posts: { ℕ };
}

impl RoomName for Brand {
    ghost board = { record { words = 0; slots = 0; views_name = 0; atom = 0; block = 0; offset = 0; slot_names = [] } };

    ghost posts = { 0 };
}

//! What a reader has in front of it.
ghost use Rattle.std.specs.Prelude.{◌≡◌, ◌<◌, ◌≤◌, length};
ghost use Rattle.board.specs.Lists.{IsPrefix, last_or};
ghost use Rattle.board.specs.Held.{IsWatching, IsPending};
ghost use Rattle.board.specs.Views.{founds_of};

use crate::dated::Dated;
use crate::plays::Collect;
use crate::rule::{BoardSeat, SharedPart};
use crate::word::{number_in, slot_in, stale_word};

/// The version that a reader has, its number, and the slot where it came from.
#[derive(Drop)]
pub(crate) struct Front<V> {
    pub(crate) slot: usize,
    pub(crate) number: u32,
    pub(crate) version: V,
}

/// Gives the version back for the fresh one.
pub(crate) fn collect<V: Dated + Send + Sync>(
    shared: &SharedPart<V>,
    seat: &mut BoardSeat<V>,
    console: usize,
    front: Front<V>,
) -> Front<V>
    requires table { (seat.old.table_id ≡ shared.now.table_id) × (console < shared.now.table_id.words) × (shared.now.table_id.words ≤ 16) }
    requires pending { IsPending V.log V.origin seat.old.me console (founds_of seat.old.me.0.role) front.slot front.number front.version }
    ensures table { seat.new.table_id ≡ seat.old.table_id }
    ensures collected { IsWatching V.log V.origin seat.new.me console (founds_of seat.old.me.0.role) result.slot result.number result.version }
    ensures seen { IsPrefix seat.old.me.0.list seat.new.me.0.list × (seat.new.me.0.list ≡ V.log result.version) }
    ensures found { last_or 0 (founds_of seat.old.me.0.role) ≤ length seat.new.me.0.list }
    ensures origin { seat.new.me.0.origin ≡ seat.old.me.0.origin }
{
    let Front {
        slot,
        number,
        version,
    } = front;
    shared.exchange(seat, 3 * console + slot, Some(version));
    let word = shared.swap::<Collect>(seat, console, stale_word(number, slot));
    let slot = slot_in(word);
    let Some(version) = shared.exchange(seat, 3 * console + slot, None) else {
        unreachable!()
    };
    Front {
        slot,
        number: number_in(word),
        version,
    }
}

//! How a version is sent to the consoles.
ghost use Rattle.std.specs.Prelude.{◌≡◌, ◌+◌, ◌*◌, ◌<◌, ◌≤◌, ◌∷◌, length, replicate, Some, None};
ghost use Rattle.atomic_table.specs.Table.{rest};
ghost use Rattle.board.specs.Lists.{IsPrefix};
ghost use Rattle.board.specs.Held.{IsSending};
ghost use Rattle.board.specs.Sent.{CanSend, sent_out};

use crate::dated::Dated;
use crate::plays::Deliver;
use crate::rule::{BoardSeat, SharedPart};
use crate::word::{fresh_word, slot_in};

/// Puts a copy into the writer's slot of a console, and gives that for the slot which the word names.
fn deliver<V: Dated + Send + Sync>(
    shared: &SharedPart<V>,
    seat: &mut BoardSeat<V>,
    console: usize,
    back: usize,
    share: V,
) -> usize
    requires table { (seat.old.table_id ≡ shared.now.table_id) × (console < shared.now.table_id.words) × (shared.now.table_id.words ≤ 16) }
    requires ready { CanSend V.log V.origin seat.old.me console back share }
    ensures table { seat.new.table_id ≡ seat.old.table_id }
    ensures slot { result < 3 }
    ensures sent { seat.new.me ≡ (sent_out seat.old.me.0 console (V.log share) result, (3 * console + result, None) ∷ rest seat.old.me.1) }
{
    let word = fresh_word(share.number(), back);
    shared.exchange(seat, 3 * console + back, Some(share));
    let slot = slot_in(shared.swap::<Deliver>(seat, console, word));
    shared.exchange(seat, 3 * console + slot, None);
    slot
}

/// Sends one copy to each console.
pub(crate) fn send_all<V: Dated + Send + Sync>(
    shared: &SharedPart<V>,
    seat: &mut BoardSeat<V>,
    backs: &mut Vec<usize>,
    version: &V,
    mut shares: Vec<V>,
)
    requires table { (seat.old.table_id ≡ shared.now.table_id) × (length backs.old.items ≡ shared.now.table_id.words) × (shared.now.table_id.words ≤ 16) }
    requires shares { shares.items ≡ replicate (length backs.old.items) version.now }
    requires ready { (last : V) × IsSending V.log V.origin seat.old.me backs.old.items last × IsPrefix (V.log last) (V.log version.now) × (Some (V.origin version.now) ≡ seat.old.me.0.origin) }
    requires some { 0 < length backs.old.items }
    ensures table { seat.new.table_id ≡ seat.old.table_id }
    ensures sent { (length backs.new.items ≡ length backs.old.items) × IsSending V.log V.origin seat.new.me backs.new.items version.now }
    ensures origin { seat.new.me.0.origin ≡ seat.old.me.0.origin }
{
    for console in 0..backs.len() {
        let Some(share) = shares.pop() else {
            unreachable!()
        };
        backs[console] = deliver(shared, seat, console, backs[console], share);
        seat.turn();
    }
}

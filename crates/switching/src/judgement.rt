//! The judgement of a switching order.

ghost use Rattle.std.specs.Prelude.{◌≡◌, Err, Some, None, IfOk};
ghost use Rattle.cim_model.specs.Effects.{effect};
ghost use Rattle.cim_model.specs.Refusals.{refusal_of};
ghost use Rattle.cim_model.specs.Stands.{Stands};
ghost use Rattle.room_words.specs.declared.act_refusal.ActRefusal.{ActRefusal};
ghost use Rattle.switching.specs.declared.denied.ActDenied.TheVariants as denied;

use crate::denied::ActDenied;
use crate::effects::effect;
use crate::refusals::first_refusal;
use cim_records::Index;
use room_words::{Act, Overlay};
use std::alloc::Global;

/// What an act makes of an overlay that stands on the model of an index, or the first refusal that holds. Memory is wanted for an
/// accepted act alone.
pub fn judge(
    alloc: Global,
    index: &Index,
    overlay: &Overlay,
    act: &Act,
) -> Result<Overlay, ActDenied>
    requires { Stands index.now overlay.now }
    ensures accepted { IfOk result (λ new. (refusal_of index.now overlay.now act.now ≡ None) × (new ≡ effect overlay.now act.now)) }
    ensures refused { (why : ActRefusal) → result ≡ Err (denied.Refusal why) → refusal_of index.now overlay.now act.now ≡ Some why }
    ensures memory { result ≡ Err denied.NoMemory → refusal_of index.now overlay.now act.now ≡ None }
{
    match first_refusal(index, overlay, act) {
        Some(why) => Err(ActDenied::Refusal(why)),
        None => Ok(effect(alloc, overlay, act)?),
    }
}

//! Differences judged on models.

ghost use Rattle.std.specs.Prelude.{IfOk};
ghost use Rattle.cim_model.specs.Profile.{IsFaultless};
ghost use Rattle.cim_model.specs.Stands.{Stands};

use crate::texts::full;
use cim_profile::first_break;
use cim_records::Index;
use cim_words::NoMemory;
use cutover::{DiffDenied, judge_difference};
use difference::read;
use room_words::{DiffRefusal, Overlay};
use statement_set::StatementSet;
use std::alloc::Global;
use std::test::Fail;
use temporary::overlay_stands;

/// Sees that a model breaks no rule and that an overlay stands on it.
fn look_at(alloc: Global, set: &StatementSet, overlay: &Overlay) -> Result<(), Fail>
    ensures faultless { IfOk result (λ _. IsFaultless set.now) }
    ensures stands { IfOk result (λ _. Stands set.now overlay.now) }
{
    if let Some(found) = first_break(alloc, set)? {
        return Err(Fail::new(found.rule));
    }
    let index = Index::build(alloc, set)?;
    if !overlay_stands(&index, overlay) {
        return Err(Fail::new("the overlay does not stand"));
    }
    Ok(())
}

/// The model that a difference in short leaves, or why it is refused.
pub(crate) fn judged(
    alloc: Global,
    set: &StatementSet,
    overlay: &Overlay,
    short: &str,
) -> Result<Result<StatementSet, DiffRefusal>, Fail> {
    look_at(alloc, set, overlay)?;
    let difference = read(alloc, full(alloc, short)?.as_bytes())?;
    match judge_difference(alloc, set, overlay, &difference) {
        Ok(model) => Ok(Ok(model)),
        Err(DiffDenied::Refusal(why)) => Ok(Err(why)),
        Err(DiffDenied::NoMemory) => Err(NoMemory.into()),
    }
}

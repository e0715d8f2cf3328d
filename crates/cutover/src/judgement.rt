//! The judgement of a difference.

ghost use Rattle.std.specs.Prelude.{◌≡◌, ◌≤◌, List, Ok, Err, Some, None, IfOk, length, map, nat_eq};
ghost use Rattle.std.specs.List.{IsDistinct};
ghost use Rattle.cim_model.specs.Profile.{IsFaultless};
ghost use Rattle.cim_model.specs.Stands.{Stands};
ghost use Rattle.cim_words.specs.declared.statement.Statement.{Statement};
ghost use Rattle.cutover.specs.Judgement.{IsAccepted, IsMet, IsRefused, Leaves};
ghost use Rattle.cutover.specs.declared.denied.DiffDenied.TheVariants as denied;
ghost use Rattle.room_words.specs.Differences.{Changes};
ghost use Rattle.room_words.specs.Items.{item_number};
ghost use Rattle.room_words.specs.declared.diff_refusal.DiffRefusal.{DiffRefusal};
ghost use Rattle.room_words.specs.declared.overlay.Overlay.{Overlay};
ghost use Rattle.statement_set.specs.Set.{most_statements};
ghost use Rattle.temporary.specs.Lost.{IsFirstLost};

use crate::denied::DiffDenied;
use cim_profile::first_break;
use cim_records::Index;
use cim_words::NoMemory;
use difference::{apply, first_missing};
use room_words::{DiffRefusal, Difference, Overlay};
use statement_set::{StatementSet, one_set};
use std::alloc::Global;
use temporary::first_lost;

/// The model that a difference leaves, or the first refusal that holds. A precondition or a reverse statement that is not in the model is
/// told without any memory.
pub fn judge_difference(
    alloc: Global,
    set: &StatementSet,
    overlay: &Overlay,
    difference: &Difference,
) -> Result<StatementSet, DiffDenied>
    requires faultless { IsFaultless set.now }
    requires stands { Stands set.now overlay.now }
    ensures accepted { IfOk result (IsAccepted set.now overlay.now difference.now) }
    ensures refused { (why : DiffRefusal) → result ≡ Err (denied.Refusal why) → IsRefused set.now overlay.now difference.now why }
    ensures memory { result ≡ Err denied.NoMemory → IsMet set.now difference.now }
{
    if let Some(why) = unmet(set, difference) {
        return Err(DiffDenied::Refusal(why));
    }
    let model = apply(alloc, set, difference)?;
    match unfit(alloc, &model, overlay)? {
        Some(why) => Err(DiffDenied::Refusal(why)),
        None => Ok(model),
    }
}

/// Why a model is not what a difference asks for. This is told before anything is made.
fn unmet(set: &StatementSet, difference: &Difference) -> Option<DiffRefusal>
    ensures refused { (o : Overlay) (why : DiffRefusal) → result ≡ Some why → IsRefused set.now o difference.now why }
    ensures met { result ≡ None → IsMet set.now difference.now }
{
    difference.possible();
    match first_missing(set, difference.pre()) {
        Some(number) => Some(DiffRefusal::Precondition(number)),
        None => first_missing(set, difference.rev()).map(DiffRefusal::Reverse),
    }
}

/// Why a model that a difference leaves cannot be: its least fault, or else what of an overlay it does not bear.
fn unfit(
    alloc: Global,
    model: &StatementSet,
    overlay: &Overlay,
) -> Result<Option<DiffRefusal>, NoMemory>
    requires { IsDistinct nat_eq (map item_number overlay.now.items) }
    ensures refused { (m : List Statement) (d : Changes) (why : DiffRefusal) → Leaves m d model.now → length model.now ≤ most_statements
        → result ≡ Ok (Some why) → IsRefused m overlay.now d why }
    ensures fits { result ≡ Ok None → IsFaultless model.now × IsFirstLost model.now overlay.now None }
{
    if let Some(found) = first_break(alloc, model)? {
        return Ok(Some(DiffRefusal::Profile(found.rule, found.subject)));
    }
    let index = Index::build(alloc, model)?;
    match first_lost(&index, overlay) {
        Some(lost) => Ok(Some(DiffRefusal::Place(lost.id))),
        None => Ok(None),
    }
}

/// An overlay that stands on a model stands on the one that an accepted difference leaves.
pub fn accepted_differences_stand()
    ensures { (m : List Statement) (o : Overlay) (d : Changes) (result : List Statement) → Stands m o → IsAccepted m o d result → Stands result o }
{}

/// A difference is judged in one way: it leaves one model, or it is refused for one reason.
pub fn differences_have_one_judgement()
    ensures accepted { (m : List Statement) (o : Overlay) (d : Changes) (a b : List Statement) → IsAccepted m o d a → IsAccepted m o d b → a ≡ b }
    ensures refused { (m : List Statement) (o : Overlay) (d : Changes) (why other : DiffRefusal) → IsRefused m o d why → IsRefused m o d other → why ≡ other }
    ensures either { (m : List Statement) (o : Overlay) (d : Changes) (a : List Statement) (why : DiffRefusal) → IsAccepted m o d a → IsRefused m o d why → ⊥ }
{
    one_set();
}

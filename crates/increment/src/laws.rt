//! What an accepted switching order leaves of the graph.

ghost use Rattle.std.specs.Prelude.{◌≡◌, ◌≤◌, ◌+◌, ℕ, List, length, Option, None, Contains};
ghost use Rattle.cim_model.specs.Effects.{effect};
ghost use Rattle.cim_model.specs.Profile.{IsFaultless};
ghost use Rattle.cim_model.specs.Refusals.{refusal_of};
ghost use Rattle.cim_model.specs.Stands.{Stands};
ghost use Rattle.cim_words.specs.declared.statement.Statement.{Statement};
ghost use Rattle.graph_pages.specs.declared.star.Star.{Star};
ghost use Rattle.increment.specs.Touched.{touched_places, touched_stars};
ghost use Rattle.link_rules.specs.Map.{IsEntry, IsStarAt};
ghost use Rattle.room_words.specs.declared.act.Act.{Act};
ghost use Rattle.room_words.specs.declared.anchor.Anchor.{Anchor};
ghost use Rattle.room_words.specs.declared.overlay.Overlay.{Overlay};
ghost use Rattle.room_words.specs.declared.term.Term.{Term};

use act_laws::accepted_acts_stand;
use cim_model::{subjects_are_listed_once, terminals_stand_where_listed, what_is_live};
use room_words::places_are_compared;

/// An accepted act changes at most four entries of the graph, those that its table names: what was the star of another identifier is its
/// star after the act, and what were the members of another place are its members after the act.
pub fn acts_touch_few_entries()
    ensures stars { (m : List Statement) (o : Overlay) (a : Act) → Stands m o → refusal_of m o a ≡ None → (x : ℕ) → ¬ (Contains (touched_stars o a) x)
        → (star : Option Star) → IsStarAt m o x star → IsStarAt m (effect o a) x star }
    ensures places { (m : List Statement) (o : Overlay) (a : Act) → IsFaultless m → Stands m o → refusal_of m o a ≡ None → (place : Anchor)
        → ¬ (Contains (touched_places o a) place) → (members : Option (List Term)) → IsEntry m o place members → IsEntry m (effect o a) place members }
    ensures few { (o : Overlay) (a : Act) → length (touched_stars o a) + length (touched_places o a) ≤ 4 }
{
    accepted_acts_stand();
    terminals_stand_where_listed();
    what_is_live();
    subjects_are_listed_once();
    places_are_compared();
}

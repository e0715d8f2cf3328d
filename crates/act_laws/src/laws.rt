//! What an accepted switching order leaves.

ghost use Rattle.std.specs.Prelude.{◌≡◌, List, None};
ghost use Rattle.cim_model.specs.Effects.{effect};
ghost use Rattle.cim_model.specs.Profile.{IsFaultless};
ghost use Rattle.cim_model.specs.Refusals.{refusal_of};
ghost use Rattle.cim_model.specs.Stands.{Stands};
ghost use Rattle.cim_words.specs.declared.statement.Statement.{Statement};
ghost use Rattle.room_words.specs.declared.act.Act.{Act};
ghost use Rattle.room_words.specs.declared.overlay.Overlay.{Overlay};

use room_words::{places_are_compared, terms_are_compared};

/// On a model without fault an accepted act leaves an overlay that stands.
pub fn accepted_acts_stand()
    ensures { (m : List Statement) (o : Overlay) (a : Act) → IsFaultless m → Stands m o → refusal_of m o a ≡ None → Stands m (effect o a) }
{
    terms_are_compared();
    places_are_compared();
}

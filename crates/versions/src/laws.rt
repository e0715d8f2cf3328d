//! What a history makes of a base.

ghost use Rattle.std.specs.Prelude.{◌≡◌, List, Option};
ghost use Rattle.cim_model.specs.Profile.{IsFaultless};
ghost use Rattle.cim_model.specs.Stands.{Stands};
ghost use Rattle.cim_words.specs.declared.statement.Statement.{Statement};
ghost use Rattle.room_words.specs.declared.event.Entry.{Entry};
ghost use Rattle.room_words.specs.declared.event.Event.{Event};
ghost use Rattle.room_words.specs.declared.refused.Why.{Why};
ghost use Rattle.versions.specs.History.{IsNow, Judges, Network};

use act_laws::accepted_acts_stand;
use cim_model::the_empty_overlay_stands;
use cutover::{accepted_differences_stand, differences_have_one_judgement};

/// From a base that breaks no rule a history leaves a model that breaks no rule, and an overlay that stands on it.
pub fn histories_keep_networks_sound()
    ensures faultless { (base : List Statement) (log : List Entry) (now : Network) → IsFaultless base → IsNow base log now → IsFaultless now.model }
    ensures stands { (base : List Statement) (log : List Entry) (now : Network) → IsFaultless base → IsNow base log now → Stands now.model now.overlay }
{
    the_empty_overlay_stands();
    accepted_acts_stand();
    accepted_differences_stand();
}

/// A history makes one network of a base.
pub fn histories_leave_one_network()
    ensures { (base : List Statement) (log : List Entry) (now other : Network) → IsNow base log now → IsNow base log other → now ≡ other }
{
    differences_have_one_judgement();
}

/// An event is judged in one way after a history of a base.
pub fn histories_are_judged_in_one_way()
    ensures { (base : List Statement) (log : List Entry) (event : Event) (answer other : Option Why) → Judges base log event answer → Judges base log event other → answer ≡ other }
{
    differences_have_one_judgement();
    histories_leave_one_network();
}

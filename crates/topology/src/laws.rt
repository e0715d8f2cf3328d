//! The law that ties the graph to the network.

ghost use Rattle.std.specs.Prelude.{◌↔◌, ℕ, List};
ghost use Rattle.cim_model.specs.Links.{network};
ghost use Rattle.cim_model.specs.Profile.{IsFaultless};
ghost use Rattle.cim_model.specs.Reach.{IsPointReached, IsReached};
ghost use Rattle.cim_model.specs.Stands.{Stands};
ghost use Rattle.cim_words.specs.declared.phases.Phase.{Phase};
ghost use Rattle.cim_words.specs.declared.phases.PhaseSet.{PhaseSet};
ghost use Rattle.cim_words.specs.declared.statement.Statement.{Statement};
ghost use Rattle.graph_pages.specs.Graph.{GraphView};
ghost use Rattle.graph_pages.specs.Walks.{wiring};
ghost use Rattle.link_rules.specs.Map.{IsMap};
ghost use Rattle.room_words.specs.declared.overlay.Overlay.{Overlay};
ghost use Rattle.room_words.specs.declared.term.Point.{Point};

use cim_model::what_is_live;
use link_rules::lines_list_terminals_at_spots;
use room_words::terms_are_compared;

/// On a model without fault and an overlay that stands, the walks over their graph and the reach through their network hold of the same
/// points, and the same equipment and items are reached in the same phases.
pub fn walks_are_reach()
    ensures points { (m : List Statement) (o : Overlay) (g : GraphView) → IsFaultless m → Stands m o → IsMap m o g
        → (x : ℕ) (asked : PhaseSet) (a : Point) → IsPointReached (wiring g) x asked a ↔ IsPointReached (network m o) x asked a }
    ensures equipment { (m : List Statement) (o : Overlay) (g : GraphView) → IsFaultless m → Stands m o → IsMap m o g
        → (x : ℕ) (asked : PhaseSet) (y : ℕ) (p : Phase) → IsReached (wiring g) x asked y p ↔ IsReached (network m o) x asked y p }
{
    what_is_live();
    lines_list_terminals_at_spots();
    terms_are_compared();
}

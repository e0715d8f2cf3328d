//! Laws of live networks: of models without fault under an overlay that stands.

ghost use Rattle.std.specs.Prelude.{◌≡◌, ◌↔◌, ℕ, List, Bool, None, Some, IsTrue, Contains, map, nat_eq};
ghost use Rattle.std.specs.List.{IsDistinct};
ghost use Rattle.cim_model.specs.Live.{PassesAlong, conduction, is_live, is_place, is_term, place_of, stands_on, terms_at, terms_of};
ghost use Rattle.cim_model.specs.Marks.{marks_on};
ghost use Rattle.cim_model.specs.Model.{is_subject};
ghost use Rattle.cim_model.specs.Profile.{IsFaultless};
ghost use Rattle.cim_model.specs.Stands.{Stands};
ghost use Rattle.cim_words.specs.declared.identifier.Id.{Id};
ghost use Rattle.cim_words.specs.declared.statement.Statement.{Statement};
ghost use Rattle.room_words.specs.Overlay.{no_overlay};
ghost use Rattle.room_words.specs.declared.anchor.Anchor.{Anchor};
ghost use Rattle.room_words.specs.declared.overlay.Overlay.{Overlay};
ghost use Rattle.room_words.specs.declared.term.Term.{Term};
ghost use Rattle.segment_cuts.specs.Sections.{AreMarks, HasMark};

use room_words::{places_are_compared, terms_are_compared};

/// The empty overlay stands on every model.
pub fn the_empty_overlay_stands()
    ensures { (m : List Statement) → Stands m no_overlay }
{}

/// The marks on a segment, those of the overlay among them, are marks of a line: few, within it, and no cut at the place of another.
pub fn marks_divide_live_segments()
    ensures { (m : List Statement) (o : Overlay) (x : ℕ) → IsFaultless m → Stands m o → AreMarks (marks_on m o x) }
{
    terms_are_compared();
    places_are_compared();
}

/// The terminals that are listed at a place are just those that stand there.
pub fn terminals_stand_where_listed()
    ensures { (m : List Statement) (o : Overlay) (place : Anchor) (t : Term) → IsFaultless m → Stands m o
        → Contains (terms_at m o place) t ↔ (place_of m o t ≡ Some place) }
{
    terms_are_compared();
    places_are_compared();
}

/// Each terminal belongs to equipment or an item, and stands at a place if at anything. What a cut or a clamp stands on is a segment; a
/// segment is equipment, and stands on nothing. The marks on a segment stand on it.
pub fn what_is_live()
    ensures owners { (m : List Statement) (o : Overlay) (t : Term) → IsFaultless m → Stands m o → IsTrue (is_term m o t) → IsTrue (is_live m o t.owner.number) }
    ensures places { (m : List Statement) (o : Overlay) (place : Anchor) (t : Term) → IsFaultless m → Stands m o → place_of m o t ≡ Some place → IsTrue (is_place m o place) }
    ensures terminals { (m : List Statement) (o : Overlay) (x : ℕ) (t : Term) → Contains (terms_of m o x) t ↔ (IsTrue (is_term m o t) × (t.owner.number ≡ x)) }
    ensures segments { (m : List Statement) (o : Overlay) (x y : ℕ) → IsFaultless m → Stands m o → stands_on m o y ≡ Some x → conduction m o x ≡ PassesAlong }
    ensures lines { (m : List Statement) (o : Overlay) (x : ℕ) → IsFaultless m → Stands m o → conduction m o x ≡ PassesAlong → IsTrue (is_live m o x) × (stands_on m o x ≡ None) }
    ensures marks { (m : List Statement) (o : Overlay) (x : ℕ) (id : Id) (divides : Bool) → IsFaultless m → Stands m o → HasMark (marks_on m o x) id divides
        → stands_on m o id.number ≡ Some x }
{
    terms_are_compared();
    places_are_compared();
}

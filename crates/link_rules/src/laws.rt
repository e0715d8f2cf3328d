//! That a live network has one graph.

ghost use Rattle.std.specs.Prelude.{◌≡◌, ℕ, List, map};
ghost use Rattle.std.specs.List.{filter_map};
ghost use Rattle.cim_model.specs.Marks.{marks_on};
ghost use Rattle.cim_model.specs.Profile.{IsFaultless};
ghost use Rattle.cim_model.specs.Sections.{term_at};
ghost use Rattle.cim_words.specs.declared.statement.Statement.{Statement};
ghost use Rattle.graph_pages.specs.declared.star.Star.{Star};
ghost use Rattle.link_rules.specs.Inputs.{Inputs, IsStar, inputs, marks_in, spot_term};
ghost use Rattle.link_rules.specs.Map.{AreMembers};
ghost use Rattle.room_words.specs.declared.anchor.Anchor.{Anchor};
ghost use Rattle.room_words.specs.declared.overlay.Overlay.{Overlay};
ghost use Rattle.room_words.specs.declared.term.Term.{Term};
ghost use Rattle.segment_cuts.specs.Sections.{AreMarks, AreSections};
ghost use Rattle.segment_cuts.specs.declared.mark.Spot.{Spot};

use cim_records::Index;
use segment_cuts::sections_are_determined;

/// An identifier with the same inputs has one star; the marks among them are those of a line.
pub fn one_star()
    ensures { (x : ℕ) (i : Inputs) (a b : Star) → AreMarks (marks_in i) → IsStar x i a → IsStar x i b → a ≡ b }
{
    sections_are_determined();
}

/// A place has one list of members.
pub fn one_list_of_members()
    ensures { (m : List Statement) (o : Overlay) (place : Anchor) (a b : List Term) → AreMembers m o place a → AreMembers m o place b → a ≡ b }
{}

/// The line of a segment lists the terminals at the spots of its sections.
pub fn lines_list_terminals_at_spots()
    ensures { (m : List Statement) (o : Overlay) (x : ℕ) (sections : List (List Spot)) → AreSections (marks_on m o x) sections
        → map (filter_map (spot_term (inputs m o x))) sections ≡ map (filter_map (term_at m o x)) sections }
{}

/// The model of an index has no fault.
pub(crate) fn has_no_fault(index: &Index)
    ensures { IsFaultless index.now }
{
    index.set();
}

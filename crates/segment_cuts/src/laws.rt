//! What holds of the sections of every segment.

ghost use Rattle.std.specs.Prelude.{◌≡◌, List, [], Contains, slice_index_or};
ghost use Rattle.segment_cuts.specs.Sections.{AreMarks, AreSections, IsOn, section_index};
ghost use Rattle.segment_cuts.specs.declared.mark.Mark.{Mark};
ghost use Rattle.segment_cuts.specs.declared.mark.Spot.{Spot};

/// In the sections of a segment each spot stands in the section at its index.
pub fn spots_stand_in_their_sections()
    ensures { (marks : List Mark) (sections : List (List Spot)) (spot : Spot) → AreMarks marks → AreSections marks sections → IsOn marks spot → Contains (slice_index_or sections (section_index marks spot) []) spot }
{}

/// The marks of a segment determine its sections.
pub fn sections_are_determined()
    ensures { (marks : List Mark) (these those : List (List Spot)) → AreMarks marks → AreSections marks these → AreSections marks those → these ≡ those }
{}

//! Laws of models, most of them of models without fault.

ghost use Rattle.std.specs.Prelude.{◌≡◌, ◌↔◌, ℕ, List, Bool, ◌||◌, IsTrue, None, Some, is_some, map, nat_eq, Contains};
ghost use Rattle.std.specs.List.{IsDistinct};
ghost use Rattle.std.specs.List.Sorted.{IsStrictlyIncreasing};
ghost use Rattle.statement_set.specs.Set.{IsOrdered};
ghost use Rattle.cim_words.specs.Groups.{is_clamp, is_cut, is_node, is_segment, is_terminal};
ghost use Rattle.cim_words.specs.declared.class.Class.{Class};
ghost use Rattle.cim_words.specs.declared.statement.Statement.{Statement};
ghost use Rattle.cim_model.specs.Model.{is_of, is_subject, subjects};
ghost use Rattle.cim_model.specs.Network.{class_in, equipment, is_class, is_equipment, node_of, nodes, owner_of, segment_of, terminals_by_side};
ghost use Rattle.cim_model.specs.Profile.{IsFaultless};
ghost use Rattle.cim_words.specs.declared.phases.PhaseSet.{PhaseSet};
ghost use Rattle.cim_model.specs.Links.{network};
ghost use Rattle.cim_model.specs.Reach.{IsReached};
ghost use Rattle.room_words.specs.declared.overlay.Overlay.{Overlay};
ghost use Rattle.cim_model.specs.Marks.{marks_of};
ghost use Rattle.cim_model.specs.Trace.{IsTrace, Row};
ghost use Rattle.cim_model.specs.Stated.{terminals_at, terminals_of};
ghost use Rattle.segment_cuts.specs.Sections.{AreMarks};
ghost use Rattle.segment_cuts.specs.declared.mark.Mark.{Mark};

/// The subjects of a model are listed each once: just the identifiers that a statement is about, and so all that are of some class.
pub fn subjects_are_listed_once()
    ensures listed { (m : List Statement) (x : ℕ) → Contains (subjects m) x ↔ IsTrue (is_subject m x) }
    ensures once { (m : List Statement) → IsDistinct nat_eq (subjects m) }
    ensures classed { (m : List Statement) (x : ℕ) (test : Class → Bool) → IsTrue (is_of m test x) → IsTrue (is_subject m x) }
{}

/// A subject of a model without fault is of a class that passes a test exactly where the class that its type names passes it.
pub fn subjects_have_one_class()
    ensures { (m : List Statement) (x : ℕ) (test : Class → Bool) → IsFaultless m → is_of m test x ≡ is_class test (class_in m x) }
{}

/// In a model without fault the terminals that name a piece of equipment, those that are listed by its sides, and those that name a
/// node are just those of which it is the one.
pub fn terminals_belong_where_listed()
    ensures owners { (m : List Statement) (y t : ℕ) → IsFaultless m → (owner_of m t ≡ Some y) ↔ Contains (terminals_of m y) t }
    ensures sides { (m : List Statement) (y t : ℕ) → IsFaultless m → (owner_of m t ≡ Some y) ↔ Contains (terminals_by_side m y) t }
    ensures nodes { (m : List Statement) (n t : ℕ) → IsFaultless m → (node_of m t ≡ Some n) ↔ Contains (terminals_at m n) t }
{}

/// In a model without fault just the terminals belong to something, what a terminal belongs to is equipment, and what it stands at
/// is a node.
pub fn terminals_join_equipment_to_nodes()
    ensures terminals { (m : List Statement) (t : ℕ) → IsFaultless m → is_some (owner_of m t) ≡ is_of m is_terminal t }
    ensures equipment { (m : List Statement) (y t : ℕ) → IsFaultless m → owner_of m t ≡ Some y → IsTrue (is_equipment m y) }
    ensures nodes { (m : List Statement) (n t : ℕ) → IsFaultless m → node_of m t ≡ Some n → IsTrue (is_of m is_node n) }
{}

/// In a model without fault just the cuts and the clamps stand on something, which is a segment, and a segment itself stands on
/// nothing.
pub fn marks_stand_on_segments()
    ensures marks { (m : List Statement) (y : ℕ) → IsFaultless m → is_some (segment_of m y) ≡ (is_of m is_cut y || is_of m is_clamp y) }
    ensures segments { (m : List Statement) (x y : ℕ) → IsFaultless m → segment_of m y ≡ Some x → IsTrue (is_of m is_segment x) }
    ensures alone { (m : List Statement) (x : ℕ) → IsFaultless m → IsTrue (is_of m is_segment x) → segment_of m x ≡ None }
{}

/// A trace of a live network has one list of rows.
pub fn one_trace()
    ensures { (m : List Statement) (o : Overlay) (x : ℕ) (phases : PhaseSet) (a b : List Row)
        → IsTrace (IsReached (network m o) x phases) a → IsTrace (IsReached (network m o) x phases) b → a ≡ b }
{}

/// In a model without fault the cuts and clamps of a segment are marks of a line: few, within it, and no cut at the place of another.
pub fn marks_divide_segments()
    ensures { (m : List Statement) (x : ℕ) → IsFaultless m → AreMarks (marks_of m x) }
{}

/// In an ordered model subjects, equipment, nodes, the terminals at a node and the marks of a segment ascend by identifier.
pub fn ordered_models_ascend()
    ensures subjects { (m : List Statement) → IsOrdered m → IsStrictlyIncreasing (subjects m) }
    ensures equipment { (m : List Statement) → IsOrdered m → IsStrictlyIncreasing (equipment m) }
    ensures nodes { (m : List Statement) → IsOrdered m → IsStrictlyIncreasing (nodes m) }
    ensures terminals { (m : List Statement) (n : ℕ) → IsOrdered m → IsStrictlyIncreasing (terminals_at m n) }
    ensures marks { (m : List Statement) (x : ℕ) → IsOrdered m → IsStrictlyIncreasing (map (λ (mark : Mark). mark.id.number) (marks_of m x)) }
{}

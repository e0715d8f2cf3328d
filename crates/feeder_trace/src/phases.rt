//! Sets of phases, as a search needs them.

ghost use Rattle.std.specs.Prelude.{◌≡◌, ◌↔◌, ◌&&◌, not, IsTrue};
ghost use Rattle.cim_model.specs.Phases.{Transforms};
ghost use Rattle.cim_words.specs.Phases.{has_phase};
ghost use Rattle.cim_words.specs.declared.phases.Phase.{Phase};

use cim_words::PhaseSet;

/// The phases of a set that another does not hold.
pub(crate) fn without(set: PhaseSet, other: PhaseSet) -> PhaseSet
    ensures { (p : Phase) → has_phase result p ≡ (has_phase set p && not (has_phase other p)) }
{
    PhaseSet {
        a: set.a && !other.a,
        b: set.b && !other.b,
        c: set.c && !other.c,
        n: set.n && !other.n,
        s1: set.s1 && !other.s1,
        s2: set.s2 && !other.s2,
    }
}

/// What a transformer makes of some phases: the neutral ends, and a phase of a line gives both phases of a secondary.
pub(crate) fn transformed(set: PhaseSet) -> PhaseSet
    ensures sound { (q : Phase) → IsTrue (has_phase result q) → (p : Phase) × IsTrue (has_phase set p) × Transforms p q }
    ensures complete { (p q : Phase) → IsTrue (has_phase set p) → Transforms p q → IsTrue (has_phase result q) }
{
    let has_line_phase = set.a || set.b || set.c;
    PhaseSet {
        a: set.a,
        b: set.b,
        c: set.c,
        n: false,
        s1: set.s1 || has_line_phase,
        s2: set.s2 || has_line_phase,
    }
}

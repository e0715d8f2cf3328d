//! The names of phase codes and of single phases (IEC 61970-301, PhaseCode and SinglePhaseKind).

ghost use Rattle.std.specs.Prelude.{◌≡◌, ◌++◌, Some, None, MatchResult, find, map, codes};
ghost use Rattle.std.specs.Str.{bytes_eq};
ghost use Rattle.cim_words.specs.Class.{cim_namespace};
ghost use Rattle.cim_words.specs.Phases.{phase_text};
ghost use Rattle.cim_words.specs.PhaseNames.{code_names, kind_names, code_set, kind_set, code_iri_set, kind_iri_set, behind};

use crate::phase_texts::BadPhase;
use crate::phases::PhaseSet;

/// What stands before the name in the IRI of a phase code.
const CODE_IRI: &str = "http://iec.ch/TC57/CIM100#PhaseCode.";

/// What stands before the name in the IRI of a single phase.
const KIND_IRI: &str = "http://iec.ch/TC57/CIM100#SinglePhaseKind.";

/// The sets that phase codes name.
pub const PHASE_CODES: [PhaseSet; 21] = [
    PhaseSet {
        n: true,
        ..PhaseSet::ABC
    },
    PhaseSet::ABC,
    PhaseSet {
        a: true,
        b: true,
        n: true,
        ..PhaseSet::EMPTY
    },
    PhaseSet {
        a: true,
        c: true,
        n: true,
        ..PhaseSet::EMPTY
    },
    PhaseSet {
        b: true,
        c: true,
        n: true,
        ..PhaseSet::EMPTY
    },
    PhaseSet {
        a: true,
        b: true,
        ..PhaseSet::EMPTY
    },
    PhaseSet {
        a: true,
        c: true,
        ..PhaseSet::EMPTY
    },
    PhaseSet {
        b: true,
        c: true,
        ..PhaseSet::EMPTY
    },
    PhaseSet {
        a: true,
        n: true,
        ..PhaseSet::EMPTY
    },
    PhaseSet {
        b: true,
        n: true,
        ..PhaseSet::EMPTY
    },
    PhaseSet {
        c: true,
        n: true,
        ..PhaseSet::EMPTY
    },
    PhaseSet {
        a: true,
        ..PhaseSet::EMPTY
    },
    PhaseSet {
        b: true,
        ..PhaseSet::EMPTY
    },
    PhaseSet {
        c: true,
        ..PhaseSet::EMPTY
    },
    PhaseSet {
        n: true,
        ..PhaseSet::EMPTY
    },
    PhaseSet {
        s1: true,
        ..PhaseSet::EMPTY
    },
    PhaseSet {
        s2: true,
        ..PhaseSet::EMPTY
    },
    PhaseSet {
        s1: true,
        s2: true,
        ..PhaseSet::EMPTY
    },
    PhaseSet {
        s1: true,
        n: true,
        ..PhaseSet::EMPTY
    },
    PhaseSet {
        s2: true,
        n: true,
        ..PhaseSet::EMPTY
    },
    PhaseSet {
        s1: true,
        s2: true,
        n: true,
        ..PhaseSet::EMPTY
    },
];

/// The sets of one phase.
pub const PHASE_KINDS: [PhaseSet; 6] = [
    PhaseSet {
        a: true,
        ..PhaseSet::EMPTY
    },
    PhaseSet {
        b: true,
        ..PhaseSet::EMPTY
    },
    PhaseSet {
        c: true,
        ..PhaseSet::EMPTY
    },
    PhaseSet {
        n: true,
        ..PhaseSet::EMPTY
    },
    PhaseSet {
        s1: true,
        ..PhaseSet::EMPTY
    },
    PhaseSet {
        s2: true,
        ..PhaseSet::EMPTY
    },
];

impl PhaseSet {
    /// Reads the name of a phase code, as `ABCN` or `s12`.
    #[tactic(auto, unfolding(crate::specs::PhaseNames::code_set))]
    pub fn read_code(name: &str) -> Result<PhaseSet, BadPhase>
        ensures { MatchResult result (λ set. code_set name.now ≡ Some set) (λ _. code_set name.now ≡ None) }
    {
        named(&PHASE_CODES, name).ok_or(BadPhase)
    }

    /// Reads the name of a single phase, as `A` or `s1`.
    #[tactic(auto, unfolding(crate::specs::PhaseNames::kind_set))]
    pub fn read_kind(name: &str) -> Result<PhaseSet, BadPhase>
        ensures { MatchResult result (λ set. kind_set name.now ≡ Some set) (λ _. kind_set name.now ≡ None) }
    {
        named(&PHASE_KINDS, name).ok_or(BadPhase)
    }

    /// The phases that the IRI of a phase code names.
    #[tactic(auto, unfolding(crate::specs::PhaseNames::code_iri_set, crate::specs::Class::cim_namespace))]
    pub fn of_code_iri(iri: &str) -> Result<PhaseSet, BadPhase>
        ensures { MatchResult result (λ set. code_iri_set iri.now ≡ Some set) (λ _. code_iri_set iri.now ≡ None) }
    {
        match iri.strip_prefix(CODE_IRI) {
            Some(name) => PhaseSet::read_code(name),
            None => Err(BadPhase),
        }
    }

    /// The phase that the IRI of a single phase names.
    #[tactic(auto, unfolding(crate::specs::PhaseNames::kind_iri_set, crate::specs::Class::cim_namespace))]
    pub fn of_kind_iri(iri: &str) -> Result<PhaseSet, BadPhase>
        ensures { MatchResult result (λ set. kind_iri_set iri.now ≡ Some set) (λ _. kind_iri_set iri.now ≡ None) }
    {
        match iri.strip_prefix(KIND_IRI) {
            Some(name) => PhaseSet::read_kind(name),
            None => Err(BadPhase),
        }
    }
}

// The first of these sets whose text is the name.
fn named(all: &[PhaseSet], name: &str) -> Option<PhaseSet>
    ensures { result ≡ find (λ set. bytes_eq (phase_text set) name.now) all.now }
{
    let Ok(set) = PhaseSet::read_text(name) else {
        return None;
    };
    if all.contains(&set) { Some(set) } else { None }
}

/// The tables hold just the sets that the names of the standard name, each at the place of its name.
pub fn phase_names_are_standard()
    ensures codes { map phase_text PHASE_CODES ≡ code_names }
    ensures kinds { map phase_text PHASE_KINDS ≡ kind_names }
{}

//! Phases and sets of phases (IEC 61970-301, SinglePhaseKind and PhaseCode).

ghost use Rattle.std.specs.Prelude.{◌≡◌, ◌↔◌, ◌&&◌, ◌||◌, false, IsTrue};
ghost use Rattle.cim_words.specs.Phases.{has_phase, has_no_phase};

/// A phase.
#[derive(Clone, Copy, Debug, PartialEq, Eq, Hash)]
pub enum Phase {
    /// Phase A.
    A,
    /// Phase B.
    B,
    /// Phase C.
    C,
    /// The neutral.
    N,
    /// Secondary phase 1 of a split-phase transformer.
    S1,
    /// Secondary phase 2 of a split-phase transformer.
    S2,
}

/// A set of phases.
#[derive(Clone, Copy, Debug, PartialEq, Eq, Hash)]
pub struct PhaseSet {
    /// Whether it holds phase A.
    pub a: bool,
    /// Whether it holds phase B.
    pub b: bool,
    /// Whether it holds phase C.
    pub c: bool,
    /// Whether it holds the neutral.
    pub n: bool,
    /// Whether it holds secondary phase 1.
    pub s1: bool,
    /// Whether it holds secondary phase 2.
    pub s2: bool,
}

impl PhaseSet {
    /// No phase.
    pub const EMPTY: PhaseSet = PhaseSet {
        a: false,
        b: false,
        c: false,
        n: false,
        s1: false,
        s2: false,
    };

    /// The three phases A, B and C.
    pub const ABC: PhaseSet = PhaseSet {
        a: true,
        b: true,
        c: true,
        n: false,
        s1: false,
        s2: false,
    };

    /// The phases that both sets hold.
    pub fn meet(self, other: PhaseSet) -> PhaseSet
        ensures { (p : Phase) → has_phase result p ≡ (has_phase self p && has_phase other p) }
    {
        PhaseSet {
            a: self.a && other.a,
            b: self.b && other.b,
            c: self.c && other.c,
            n: self.n && other.n,
            s1: self.s1 && other.s1,
            s2: self.s2 && other.s2,
        }
    }

    /// The phases that either set holds.
    pub fn join(self, other: PhaseSet) -> PhaseSet
        ensures { (p : Phase) → has_phase result p ≡ (has_phase self p || has_phase other p) }
    {
        PhaseSet {
            a: self.a || other.a,
            b: self.b || other.b,
            c: self.c || other.c,
            n: self.n || other.n,
            s1: self.s1 || other.s1,
            s2: self.s2 || other.s2,
        }
    }

    /// Whether the set holds a phase.
    pub fn has(self, phase: Phase) -> bool
        ensures { result ≡ has_phase self phase }
    {
        match phase {
            Phase::A => self.a,
            Phase::B => self.b,
            Phase::C => self.c,
            Phase::N => self.n,
            Phase::S1 => self.s1,
            Phase::S2 => self.s2,
        }
    }

    /// Whether the set holds no phase.
    pub fn is_empty(self) -> bool
        ensures phases { IsTrue result ↔ ((p : Phase) → has_phase self p ≡ false) }
        ensures value { result ≡ has_no_phase self }
    {
        self == PhaseSet::EMPTY
    }
}

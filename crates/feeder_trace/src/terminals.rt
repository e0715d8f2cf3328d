//! Terminals, numbered in the order in which a trace first reaches them, each with its phases.

ghost use Rattle.std.specs.Prelude.{◌≡◌, ◌<◌, ◌∷◌, ◌++◌, ℕ, [], length, Some, IfOk, IfSome, Contains, slice_get};
ghost use Rattle.room_words.specs.declared.term.Term.{Term};
ghost use Rattle.cim_words.specs.declared.phases.PhaseSet.{PhaseSet};

use cim_words::{NoMemory, PhaseSet};
use graph_pages::Term;
use indexmap::IndexMap;
use room_words::terms_are_compared;
use std::alloc::Global;
use std::marker::Model;

/// Terminals by number, each once, with its phases, and how many of them there is memory for.
#[derive(Drop)]
pub(crate) struct Terminals {
    phases: IndexMap<Term, PhaseSet>,
    most: usize,
}

impl Model for Terminals {
    ghost use Rattle.feeder_trace.specs.Views.{TerminalsView};

    ghost Value = { TerminalsView };

    ghost use Rattle.feeder_trace.specs.Terminals.{HasPlaces, view_of};

    ghost view = { view_of };

    ghost invariant = { HasPlaces };
}

impl Terminals {
    /// No terminals, with the memory for so many.
    pub(crate) fn new(alloc: Global, most: usize) -> Result<Terminals, NoMemory>
        ensures none { IfOk result (λ terminals. terminals.listed ≡ []) }
        ensures most { IfOk result (λ terminals. terminals.most ≡ most) }
    {
        Ok(Terminals {
            phases: IndexMap::with_capacity(alloc, most)?,
            most,
        })
    }

    /// Takes all numbers back, at the cost of the terminals that have one.
    pub(crate) fn clear(&mut self)
        ensures none { self.new.listed ≡ [] }
        ensures most { self.new.most ≡ self.old.most }
    {
        self.phases.truncate(0);
    }

    /// Gives the next number to a terminal that has none.
    pub(crate) fn enter(&mut self, term: Term, phases: PhaseSet)
        requires absent { (other : PhaseSet) → Contains self.old.listed (term, other) → ⊥ }
        requires room { length self.old.listed < self.old.most }
        ensures entered { self.new.listed ≡ self.old.listed ++ (term, phases) ∷ [] }
        ensures most { self.new.most ≡ self.old.most }
    {
        terms_are_compared();
        self.phases.insert(term, phases).unwrap();
    }

    /// How many terminals have a number.
    pub(crate) fn len(&self) -> usize
        ensures { result ≡ length self.now.listed }
    {
        self.phases.len()
    }

    /// How many terminals there is memory for.
    pub(crate) fn most(&self) -> usize
        ensures { result ≡ self.now.most }
    {
        self.most
    }

    /// The number and the phases of a terminal.
    pub(crate) fn find(&self, term: Term) -> Option<(usize, PhaseSet)>
        ensures found { IfSome result (λ r. slice_get self.now.listed r.0 ≡ Some (term, r.1)) }
        ensures every { (phases : PhaseSet) → Contains self.now.listed (term, phases) → (i : ℕ) × (result ≡ Some (i, phases)) }
    {
        terms_are_compared();
        let index = self.phases.get_index_of(&term)?;
        let (_, phases) = self.phases.get_index(index)?;
        Some((index, *phases))
    }

    /// The terminal with a number.
    pub(crate) fn term(&self, index: usize) -> Term
        requires { index < length self.now.listed }
        ensures { (phases : PhaseSet) × (slice_get self.now.listed index ≡ Some (result, phases)) }
    {
        let (term, _) = self.phases.get_index(index).unwrap();
        *term
    }
}

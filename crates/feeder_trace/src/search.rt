//! The marks of a search, and what is still to be looked at.

ghost use Rattle.std.specs.Prelude.{◌≡◌, ◌≤◌, ◌<◌, [], length, IfOk, IfSome, IfNone, Contains, Some, slice_get, false};
ghost use Rattle.cim_words.specs.Phases.{has_no_phase};
ghost use Rattle.cim_words.specs.declared.phases.PhaseSet.{PhaseSet};
ghost use Rattle.graph_pages.specs.Walks.{phases_at};
ghost use Rattle.feeder_trace.specs.Search.{AtTerm, IsAt, IsPopped, MarksAll, Nowhere};

use crate::capacity::{put_within, times};
use crate::lines::phases_of_term;
use crate::phases::without;
use crate::terminals::Terminals;
use cim_words::{NoMemory, PhaseSet};
use graph_pages::{Graph, Term};
use std::alloc::Global;
use std::marker::Model;

/// How many phases there are.
const PHASES: usize = 6;

/// The terminals of a graph that were reached, with the phases in which each was, and those that are still to be spread from, with the
/// phases.
#[derive(Drop)]
pub(crate) struct Search {
    graph: Graph,
    terminals: Terminals,
    reached: Vec<PhaseSet>,
    pending: Vec<(Term, PhaseSet)>,
}

impl Model for Search {
    ghost use Rattle.feeder_trace.specs.Views.{SearchView};

    ghost Value = { SearchView };

    ghost use Rattle.feeder_trace.specs.Room.{HasRoom, view_of};

    ghost view = { view_of };

    ghost invariant = { HasRoom };
}

impl Search {
    /// A search over a graph that has not begun, with the memory for all of it.
    pub(crate) fn new(alloc: Global, graph: &Graph) -> Result<Search, NoMemory>
        ensures { IfOk result (λ search. search.graph ≡ graph.now) }
    {
        let most = graph.spokes();
        Ok(Search {
            graph: graph.share()?,
            terminals: Terminals::new(alloc, most)?,
            reached: Vec::with_capacity(alloc, most)?,
            pending: Vec::with_capacity(alloc, times(most, PHASES)?)?,
        })
    }

    /// How many terminals there is memory for.
    pub(crate) fn most(&self) -> usize
        ensures { result ≡ self.now.most }
    {
        self.terminals.most()
    }

    /// How many terminals were reached.
    pub(crate) fn len(&self) -> usize
        ensures len { result ≡ length self.now.terminals }
        ensures within { result ≤ self.now.most }
    {
        self.terminals.len()
    }

    /// Takes all marks away, at the cost of what has some.
    pub(crate) fn clear(&mut self)
        ensures graph { self.new.graph ≡ self.old.graph }
        ensures most { self.new.most ≡ self.old.most }
        ensures pending { self.new.pending ≡ [] }
        ensures reached { self.new.reached ≡ [] }
    {
        self.terminals.clear();
        self.reached.clear();
        self.pending.clear();
    }

    /// A terminal that is still to be spread from in some phases, and these phases.
    pub(crate) fn next(&mut self) -> Option<(Term, PhaseSet)>
        ensures some { IfSome result (λ next. IsPopped next self.old self.new) }
        ensures none { IfNone result ((self.new ≡ self.old) × (self.old.pending ≡ [])) }
    {
        self.pending.pop()
    }

    /// Marks a terminal in those of some phases that are its own.
    pub(crate) fn reach(&mut self, term: Term, phases: PhaseSet)
        ensures { MarksAll (AtTerm term phases) self.old self.new }
    {
        if let Some((index, own)) = self.terminals.find(term) {
            self.mark(index, term, own, phases);
            return;
        }
        let own = phases_of_term(&self.graph, term);
        if own.meet(phases).is_empty() {
            return;
        }
        let index = self.enter(term, own);
        self.mark(index, term, own, phases);
    }

    /// Gives the next number to a terminal that has none, and returns it.
    fn enter(&mut self, term: Term, own: PhaseSet) -> usize
        requires own { own ≡ phases_at self.old.graph term }
        requires some { has_no_phase own ≡ false }
        requires absent { (other : PhaseSet) → Contains self.old.terminals (term, other) → ⊥ }
        ensures unmarked { MarksAll Nowhere self.old self.new }
        ensures index { slice_get self.new.terminals result ≡ Some (term, own) }
    {
        let index = self.terminals.len();
        self.terminals.enter(term, own);
        put_within(&mut self.reached, PhaseSet::EMPTY);
        index
    }

    /// The same, of the terminal with a number.
    fn mark(&mut self, index: usize, term: Term, own: PhaseSet, phases: PhaseSet)
        requires own { own ≡ phases_at self.old.graph term }
        requires at { slice_get self.old.terminals index ≡ Some (term, own) }
        ensures { MarksAll (AtTerm term phases) self.old self.new }
    {
        let before = self.reached[index];
        let new = without(phases.meet(own), before);
        if new.is_empty() {
            return;
        }
        self.reached[index] = before.join(new);
        put_within(&mut self.pending, (term, new));
    }

    /// The terminal with a number, and the phases in which it was reached.
    pub(crate) fn at(&self, index: usize) -> (Term, PhaseSet)
        requires { index < length self.now.terminals }
        ensures term { IsAt self.now index result.0 }
        ensures reached { slice_get self.now.reached index ≡ Some result.1 }
    {
        (self.terminals.term(index), self.reached[index])
    }
}

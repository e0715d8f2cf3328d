//! What the terminals that a search reached count for.

ghost use Rattle.std.specs.Prelude.{◌≡◌, ◌+◌, ◌*◌, ◌<◌, ◌≤◌, ◌↔◌, ℕ, vec_len, IsTrue, Contains};
ghost use Rattle.std.specs.Vec.{vec_capacity};
ghost use Rattle.cim_words.specs.Phases.{has_phase};
ghost use Rattle.cim_words.specs.declared.phases.Phase.{Phase};
ghost use Rattle.cim_model.specs.Trace.{Lists, Row};
ghost use Rattle.graph_pages.specs.Walks.{CountsFor};
ghost use Rattle.feeder_trace.specs.Rows.{Counted, AddsParts};

use crate::capacity::put_within;
use crate::lines::{line_of_segment, phases_of_line};
use crate::merge::Row;
use crate::search::Search;
use cim_words::{Id, PhaseSet};
use graph_pages::{Graph, Term};

/// The parts of the rows: of each terminal that was reached what it counts for, and in which phases.
pub(crate) fn gather(graph: &Graph, search: &Search, parts: &mut Vec<Row>)
    requires { 2 * search.now.most ≤ vec_capacity parts.old }
    ensures counted { (y : ℕ) (p : Phase) → Lists parts.new.items y p ↔ Counted graph.now search.now y p }
    ensures some { (row : Row) → Contains parts.new.items row → (p : Phase) × IsTrue (has_phase row.1 p) }
    ensures len { vec_len parts.new ≤ 2 * search.now.most }
    ensures capacity { vec_capacity parts.old ≤ vec_capacity parts.new }
{
    parts.clear();
    for index in 0..search.len() {
        let (term, reached) = search.at(index);
        count_term(graph, term, reached, parts);
    }
}

/// What a terminal counts for: its owner, and the segment on which its owner stands.
fn count_term(graph: &Graph, term: Term, reached: PhaseSet, parts: &mut Vec<Row>)
    requires { vec_len parts.old + 2 ≤ vec_capacity parts.old }
    ensures { AddsParts (λ y p. CountsFor graph.now term y p × IsTrue (has_phase reached p)) 2 parts.old parts.new }
{
    count(term.owner, reached, parts);
    let Some(star) = graph.star(term.owner) else {
        return;
    };
    if let Some(segment) = star.on {
        let phases = phases_of_line(line_of_segment(graph, segment));
        count(segment, reached.meet(phases), parts);
    }
}

/// One part, if it has a phase.
fn count(id: Id, phases: PhaseSet, parts: &mut Vec<Row>)
    requires { vec_len parts.old < vec_capacity parts.old }
    ensures { AddsParts (λ y p. (id.number ≡ y) × IsTrue (has_phase phases p)) 1 parts.old parts.new }
{
    if !phases.is_empty() {
        put_within(parts, (id, phases));
    }
}

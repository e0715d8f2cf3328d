//! What the graph says of a terminal: its place, its line and its phases.

ghost use Rattle.std.specs.Prelude.{◌≡◌, Option, Some, IfSome, option_map, find};
ghost use Rattle.graph_pages.specs.Graph.{star_of};
ghost use Rattle.room_words.specs.Terms.{same_term};
ghost use Rattle.graph_pages.specs.Walks.{line_in, line_of, line_phases, line_at, own_or_on, phases_at};
ghost use Rattle.graph_pages.specs.declared.star.Spoke.{Spoke};
ghost use Rattle.feeder_trace.specs.Spread.{shown_line};

use cim_words::{Id, PhaseSet};
use graph_pages::{Graph, Pass, Sections, Spoke, SpokePhases, Star, Term};
use room_words::terms_are_compared;

/// A segment, its phases, and the terminals on it, section by section.
#[derive(Clone, Copy)]
pub(crate) struct Line<'a> {
    pub(crate) segment: Id,
    pub(crate) phases: PhaseSet,
    pub(crate) sections: &'a Sections,
}

/// The terminal as its owner's star lists it.
pub(crate) fn spoke_in(star: &Star, term: Term) -> Option<Spoke>
    ensures { result ≡ find (λ (spoke : Spoke). same_term spoke.term term) star.now.spokes }
{
    terms_are_compared();
    for spoke in star.spokes.as_slice() {
        if spoke.term == term {
            return Some(*spoke);
        }
    }
    None
}

/// The line that a star passes current along, which is that of its segment.
fn line_passed(star: &Star, segment: Id) -> Option<Line<'_>>
    ensures line { option_map shown_line result ≡ line_in star.now.pass }
    ensures segment { IfSome result (λ line. line.segment ≡ segment) }
{
    match &star.pass {
        Pass::Line { phases, sections } => Some(Line {
            segment,
            phases: *phases,
            sections,
        }),
        _ => None,
    }
}

/// The line of a segment.
pub(crate) fn line_of_segment(graph: &Graph, segment: Id) -> Option<Line<'_>>
    ensures line { option_map shown_line result ≡ line_of graph.now segment.number }
    ensures segment { IfSome result (λ line. line.segment ≡ segment) }
{
    line_passed(graph.star(segment)?, segment)
}

/// The line on which the terminals of an owner stand, whose star is given.
pub(crate) fn line_under<'a>(graph: &'a Graph, star: &'a Star, owner: Id) -> Option<Line<'a>>
    requires { star_of graph.now owner.number ≡ Some star.now }
    ensures line { option_map shown_line result ≡ own_or_on graph.now star.now (line_in star.now.pass) }
    ensures segment { IfSome result (λ line. line_of graph.now line.segment.number ≡ Some (shown_line line)) }
{
    if let Some(line) = line_passed(star, owner) {
        return Some(line);
    }
    line_of_segment(graph, star.on?)
}

/// The phases of a terminal.
pub(crate) fn phases_of_term(graph: &Graph, term: Term) -> PhaseSet
    ensures { result ≡ phases_at graph.now term }
{
    let Some(star) = graph.star(term.owner) else {
        return PhaseSet::EMPTY;
    };
    let Some(spoke) = spoke_in(star, term) else {
        return PhaseSet::EMPTY;
    };
    match spoke.phases {
        SpokePhases::Own(phases) => phases,
        SpokePhases::OfSegment => phases_of_line(line_under(graph, star, term.owner)),
    }
}

/// The phases of a line, if there is one.
pub(crate) fn phases_of_line(line: Option<Line<'_>>) -> PhaseSet
    ensures { result ≡ line_phases (option_map shown_line line.entry) }
{
    match line {
        Some(line) => line.phases,
        None => PhaseSet::EMPTY,
    }
}

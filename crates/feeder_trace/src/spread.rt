//! Where current goes on from a terminal.

ghost use Rattle.std.specs.Prelude.{◌≡◌, ◌↔◌, IsTrue, Some, Contains};
ghost use Rattle.graph_pages.specs.Graph.{star_of};
ghost use Rattle.feeder_trace.specs.Hubs.{IsHub, StandsIn};
ghost use Rattle.feeder_trace.specs.Spread.{IsOver};
ghost use Rattle.feeder_trace.specs.Search.{MarksAll};
ghost use Rattle.feeder_trace.specs.Spread.{AlongLineOf, AmongMembers, AmongSpokes, AtPlaceOf, JoinedFrom, PassedFrom};

use crate::hub::Hub;
use crate::hubs::Hubs;
use crate::lines::{line_under, spoke_in};
use crate::phases::transformed;
use crate::search::Search;
use cim_words::PhaseSet;
use graph_pages::{Graph, Pass, Spoke, Star, Term};
use room_words::terms_are_compared;

/// How many terminals are gone over faster than it is noted that they were.
const FEW: usize = 4;

/// Visited all to which current goes on from a terminal in some phases.
pub(crate) fn spread(
    search: &mut Search,
    hubs: &mut Hubs,
    graph: &Graph,
    term: Term,
    phases: PhaseSet,
)
    requires { IsOver graph.now hubs.old search.old }
    ensures marked { MarksAll (JoinedFrom graph.now term phases) search.old search.new }
    ensures over { IsOver graph.now hubs.new search.new }
{
    let Some(star) = graph.star(term.owner) else {
        return;
    };
    at_place(search, hubs, graph, star, term, phases);
    along_line(search, hubs, graph, star, term, phases);
    through_star(search, star, term, phases);
}

/// Visited the terminals at the place where a terminal of a star stands.
fn at_place(
    search: &mut Search,
    hubs: &mut Hubs,
    graph: &Graph,
    star: &Star,
    term: Term,
    phases: PhaseSet,
)
    requires star { star_of graph.now term.owner.number ≡ Some star.now }
    requires over { IsOver graph.now hubs.old search.old }
    ensures marked { MarksAll (AtPlaceOf graph.now term phases) search.old search.new }
    ensures over { IsOver graph.now hubs.new search.new }
{
    let Some(spoke) = spoke_in(star, term) else {
        return;
    };
    let Some(place) = spoke.at else {
        return;
    };
    let Some(members) = graph.members(place) else {
        return;
    };
    over_hub(search, hubs, Hub::Place(place), members.as_slice(), phases);
}

/// Visited the terminals in the sections in which a terminal of a star stands on a line, in the line's phases.
fn along_line(
    search: &mut Search,
    hubs: &mut Hubs,
    graph: &Graph,
    star: &Star,
    term: Term,
    phases: PhaseSet,
)
    requires star { star_of graph.now term.owner.number ≡ Some star.now }
    requires over { IsOver graph.now hubs.old search.old }
    ensures marked { MarksAll (AlongLineOf graph.now term phases) search.old search.new }
    ensures over { IsOver graph.now hubs.new search.new }
{
    terms_are_compared();
    let Some(line) = line_under(graph, star, term.owner) else {
        return;
    };
    let phases = phases.meet(line.phases);
    for (index, section) in line.sections.as_slice().iter().enumerate() {
        if !section.as_slice().contains(&term) {
            continue;
        }
        let hub = Hub::Section(line.segment, index);
        over_hub(search, hubs, hub, section.as_slice(), phases);
    }
}

/// Visited the terminals of a place or section in some phases. A few are gone over whenever a trace comes to them, and more of them only
/// in the phases in which they were not gone over before.
fn over_hub(search: &mut Search, hubs: &mut Hubs, hub: Hub, terms: &[Term], phases: PhaseSet)
    requires hub { IsHub hubs.old.graph hub }
    requires terms { (t : Term) → StandsIn hubs.old.graph hub t ↔ Contains terms.now t }
    requires over { IsOver hubs.old.graph hubs.old search.old }
    ensures marked { MarksAll (AmongMembers terms.now phases) search.old search.new }
    ensures over { IsOver hubs.old.graph hubs.new search.new }
{
    if terms.len() <= FEW {
        reach_members(search, terms, phases);
        return;
    }
    let left = hubs.visit(hub, phases);
    if left.is_empty() {
        return;
    }
    reach_members(search, terms, left);
}

/// Visited the terminals to which a star passes current from one of its own.
fn through_star(search: &mut Search, star: &Star, term: Term, phases: PhaseSet)
    ensures { MarksAll (PassedFrom star.now term phases) search.old search.new }
{
    let spokes = star.spokes.as_slice();
    match &star.pass {
        Pass::Same => reach_spokes(search, spokes, None, phases),
        Pass::Switch { is_open } => {
            if !*is_open {
                reach_spokes(search, spokes, Some(term), phases);
            }
        }
        Pass::Transformer => reach_spokes(search, spokes, Some(term), transformed(phases)),
        Pass::Nothing | Pass::Line { .. } => {}
    }
}

/// Visited terminals in some phases.
fn reach_members(search: &mut Search, members: &[Term], phases: PhaseSet)
    ensures { MarksAll (AmongMembers members.now phases) search.old search.new }
{
    for &term in members {
        search.reach(term, phases);
    }
}

/// Whether a terminal is the one that is left out.
fn is_excepted(term: Term, except: Option<Term>) -> bool
    ensures { IsTrue result ↔ (Some term ≡ except) }
{
    terms_are_compared();
    match except {
        Some(other) => term == other,
        None => false,
    }
}

/// Visited the terminals of some spokes in some phases, but one of them.
pub(crate) fn reach_spokes(
    search: &mut Search,
    spokes: &[Spoke],
    except: Option<Term>,
    phases: PhaseSet,
)
    ensures { MarksAll (AmongSpokes spokes.now except phases) search.old search.new }
{
    for spoke in spokes {
        if is_excepted(spoke.term, except) {
            continue;
        }
        search.reach(spoke.term, phases);
    }
}

//! A graph of two busbar sections.

ghost use Rattle.std.specs.Prelude.{◌≡◌, IfOk};

use cim_words::{Class, Id, Listed, NoMemory, PhaseSet};
use graph_pages::{Graph, Pass, Spoke, SpokePhases, Star};
use room_words::{Anchor, Term, TermKey};
use std::alloc::Global;
use std::marker::Brand;
use std::sync::ledger::{Blank, Ledger};
use std::test::Fail;
use step_count::Steps;

/// A busbar section with one terminal at a node.
fn busbar(alloc: Global, id: u128, terminal: u128, node: u128) -> Result<Star, NoMemory>
    ensures { IfOk result (λ star. star.id.number ≡ id) }
{
    let spoke = Spoke {
        term: term(id, terminal),
        at: Some(Anchor::Node(Id::of(node))),
        phases: SpokePhases::Own(PhaseSet::ABC),
    };
    Ok(Star {
        id: Id::of(id),
        class: Class::BusbarSection,
        on: None,
        spokes: Listed::of(vec![in alloc; spoke]?),
        pass: Pass::Same,
    })
}

fn term(owner: u128, terminal: u128) -> Term {
    Term {
        owner: Id::of(owner),
        key: TermKey::Real(Id::of(terminal)),
    }
}

/// Two busbar sections at one node.
fn two_busbars<L: Ledger>(alloc: Global, blank: Blank) -> Result<Graph, NoMemory>
    requires name { blank.name ≡ L.name }
    requires parts { blank.parts ≡ L.parts }
    requires some { blank.parts ≡ 1 }
{
    let stars = vec![in alloc; busbar(alloc, 1, 11, 100)?, busbar(alloc, 2, 12, 100)?]?;
    let members = vec![in alloc; term(1, 11), term(2, 12)]?;
    let places = vec![in alloc; (Anchor::Node(Id::of(100)), Listed::of(members))]?;
    Graph::build(alloc, stars, places, &mut Steps::<L>::of(blank))
}

#[test]
fn finds_stars_and_members(rt: HostRuntime) -> Result<(), Fail> {
    let graph = two_busbars::<Brand>(rt.alloc(), Blank::new(1))?.share()?;
    for (id, count) in [(1, 1), (2, 1), (3, 0)] {
        let spokes = graph.star(Id::of(id)).map_or(0, |star| star.spokes.len());
        assert_eq!(rt; spokes, count, "at {id}");
    }
    for (node, count) in [(100, 2), (101, 0)] {
        let members = graph.members(Anchor::Node(Id::of(node)));
        assert_eq!(rt; members.map_or(0, |terms| terms.len()), count, "at {node}");
    }
    let stars = graph
        .stars()
        .fold(0_usize, |count, _| count.saturating_add(1));
    assert_eq!(rt; stars, 2);
    Ok(())
}

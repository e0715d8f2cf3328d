//! Traces of a small network.

ghost use Rattle.std.specs.Prelude.{◌≡◌, IfOk};

use cim_words::{Class, Id, Listed, NoMemory, PhaseSet};
use feeder_trace::Tracer;
use graph_pages::{Graph, Pass, Spoke, SpokePhases, Star};
use room_words::{Anchor, Term, TermKey};
use std::alloc::Global;
use std::marker::Brand;
use std::process::Abort;
use std::sync::ledger::{Blank, Ledger};
use std::test::Fail;
use step_count::Steps;

const NONE: PhaseSet = PhaseSet::EMPTY;

pub(crate) const ABC: PhaseSet = PhaseSet::ABC;

const A: PhaseSet = PhaseSet { a: true, ..NONE };

fn real(owner: u128, terminal: u128) -> Term {
    Term {
        owner: Id::of(owner),
        key: TermKey::Real(Id::of(terminal)),
    }
}

/// A terminal at a node.
fn at(term: Term, node: u128, phases: PhaseSet) -> Spoke {
    Spoke {
        term,
        at: Some(Anchor::Node(Id::of(node))),
        phases: SpokePhases::Own(phases),
    }
}

fn star(id: u128, spokes: Vec<Spoke>, pass: Pass) -> Star
    ensures { result.id.number ≡ id }
{
    Star {
        id: Id::of(id),
        class: Class::Other,
        on: None,
        spokes: Listed::of(spokes),
        pass,
    }
}

/// A source, and at its node an open switch and a line with one section.
fn network<L: Ledger>(alloc: Global, blank: Blank) -> Result<Graph, NoMemory>
    requires name { blank.name ≡ L.name }
    requires parts { blank.parts ≡ L.parts }
    requires some { blank.parts ≡ 1 }
{
    let source = vec![in alloc; at(real(1, 11), 100, ABC)]?;
    let sides = vec![in alloc; at(real(2, 21), 100, A), at(real(2, 22), 101, ABC)]?;
    let ends = vec![in alloc; at(real(3, 31), 100, ABC), at(real(3, 32), 102, ABC)]?;
    let section = Listed::of(vec![in alloc; real(3, 31), real(3, 32)]?);
    let sections = Listed::of(vec![in alloc; section]?);
    let phases = ABC;
    let first = star(1, source, Pass::Same);
    let second = star(2, sides, Pass::Switch { is_open: true });
    let third = star(3, ends, Pass::Line { phases, sections });
    let stars = vec![in alloc; first, second, third]?;
    let members = Listed::of(vec![in alloc; real(1, 11), real(2, 21), real(3, 31)]?);
    let places = vec![in alloc; (Anchor::Node(Id::of(100)), members)]?;
    Graph::build(alloc, stars, places, &mut Steps::<L>::of(blank))
}

/// Traces, and compares the rows.
pub(crate) fn expect_rows(
    rt: &impl Abort,
    tracer: &mut Tracer,
    graph: &Graph,
    source: u128,
    phases: PhaseSet,
    rows: &[(u128, PhaseSet)],
)
    requires { tracer.old.graph ≡ graph.now }
    ensures { tracer.new.graph ≡ tracer.old.graph }
{
    let traced = tracer.trace(graph, Id::of(source), phases);
    assert!(rt; traced.is_ok(), "from {source}");
    let count = tracer.count();
    assert!(rt; count == rows.len(), "from {source}");
    for (index, (id, set)) in rows.iter().enumerate() {
        assert!(rt;
            tracer.reached(index) == (Id::of(*id), *set),
            "from {source}: {id}"
        );
    }
}

#[test]
fn traces_a_network(rt: HostRuntime) -> Result<(), Fail> {
    let graph = network::<Brand>(rt.alloc(), Blank::new(1))?;
    let mut tracer = Tracer::reserve(rt.alloc(), &graph)?;
    let all = [(1, ABC), (2, A), (3, ABC)];
    expect_rows(&rt, &mut tracer, &graph, 1, ABC, &all);
    expect_rows(&rt, &mut tracer, &graph, 1, A, &[(1, A), (2, A), (3, A)]);
    expect_rows(&rt, &mut tracer, &graph, 3, ABC, &all);
    expect_rows(&rt, &mut tracer, &graph, 2, NONE, &[]);
    assert!(rt; tracer.trace(&graph, Id::of(4), ABC).is_err());
    Ok(())
}

//! Traces of the network that orders leave.

ghost use Rattle.std.specs.Prelude.{◌≡◌};
ghost use Rattle.cim_model.specs.Stands.{Stands};

use super::{A6, AB, CUT_TWO, FEEDER, Order, SECOND_SOURCE, index_of, judged};
use crate::model::Row;
use cim_records::Index;
use cim_words::{Id, NoMemory, PhaseSet};
use feeder_trace::Tracer;
use graph_pages::Graph;
use room_words::Overlay;
use std::alloc::Global;
use std::marker::Brand;
use std::sync::ledger::{Blank, Ledger};
use std::test::Fail;
use step_count::Steps;
use temporary::overlay_stands;
use topology::rebuild;

const ABC: PhaseSet = PhaseSet::ABC;

/// What is reached from a source in the phases A, B and C.
type Trace = (u128, &'static [(u128, PhaseSet)]);

/// Orders on a network, and traces after them.
type Case = (
    &'static [&'static [Row]],
    &'static [Order],
    &'static [Trace],
);

const CASES: [Case; 4] = [
    // A clamp does not divide the segment, and a cut does: from both ends.
    (
        &[&FEEDER],
        &[
            Order::Clamp(0x91, 0x51, 40_000),
            Order::Cut(0x92, 0x51, 60_000),
        ],
        &[
            (
                0xE1,
                &[
                    (0x51, ABC),
                    (0x91, ABC),
                    (0x92, ABC),
                    (0xB1, ABC),
                    (0xE1, ABC),
                ],
            ),
            (0xC1, &[(0x51, ABC), (0x92, ABC), (0xC1, ABC)]),
        ],
    ),
    // A cut at each end leaves its outer side joined to the end.
    (
        &[&FEEDER],
        &[Order::Cut(0x93, 0x51, 0), Order::Cut(0x94, 0x51, 100_000)],
        &[(0xE1, &[(0x51, ABC), (0x93, ABC), (0xB1, ABC), (0xE1, ABC)])],
    ),
    // A jumper in two phases from the far side of a cut to a second source.
    (
        &[&FEEDER, &SECOND_SOURCE],
        &[
            Order::Cut(0x92, 0x51, 60_000),
            Order::Jumper(0x96, CUT_TWO, A6, AB),
        ],
        &[(
            0xE2,
            &[(0x51, AB), (0x92, AB), (0x96, AB), (0xC1, AB), (0xE2, ABC)],
        )],
    ),
    // An open breaker ends a trace.
    (
        &[&FEEDER],
        &[Order::Open(0xB1)],
        &[(0xE1, &[(0xB1, ABC), (0xE1, ABC)])],
    ),
];

/// The overlay after orders that are all accepted.
fn after(alloc: Global, index: &Index, orders: &[Order]) -> Result<Overlay, Fail> {
    let mut overlay = Overlay::empty(alloc);
    for order in orders {
        match judged(alloc, index, &overlay, *order)? {
            Ok(new) => overlay = new,
            Err(_) => return Err(Fail::new("an order is refused")),
        }
    }
    Ok(overlay)
}

fn graph_of<L: Ledger>(
    alloc: Global,
    index: &Index,
    overlay: &Overlay,
    blank: Blank,
) -> Result<Graph, NoMemory>
    requires name { blank.name ≡ L.name }
    requires parts { blank.parts ≡ L.parts }
    requires some { blank.parts ≡ 1 }
    requires stands { Stands index.now overlay.now }
{
    rebuild(alloc, index, overlay, &mut Steps::<L>::of(blank))
}

/// The graph of the network that orders leave.
fn live_graph(alloc: Global, groups: &[&[Row]], orders: &[Order]) -> Result<Graph, Fail> {
    let index = index_of(alloc, groups)?;
    let overlay = after(alloc, &index, orders)?;
    if !overlay_stands(&index, &overlay) {
        return Err(Fail::new("the overlay does not stand"));
    }
    Ok(graph_of::<Brand>(alloc, &index, &overlay, Blank::new(1))?)
}

/// Whether a trace has just these rows.
fn is_trace(alloc: Global, graph: &Graph, trace: Trace) -> Result<bool, NoMemory> {
    let (source, rows) = trace;
    let mut tracer = Tracer::reserve(alloc, graph)?;
    if tracer.trace(graph, Id::of(source), ABC).is_err() || tracer.count() != rows.len() {
        return Ok(false);
    }
    Ok(
        rows.iter().enumerate().all(|(index, (id, phases))| {
            index < tracer.count() && tracer.reached(index) == (Id::of(*id), *phases)
        }),
    )
}

#[test]
fn traces_after_orders(rt: HostRuntime) -> Result<(), Fail> {
    for (number, (groups, orders, traces)) in CASES.iter().enumerate() {
        let graph = live_graph(rt.alloc(), groups, orders)?;
        for trace in *traces {
            assert!(rt; is_trace(rt.alloc(), &graph, *trace)?, "case {number}");
        }
    }
    Ok(())
}

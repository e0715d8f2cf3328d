//! Switching orders over a small network: which are refused and why, and what the others make of the overlay.

mod limits;
mod scripts;
mod traces;

use crate::model::{CONSUMER, NODE, Row, SEGMENT, Said, TERMINAL, set_of};
use cim_profile::first_break;
use cim_records::Index;
use cim_words::{Id, KnownProp, Length, PhaseSet};
use room_words::{Act, ActRefusal, Anchor, Overlay, TempItem};
use std::alloc::Global;
use std::test::Fail;
use switching::{ActDenied, judge};
use temporary::overlay_stands;

const SOURCE: Said = Said::Name("http://iec.ch/TC57/CIM100#EnergySource");

const BREAKER: Said = Said::Name("http://iec.ch/TC57/CIM100#Breaker");

/// The nodes a1, a2 and a3, the source e1, the closed breaker b1, the segment 51 of 100 m and the consumer c1, one behind another.
pub(crate) const FEEDER: [Row; 29] = [
    (0xA1, KnownProp::RDF_TYPE, NODE),
    (0xA2, KnownProp::RDF_TYPE, NODE),
    (0xA3, KnownProp::RDF_TYPE, NODE),
    (0xE1, KnownProp::RDF_TYPE, SOURCE),
    (0x71, KnownProp::RDF_TYPE, TERMINAL),
    (0x71, KnownProp::CONDUCTING_EQUIPMENT, Said::Id(0xE1)),
    (0x71, KnownProp::CONNECTIVITY_NODE, Said::Id(0xA1)),
    (0xB1, KnownProp::RDF_TYPE, BREAKER),
    (0xB1, KnownProp::NORMAL_OPEN, Said::Text("false")),
    (0x72, KnownProp::RDF_TYPE, TERMINAL),
    (0x72, KnownProp::CONDUCTING_EQUIPMENT, Said::Id(0xB1)),
    (0x72, KnownProp::CONNECTIVITY_NODE, Said::Id(0xA1)),
    (0x73, KnownProp::RDF_TYPE, TERMINAL),
    (0x73, KnownProp::CONDUCTING_EQUIPMENT, Said::Id(0xB1)),
    (0x73, KnownProp::CONNECTIVITY_NODE, Said::Id(0xA2)),
    (0x51, KnownProp::RDF_TYPE, SEGMENT),
    (0x51, KnownProp::CONDUCTOR_LENGTH, Said::Text("100")),
    (0x74, KnownProp::RDF_TYPE, TERMINAL),
    (0x74, KnownProp::CONDUCTING_EQUIPMENT, Said::Id(0x51)),
    (0x74, KnownProp::CONNECTIVITY_NODE, Said::Id(0xA2)),
    (0x74, KnownProp::SEQUENCE_NUMBER, Said::Text("1")),
    (0x75, KnownProp::RDF_TYPE, TERMINAL),
    (0x75, KnownProp::CONDUCTING_EQUIPMENT, Said::Id(0x51)),
    (0x75, KnownProp::CONNECTIVITY_NODE, Said::Id(0xA3)),
    (0x75, KnownProp::SEQUENCE_NUMBER, Said::Text("2")),
    (0xC1, KnownProp::RDF_TYPE, CONSUMER),
    (0x76, KnownProp::RDF_TYPE, TERMINAL),
    (0x76, KnownProp::CONDUCTING_EQUIPMENT, Said::Id(0xC1)),
    (0x76, KnownProp::CONNECTIVITY_NODE, Said::Id(0xA3)),
];

/// A second source e2 at a node a6.
pub(crate) const SECOND_SOURCE: [Row; 5] = [
    (0xA6, KnownProp::RDF_TYPE, NODE),
    (0xE2, KnownProp::RDF_TYPE, SOURCE),
    (0x7C, KnownProp::RDF_TYPE, TERMINAL),
    (0x7C, KnownProp::CONDUCTING_EQUIPMENT, Said::Id(0xE2)),
    (0x7C, KnownProp::CONNECTIVITY_NODE, Said::Id(0xA6)),
];

/// The breaker b2 between a1 and a3, which is normally open, and the breaker b3 between a2 and a3.
pub(crate) const MORE_BREAKERS: [Row; 15] = [
    (0xB2, KnownProp::RDF_TYPE, BREAKER),
    (0xB2, KnownProp::NORMAL_OPEN, Said::Text("true")),
    (0x77, KnownProp::RDF_TYPE, TERMINAL),
    (0x77, KnownProp::CONDUCTING_EQUIPMENT, Said::Id(0xB2)),
    (0x77, KnownProp::CONNECTIVITY_NODE, Said::Id(0xA1)),
    (0x78, KnownProp::RDF_TYPE, TERMINAL),
    (0x78, KnownProp::CONDUCTING_EQUIPMENT, Said::Id(0xB2)),
    (0x78, KnownProp::CONNECTIVITY_NODE, Said::Id(0xA3)),
    (0xB3, KnownProp::RDF_TYPE, BREAKER),
    (0x79, KnownProp::RDF_TYPE, TERMINAL),
    (0x79, KnownProp::CONDUCTING_EQUIPMENT, Said::Id(0xB3)),
    (0x79, KnownProp::CONNECTIVITY_NODE, Said::Id(0xA2)),
    (0x7A, KnownProp::RDF_TYPE, TERMINAL),
    (0x7A, KnownProp::CONDUCTING_EQUIPMENT, Said::Id(0xB3)),
    (0x7A, KnownProp::CONNECTIVITY_NODE, Said::Id(0xA3)),
];

pub(crate) const AB: PhaseSet = PhaseSet {
    c: false,
    ..PhaseSet::ABC
};

pub(crate) const A: PhaseSet = PhaseSet { b: false, ..AB };

const NONE: PhaseSet = PhaseSet::EMPTY;

const FF: Id = Id { number: 0xFF };

pub(crate) const S51: Id = Id { number: 0x51 };

pub(crate) const B1: Id = Id { number: 0xB1 };

pub(crate) const A1: Anchor = Anchor::Node(Id { number: 0xA1 });

pub(crate) const A2: Anchor = Anchor::Node(Id { number: 0xA2 });

pub(crate) const A3: Anchor = Anchor::Node(Id { number: 0xA3 });

pub(crate) const A6: Anchor = Anchor::Node(Id { number: 0xA6 });

/// An act in short: identifiers by their numbers, lengths in millimetres.
#[derive(Clone, Copy, Drop)]
pub(crate) enum Order {
    Open(u128),
    Close(u128),
    Release(u128),
    Remove(u128),
    Cut(u128, u128, u64),
    Clamp(u128, u128, u64),
    Jumper(u128, Anchor, Anchor, PhaseSet),
    Ground(u128, Anchor, PhaseSet),
}

pub(crate) const CUT_ONE: Anchor = Anchor::Side(Id { number: 0x92 }, 1);

pub(crate) const CUT_TWO: Anchor = Anchor::Side(Id { number: 0x92 }, 2);

pub(crate) const JUMPER_ONE: Anchor = Anchor::Side(Id { number: 0x96 }, 1);

pub(crate) const CUT_92: TempItem = TempItem::Cut {
    id: Id { number: 0x92 },
    segment: S51,
    length: Length { mm: 60_000 },
    is_open: true,
};

pub(crate) fn act(order: Order) -> Act {
    match order {
        Order::Open(id) => Act::OpenSwitch(Id::of(id)),
        Order::Close(id) => Act::CloseSwitch(Id::of(id)),
        Order::Release(id) => Act::Release(Id::of(id)),
        Order::Remove(id) => Act::Remove(Id::of(id)),
        Order::Cut(id, segment, mm) => Act::Cut {
            new_id: Id::of(id),
            segment: Id::of(segment),
            length: Length { mm },
        },
        Order::Clamp(id, segment, mm) => Act::Clamp {
            new_id: Id::of(id),
            segment: Id::of(segment),
            length: Length { mm },
        },
        Order::Jumper(id, first, second, phases) => Act::Jumper {
            new_id: Id::of(id),
            first,
            second,
            phases,
        },
        Order::Ground(id, at, phases) => Act::Ground {
            new_id: Id::of(id),
            at,
            phases,
        },
    }
}

/// The index of the network of some groups of rows, which has no fault.
pub(crate) fn index_of(alloc: Global, groups: &[&[Row]]) -> Result<Index, Fail> {
    let set = set_of(alloc, groups)?;
    match first_break(alloc, &set)? {
        Some(found) => Err(Fail::new(found.rule)),
        None => Ok(Index::build(alloc, &set)?),
    }
}

/// What an act makes of an overlay, or why it is refused.
pub(crate) fn judged(
    alloc: Global,
    index: &Index,
    overlay: &Overlay,
    order: Order,
) -> Result<Result<Overlay, ActRefusal>, Fail> {
    if !overlay_stands(index, overlay) {
        return Err(Fail::new("the overlay does not stand"));
    }
    match judge(alloc, index, overlay, &act(order)) {
        Ok(new) => Ok(Ok(new)),
        Err(ActDenied::Refusal(why)) => Ok(Err(why)),
        Err(ActDenied::NoMemory) => Err(Fail::new("no memory")),
    }
}

/// Why an act is refused, if it is.
pub(crate) fn refused(
    alloc: Global,
    index: &Index,
    overlay: &Overlay,
    order: Order,
) -> Result<Option<ActRefusal>, Fail> {
    Ok(judged(alloc, index, overlay, order)?.err())
}

/// Refusals over the feeder and more breakers, where nothing is temporary.
const REFUSALS: [(Order, ActRefusal); 23] = [
    (Order::Open(0xFF), ActRefusal::Unknown(FF)),
    (Order::Cut(0x51, 0xFF, 0), ActRefusal::Unknown(FF)),
    (Order::Cut(0x51, 0x51, 0), ActRefusal::Taken(S51)),
    (
        Order::Ground(0xA1, A2, A),
        ActRefusal::Taken(Id { number: 0xA1 }),
    ),
    (
        Order::Clamp(0x71, 0x51, 0),
        ActRefusal::Taken(Id { number: 0x71 }),
    ),
    (Order::Cut(0x92, 0xB1, 0), ActRefusal::Kind(B1)),
    (Order::Open(0x51), ActRefusal::Kind(S51)),
    (Order::Release(0xC1), ActRefusal::Kind(Id { number: 0xC1 })),
    (Order::Remove(0xB1), ActRefusal::Permanent(B1)),
    (Order::Close(0xB1), ActRefusal::Already),
    (Order::Open(0xB2), ActRefusal::Already),
    (Order::Release(0xB1), ActRefusal::NotHeld),
    (Order::Cut(0x92, 0x51, 100_001), ActRefusal::Length),
    (
        Order::Clamp(0x92, 0x51, 1_000_000_000_001),
        ActRefusal::Length,
    ),
    (
        Order::Ground(0x97, Anchor::Node(S51), A),
        ActRefusal::NoAnchor(1),
    ),
    (Order::Ground(0x97, A6, A), ActRefusal::NoAnchor(1)),
    (Order::Jumper(0x96, A1, A6, A), ActRefusal::NoAnchor(2)),
    (Order::Jumper(0x96, A6, A6, NONE), ActRefusal::NoAnchor(1)),
    (
        Order::Jumper(0x96, JUMPER_ONE, A2, A),
        ActRefusal::NoAnchor(1),
    ),
    (Order::Jumper(0x96, A1, A1, AB), ActRefusal::SameAnchor),
    (Order::Jumper(0x96, A1, A1, NONE), ActRefusal::SameAnchor),
    (Order::Jumper(0x96, A1, A2, NONE), ActRefusal::Phases),
    (Order::Ground(0x97, A1, NONE), ActRefusal::Phases),
];

#[test]
fn refuses_over_an_untouched_network(rt: HostRuntime) -> Result<(), Fail> {
    let alloc = rt.alloc();
    let index = index_of(alloc, &[&FEEDER, &MORE_BREAKERS])?;
    let overlay = Overlay::empty(alloc);
    for (number, (order, why)) in REFUSALS.iter().enumerate() {
        let refused = refused(alloc, &index, &overlay, *order)?;
        assert!(rt; refused == Some(*why), "refusal {number}");
    }
    Ok(())
}

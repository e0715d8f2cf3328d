//! A small network with a clamp, an open cut, a jumper and a ground: its graph, entry by entry, and its traces.

ghost use Rattle.std.specs.Prelude.{◌≡◌};
ghost use Rattle.cim_model.specs.Stands.{Stands};

use crate::model::{CONSUMER, NODE, Row, SEGMENT, Said, TERMINAL, set_of};
use crate::traces::{ABC, expect_rows};
use cim_profile::first_break;
use cim_records::Index;
use cim_words::{Class, Id, KnownProp, Length, Listed, NoMemory, PhaseSet};
use feeder_trace::Tracer;
use graph_pages::{Graph, Pass, Sections, Spoke, SpokePhases};
use room_words::{Anchor, Overlay, TempItem, Term, TermKey};
use std::alloc::Global;
use std::marker::Brand;
use std::process::Abort;
use std::sync::ledger::{Blank, Ledger};
use std::test::Fail;
use step_count::Steps;
use temporary::overlay_stands;
use topology::rebuild;

const SOURCE: Said = Said::Name("http://iec.ch/TC57/CIM100#EnergySource");

const BREAKER: Said = Said::Name("http://iec.ch/TC57/CIM100#Breaker");

/// The nodes a1, a2, a3 and a6, the sources e1 at a1 and e2 at a6, and the breaker b1 between a1 and a2.
const SOURCES: [Row; 19] = [
    (0xA1, KnownProp::RDF_TYPE, NODE),
    (0xA2, KnownProp::RDF_TYPE, NODE),
    (0xA3, KnownProp::RDF_TYPE, NODE),
    (0xA6, KnownProp::RDF_TYPE, NODE),
    (0xE1, KnownProp::RDF_TYPE, SOURCE),
    (0x71, KnownProp::RDF_TYPE, TERMINAL),
    (0x71, KnownProp::CONDUCTING_EQUIPMENT, Said::Id(0xE1)),
    (0x71, KnownProp::CONNECTIVITY_NODE, Said::Id(0xA1)),
    (0xE2, KnownProp::RDF_TYPE, SOURCE),
    (0x76, KnownProp::RDF_TYPE, TERMINAL),
    (0x76, KnownProp::CONDUCTING_EQUIPMENT, Said::Id(0xE2)),
    (0x76, KnownProp::CONNECTIVITY_NODE, Said::Id(0xA6)),
    (0xB1, KnownProp::RDF_TYPE, BREAKER),
    (0x72, KnownProp::RDF_TYPE, TERMINAL),
    (0x72, KnownProp::CONDUCTING_EQUIPMENT, Said::Id(0xB1)),
    (0x72, KnownProp::CONNECTIVITY_NODE, Said::Id(0xA1)),
    (0x73, KnownProp::RDF_TYPE, TERMINAL),
    (0x73, KnownProp::CONDUCTING_EQUIPMENT, Said::Id(0xB1)),
    (0x73, KnownProp::CONNECTIVITY_NODE, Said::Id(0xA2)),
];

/// The segment 51 of 100 m from a2 to a3, and the consumer c1 at a3.
const LOADS: [Row; 14] = [
    (0x51, KnownProp::RDF_TYPE, SEGMENT),
    (0x51, KnownProp::CONDUCTOR_LENGTH, Said::Text("100")),
    (0x74, KnownProp::RDF_TYPE, TERMINAL),
    (0x74, KnownProp::CONDUCTING_EQUIPMENT, Said::Id(0x51)),
    (0x74, KnownProp::CONNECTIVITY_NODE, Said::Id(0xA2)),
    (0x74, KnownProp::SEQUENCE_NUMBER, Said::Text("1")),
    (0x75, KnownProp::RDF_TYPE, TERMINAL),
    (0x75, KnownProp::CONDUCTING_EQUIPMENT, Said::Id(0x51)),
    (0x75, KnownProp::CONNECTIVITY_NODE, Said::Id(0xA3)),
    (0x75, KnownProp::SEQUENCE_NUMBER, Said::Text("2")),
    (0xC1, KnownProp::RDF_TYPE, CONSUMER),
    (0x7C, KnownProp::RDF_TYPE, TERMINAL),
    (0x7C, KnownProp::CONDUCTING_EQUIPMENT, Said::Id(0xC1)),
    (0x7C, KnownProp::CONNECTIVITY_NODE, Said::Id(0xA3)),
];

const A1: Anchor = Anchor::Node(Id { number: 0xA1 });

const A2: Anchor = Anchor::Node(Id { number: 0xA2 });

const A3: Anchor = Anchor::Node(Id { number: 0xA3 });

const A6: Anchor = Anchor::Node(Id { number: 0xA6 });

const SEGMENT_ID: Id = Id { number: 0x51 };

const CLAMP_SIDE: Anchor = Anchor::Side(Id { number: 0x91 }, 1);

const CUT_ONE: Anchor = Anchor::Side(Id { number: 0x92 }, 1);

const CUT_TWO: Anchor = Anchor::Side(Id { number: 0x92 }, 2);

const ONE: TermKey = TermKey::Side(1);

const TWO: TermKey = TermKey::Side(2);

const AB: PhaseSet = PhaseSet { c: false, ..ABC };

const ALL: SpokePhases = SpokePhases::Own(ABC);

const SOME: SpokePhases = SpokePhases::Own(AB);

/// A terminal of a star: its key, its place and its phases.
type Leg = (TermKey, Anchor, SpokePhases);

/// A star: its identifier and class, what it stands on, its terminals, and how current passes.
type StarRow = (u128, Class, Option<Id>, &'static [Leg], &'static str);

const STARS: [StarRow; 8] = [
    (
        0x51,
        Class::ACLineSegment,
        None,
        &[
            (TermKey::Real(Id { number: 0x74 }), A2, ALL),
            (TermKey::Real(Id { number: 0x75 }), A3, ALL),
        ],
        "line",
    ),
    (
        0x91,
        Class::Clamp,
        Some(SEGMENT_ID),
        &[(ONE, CLAMP_SIDE, SpokePhases::OfSegment)],
        "nothing",
    ),
    (
        0x92,
        Class::Cut,
        Some(SEGMENT_ID),
        &[
            (ONE, CUT_ONE, SpokePhases::OfSegment),
            (TWO, CUT_TWO, SpokePhases::OfSegment),
        ],
        "open",
    ),
    (
        0x96,
        Class::Jumper,
        None,
        &[(ONE, CUT_TWO, SOME), (TWO, A6, SOME)],
        "closed",
    ),
    (0x97, Class::Ground, None, &[(ONE, A3, ALL)], "nothing"),
    (
        0xB1,
        Class::Breaker,
        None,
        &[
            (TermKey::Real(Id { number: 0x72 }), A1, ALL),
            (TermKey::Real(Id { number: 0x73 }), A2, ALL),
        ],
        "closed",
    ),
    (
        0xC1,
        Class::EnergyConsumer,
        None,
        &[(TermKey::Real(Id { number: 0x7C }), A3, ALL)],
        "nothing",
    ),
    (
        0xE1,
        Class::EnergySource,
        None,
        &[(TermKey::Real(Id { number: 0x71 }), A1, ALL)],
        "nothing",
    ),
];

/// A terminal by its owner and key.
type TermRow = (u128, TermKey);

/// A place and its members.
type PlaceRow = (Anchor, &'static [TermRow]);

const PLACES: [PlaceRow; 5] = [
    (
        A2,
        &[
            (0x51, TermKey::Real(Id { number: 0x74 })),
            (0xB1, TermKey::Real(Id { number: 0x73 })),
        ],
    ),
    (
        A6,
        &[(0x96, TWO), (0xE2, TermKey::Real(Id { number: 0x76 }))],
    ),
    (CLAMP_SIDE, &[(0x91, ONE)]),
    (CUT_ONE, &[(0x92, ONE)]),
    (CUT_TWO, &[(0x92, TWO), (0x96, ONE)]),
];

const SECTIONS: [&[TermRow]; 2] = [
    &[
        (0x51, TermKey::Real(Id { number: 0x74 })),
        (0x91, ONE),
        (0x92, ONE),
    ],
    &[(0x92, TWO), (0x51, TermKey::Real(Id { number: 0x75 }))],
];

/// The index of the network, which has no fault.
fn index_of(alloc: Global) -> Result<Index, Fail> {
    let set = set_of(alloc, &[&SOURCES, &LOADS])?;
    match first_break(alloc, &set)? {
        Some(found) => Err(Fail::new(found.rule)),
        None => Ok(Index::build(alloc, &set)?),
    }
}

/// A clamp 91 and an open cut 92 on the segment, a jumper 96 from the cut's side 2 to a6 in A and B, and a ground 97 at a3.
fn items_placed(alloc: Global) -> Result<Overlay, NoMemory> {
    let clamp = TempItem::Clamp {
        id: Id::of(0x91),
        segment: SEGMENT_ID,
        length: Length { mm: 40_000 },
    };
    let cut = TempItem::Cut {
        id: Id::of(0x92),
        segment: SEGMENT_ID,
        length: Length { mm: 60_000 },
        is_open: true,
    };
    let jumper = TempItem::Jumper {
        id: Id::of(0x96),
        first: CUT_TWO,
        second: A6,
        phases: AB,
        is_open: false,
    };
    let ground = TempItem::Ground {
        id: Id::of(0x97),
        at: A3,
        phases: ABC,
    };
    Ok(Overlay {
        items: Listed::of(vec![in alloc; clamp, cut, jumper, ground]?),
        positions: Listed::empty(alloc),
    })
}

/// The graph of the network with its items.
fn graph_of<L: Ledger>(
    alloc: Global,
    index: &Index,
    overlay: &Overlay,
    blank: Blank,
) -> Result<Graph, NoMemory>
    requires name { blank.name ≡ L.name }
    requires parts { blank.parts ≡ L.parts }
    requires some { blank.parts ≡ 1 }
    requires stands { Stands index.now overlay.now }
{
    let mut steps = Steps::<L>::of(blank);
    rebuild(alloc, index, overlay, &mut steps)
}

fn live_graph(rt: &impl Abort, alloc: Global) -> Result<Graph, Fail> {
    let index = index_of(alloc)?;
    let overlay = items_placed(alloc)?;
    assert!(rt; overlay_stands(&index, &overlay));
    Ok(graph_of::<Brand>(alloc, &index, &overlay, Blank::new(1))?)
}

fn is_leg(owner: u128, spoke: &Spoke, leg: Leg) -> bool {
    let (key, place, phases) = leg;
    is_term(spoke.term, (owner, key)) && spoke.at == Some(place) && spoke.phases == phases
}

fn is_term(term: Term, want: TermRow) -> bool {
    let (owner, key) = want;
    term.owner.number == owner && term.key == key
}

fn are_legs(owner: u128, spokes: &[Spoke], legs: &[Leg]) -> bool {
    spokes.len() == legs.len()
        && spokes
            .iter()
            .zip(legs)
            .all(|(spoke, leg)| is_leg(owner, spoke, *leg))
}

fn are_terms(terms: &[Term], want: &[TermRow]) -> bool {
    terms.len() == want.len()
        && terms
            .iter()
            .zip(want)
            .all(|(term, row)| is_term(*term, *row))
}

/// How current passes, in a word.
fn way(pass: &Pass) -> &'static str {
    match *pass {
        Pass::Nothing => "nothing",
        Pass::Same => "same",
        Pass::Switch { is_open: true } => "open",
        Pass::Switch { is_open: false } => "closed",
        Pass::Transformer => "transformer",
        Pass::Line { .. } => "line",
    }
}

/// Whether a graph has a star as a row says.
fn has_star(graph: &Graph, row: StarRow) -> bool {
    let (id, class, on, legs, pass) = row;
    match graph.star(Id::of(id)) {
        Some(star) => {
            star.class == class
                && star.on == on
                && are_legs(id, star.spokes.as_slice(), legs)
                && way(&star.pass) == pass
        }
        None => false,
    }
}

/// Whether a graph has the members of a place as a row says.
fn has_members(graph: &Graph, row: PlaceRow) -> bool {
    let (place, terms) = row;
    match graph.members(place) {
        Some(members) => are_terms(members.as_slice(), terms),
        None => false,
    }
}

fn are_sections(sections: &Sections, want: &[&[TermRow]]) -> bool {
    sections.len() == want.len()
        && sections
            .as_slice()
            .iter()
            .zip(want)
            .all(|(section, terms)| are_terms(section.as_slice(), terms))
}

/// Whether the segment's line has these phases and sections.
fn has_line(graph: &Graph) -> bool {
    match graph.star(SEGMENT_ID) {
        Some(star) => match &star.pass {
            Pass::Line { phases, sections } => {
                *phases == ABC && are_sections(sections, &SECTIONS)
            }
            _ => false,
        },
        None => false,
    }
}

#[test]
fn rebuilds_a_network_with_items(rt: HostRuntime) -> Result<(), Fail> {
    let graph = live_graph(&rt, rt.alloc())?;
    for row in STARS {
        assert!(rt; has_star(&graph, row), "star {}", row.0);
    }
    for row in PLACES {
        assert!(rt; has_members(&graph, row));
    }
    assert!(rt; has_line(&graph));
    let stars = graph
        .stars()
        .fold(0_usize, |count, _| count.saturating_add(1));
    assert!(rt; stars == 9);
    Ok(())
}

#[test]
fn traces_a_network_with_items(rt: HostRuntime) -> Result<(), Fail> {
    let graph = live_graph(&rt, rt.alloc())?;
    let mut tracer = Tracer::reserve(rt.alloc(), &graph)?;
    let before = [
        (0x51, ABC),
        (0x91, ABC),
        (0x92, ABC),
        (0xB1, ABC),
        (0xE1, ABC),
    ];
    expect_rows(&rt, &mut tracer, &graph, 0xE1, ABC, &before);
    let behind = [
        (0x51, ABC),
        (0x92, ABC),
        (0x96, AB),
        (0x97, ABC),
        (0xC1, ABC),
        (0xE2, AB),
    ];
    expect_rows(&rt, &mut tracer, &graph, 0xC1, ABC, &behind);
    let over = [
        (0x51, AB),
        (0x92, AB),
        (0x96, AB),
        (0x97, AB),
        (0xC1, AB),
        (0xE2, ABC),
    ];
    expect_rows(&rt, &mut tracer, &graph, 0xE2, ABC, &over);
    Ok(())
}

//! A small network, and what is looked up in it.

use crate::model::{
    CLAMP, CONSUMER, CUT, HOUSE, KIND_A, KIND_B, NODE, Row, SEGMENT, SEGMENT_PHASE, SWITCH_PHASE,
    Said, TERMINAL, set_of,
};
use cim_profile::first_break;
use cim_records::Index;
use cim_words::{Class, Id, KnownProp, Length, PhaseSet};
use segment_cuts::Mark;
use std::alloc::Global;
use std::test::Fail;

/// A segment 10 whose terminal 2 comes first, with phase objects for A and C and a cut 14; a segment 11 without numbers.
const SEGMENTS: [Row; 29] = [
    (10, KnownProp::RDF_TYPE, SEGMENT),
    (10, KnownProp::CONDUCTOR_LENGTH, Said::Text("9")),
    (1, KnownProp::RDF_TYPE, TERMINAL),
    (1, KnownProp::CONDUCTING_EQUIPMENT, Said::Id(10)),
    (1, KnownProp::CONNECTIVITY_NODE, Said::Id(20)),
    (1, KnownProp::SEQUENCE_NUMBER, Said::Text("2")),
    (2, KnownProp::RDF_TYPE, TERMINAL),
    (2, KnownProp::CONDUCTING_EQUIPMENT, Said::Id(10)),
    (2, KnownProp::CONNECTIVITY_NODE, Said::Id(21)),
    (2, KnownProp::SEQUENCE_NUMBER, Said::Text("1")),
    (40, KnownProp::RDF_TYPE, SEGMENT_PHASE),
    (40, KnownProp::SEGMENT_OF_PHASE, Said::Id(10)),
    (40, KnownProp::SEGMENT_PHASE, KIND_A),
    (41, KnownProp::RDF_TYPE, SEGMENT_PHASE),
    (41, KnownProp::SEGMENT_OF_PHASE, Said::Id(10)),
    (
        41,
        KnownProp::SEGMENT_PHASE,
        Said::Name("http://iec.ch/TC57/CIM100#SinglePhaseKind.C"),
    ),
    (11, KnownProp::RDF_TYPE, SEGMENT),
    (3, KnownProp::RDF_TYPE, TERMINAL),
    (3, KnownProp::CONDUCTING_EQUIPMENT, Said::Id(11)),
    (3, KnownProp::CONNECTIVITY_NODE, Said::Id(20)),
    (
        3,
        KnownProp::PHASES,
        Said::Name("http://iec.ch/TC57/CIM100#PhaseCode.BN"),
    ),
    (4, KnownProp::RDF_TYPE, TERMINAL),
    (4, KnownProp::CONDUCTING_EQUIPMENT, Said::Id(11)),
    (14, KnownProp::RDF_TYPE, CUT),
    (14, KnownProp::CUT_SEGMENT, Said::Id(10)),
    (30, KnownProp::RDF_TYPE, TERMINAL),
    (30, KnownProp::CONDUCTING_EQUIPMENT, Said::Id(14)),
    (30, KnownProp::SEQUENCE_NUMBER, Said::Text("2")),
    (31, KnownProp::RDF_TYPE, TERMINAL),
];

/// The rest of the cut, a breaker 12 that is closed but normally open, with a phase object for A, and a fuse 13 that is normally open.
const SWITCHES: [Row; 23] = [
    (31, KnownProp::CONDUCTING_EQUIPMENT, Said::Id(14)),
    (31, KnownProp::SEQUENCE_NUMBER, Said::Text("1")),
    (
        12,
        KnownProp::RDF_TYPE,
        Said::Name("http://iec.ch/TC57/CIM100#Breaker"),
    ),
    (12, KnownProp::NORMAL_OPEN, Said::Text("true")),
    (12, KnownProp::SWITCH_OPEN, Said::Text("false")),
    (5, KnownProp::RDF_TYPE, TERMINAL),
    (5, KnownProp::CONDUCTING_EQUIPMENT, Said::Id(12)),
    (5, KnownProp::SEQUENCE_NUMBER, Said::Text("2")),
    (6, KnownProp::RDF_TYPE, TERMINAL),
    (6, KnownProp::CONDUCTING_EQUIPMENT, Said::Id(12)),
    (6, KnownProp::SEQUENCE_NUMBER, Said::Text("1")),
    (43, KnownProp::RDF_TYPE, SWITCH_PHASE),
    (43, KnownProp::SWITCH_OF_PHASE, Said::Id(12)),
    (43, KnownProp::PHASE_SIDE_1, KIND_A),
    (
        13,
        KnownProp::RDF_TYPE,
        Said::Name("http://iec.ch/TC57/CIM100#Fuse"),
    ),
    (13, KnownProp::NORMAL_OPEN, Said::Text("true")),
    (7, KnownProp::RDF_TYPE, TERMINAL),
    (7, KnownProp::CONDUCTING_EQUIPMENT, Said::Id(13)),
    (8, KnownProp::RDF_TYPE, TERMINAL),
    (8, KnownProp::CONDUCTING_EQUIPMENT, Said::Id(13)),
    (20, KnownProp::RDF_TYPE, NODE),
    (21, KnownProp::RDF_TYPE, NODE),
    (
        15,
        KnownProp::RDF_TYPE,
        Said::Name("http://iec.ch/TC57/CIM100#PowerTransformer"),
    ),
];

/// The terminals of the transformer 15, a consumer 16 with a phase object for B, a house 17 with a terminal, and 50 of two unknown types, whose other properties count for nothing.
const OTHERS: [Row; 19] = [
    (33, KnownProp::RDF_TYPE, TERMINAL),
    (33, KnownProp::CONDUCTING_EQUIPMENT, Said::Id(15)),
    (32, KnownProp::RDF_TYPE, TERMINAL),
    (32, KnownProp::CONDUCTING_EQUIPMENT, Said::Id(15)),
    (16, KnownProp::RDF_TYPE, CONSUMER),
    (34, KnownProp::RDF_TYPE, TERMINAL),
    (34, KnownProp::CONDUCTING_EQUIPMENT, Said::Id(16)),
    (34, KnownProp::CONNECTIVITY_NODE, Said::Id(21)),
    (
        42,
        KnownProp::RDF_TYPE,
        Said::Name("http://iec.ch/TC57/CIM100#EnergyConsumerPhase"),
    ),
    (42, KnownProp::CONSUMER_OF_PHASE, Said::Id(16)),
    (42, KnownProp::CONSUMER_PHASE, KIND_B),
    (17, KnownProp::RDF_TYPE, HOUSE),
    (35, KnownProp::RDF_TYPE, TERMINAL),
    (35, KnownProp::CONDUCTING_EQUIPMENT, Said::Id(17)),
    (50, KnownProp::RDF_TYPE, HOUSE),
    (
        50,
        KnownProp::RDF_TYPE,
        Said::Name("http://example.org/Shed"),
    ),
    (50, KnownProp::CONDUCTING_EQUIPMENT, Said::Id(10)),
    (50, KnownProp::SWITCH_OPEN, Said::Text("true")),
    (50, KnownProp::CUT_SEGMENT, Said::Id(10)),
];

/// More on segment 10: a cut 18, which also says what counts on clamps alone, and a clamp 19 nearer to terminal 1.
const MARKS: [Row; 16] = [
    (18, KnownProp::RDF_TYPE, CUT),
    (18, KnownProp::CLAMP_SEGMENT, Said::Id(11)),
    (18, KnownProp::CLAMP_LENGTH, Said::Text("1")),
    (18, KnownProp::CUT_SEGMENT, Said::Id(10)),
    (18, KnownProp::CUT_LENGTH, Said::Text("5")),
    (36, KnownProp::RDF_TYPE, TERMINAL),
    (36, KnownProp::CONDUCTING_EQUIPMENT, Said::Id(18)),
    (36, KnownProp::SEQUENCE_NUMBER, Said::Text("1")),
    (37, KnownProp::RDF_TYPE, TERMINAL),
    (37, KnownProp::CONDUCTING_EQUIPMENT, Said::Id(18)),
    (37, KnownProp::SEQUENCE_NUMBER, Said::Text("2")),
    (19, KnownProp::RDF_TYPE, CLAMP),
    (19, KnownProp::CLAMP_SEGMENT, Said::Id(10)),
    (19, KnownProp::CLAMP_LENGTH, Said::Text("2.5")),
    (38, KnownProp::RDF_TYPE, TERMINAL),
    (38, KnownProp::CONDUCTING_EQUIPMENT, Said::Id(19)),
];

/// The index of the network, which has no fault.
fn network(alloc: Global) -> Result<Index, Fail> {
    let set = set_of(alloc, &[&SEGMENTS, &SWITCHES, &OTHERS, &MARKS])?;
    match first_break(alloc, &set)? {
        Some(found) => Err(Fail::new(found.rule)),
        None => Ok(Index::build(alloc, &set)?),
    }
}

fn are(ids: &[Id], want: &[u128]) -> bool {
    ids.len() == want.len()
        && ids
            .iter()
            .zip(want)
            .all(|(id, number)| id.number == *number)
}

fn is(id: Option<Id>, want: u128) -> bool {
    id == Some(Id::of(want))
}

fn phases(a: bool, b: bool, c: bool, n: bool) -> PhaseSet {
    PhaseSet {
        a,
        b,
        c,
        n,
        s1: false,
        s2: false,
    }
}

#[test]
fn lists(rt: HostRuntime) -> Result<(), Fail> {
    let index = network(rt.alloc())?;
    assert!(rt; are(index.equipment(), &[10, 11, 12, 13, 14, 15, 16, 17, 18, 19]));
    assert!(rt; are(index.nodes(), &[20, 21]));
    let terminals: [(u128, &[u128]); 7] = [
        (10, &[2, 1]),
        (11, &[3, 4]),
        (12, &[5, 6]),
        (14, &[31, 30]),
        (15, &[32, 33]),
        (17, &[35]),
        (20, &[]),
    ];
    for (equipment, want) in terminals {
        assert!(rt;
            are(index.terminals_of(Id::of(equipment)), want),
            "of {equipment}"
        );
    }
    assert!(rt; are(index.at_node(Id::of(20)), &[1, 3]));
    assert!(rt; are(index.at_node(Id::of(21)), &[2, 34]));
    Ok(())
}

#[test]
fn phases_of_terminals(rt: HostRuntime) -> Result<(), Fail> {
    let index = network(rt.alloc())?;
    let table = [
        (1, phases(true, false, true, false)),
        (3, phases(false, true, false, true)),
        (4, PhaseSet::ABC),
        (5, phases(true, false, false, false)),
        (7, PhaseSet::ABC),
        (34, phases(false, true, false, false)),
        (10, PhaseSet::EMPTY),
    ];
    for (terminal, want) in table {
        assert!(rt; index.phases_of(Id::of(terminal)) == want, "of {terminal}");
    }
    assert!(rt; index.segment_phases(Id::of(10)) == phases(true, false, true, false));
    assert!(rt; index.segment_phases(Id::of(11)) == phases(true, true, true, true));
    Ok(())
}

#[test]
fn subjects(rt: HostRuntime) -> Result<(), Fail> {
    let built = network(rt.alloc())?;
    let index = built.share()?;
    assert!(rt; index.set().len() == 87);
    for (id, subject, equipment, open) in [
        (12, true, true, false),
        (13, true, true, true),
        (14, true, true, true),
        (17, true, true, false),
        (50, true, false, false),
        (99, false, false, false),
    ] {
        assert!(rt; index.is_subject(Id::of(id)) == subject, "subject {id}");
        assert!(rt;
            index.is_equipment(Id::of(id)) == equipment,
            "equipment {id}"
        );
        assert!(rt; index.open_of(Id::of(id)) == open, "open {id}");
    }
    assert!(rt; index.class_of(Id::of(12)) == Some(Class::Breaker));
    assert!(rt; index.class_of(Id::of(50)) == Some(Class::Other));
    assert!(rt; is(index.owner_of(Id::of(1)), 10));
    assert!(rt; index.owner_of(Id::of(50)).is_none());
    assert!(rt; is(index.node_of(Id::of(2)), 21));
    assert!(rt; is(index.equipment_of(Id::of(42)), 16));
    assert!(rt; index.length_of(Id::of(10)) == Some(Length { mm: 9000 }));
    assert!(rt; index.length_of(Id::of(11)).is_none());
    Ok(())
}

fn mark(id: u128, mm: u64, divides: bool) -> Mark {
    Mark {
        id: Id::of(id),
        length: Length { mm },
        divides,
    }
}

#[test]
fn marks(rt: HostRuntime) -> Result<(), Fail> {
    let index = network(rt.alloc())?;
    let on_ten = [
        mark(14, 0, true),
        mark(18, 5000, true),
        mark(19, 2500, false),
    ];
    assert!(rt; index.marks_of(Id::of(10)) == on_ten.as_slice());
    for segment in [11, 14, 50, 99] {
        assert!(rt; index.marks_of(Id::of(segment)).is_empty(), "on {segment}");
    }
    for mark in [14, 18, 19] {
        assert!(rt; is(index.segment_of(Id::of(mark)), 10), "of {mark}");
    }
    for other in [10, 12, 36, 50, 99] {
        assert!(rt; index.segment_of(Id::of(other)).is_none(), "of {other}");
    }
    Ok(())
}

//! Small models, and the first fault of each.

use crate::model::{
    CLAMP, CONSUMER, CUT, HOUSE, KIND_A, KIND_B, NODE, Row, SEGMENT, SEGMENT_PHASE, SWITCH_PHASE,
    Said, TERMINAL, append, set_of,
};
use cim_profile::first_break;
use cim_words::{KnownProp, NoMemory, Statements};
use statement_set::{SetRefusal, StatementSet};
use std::alloc::Global;
use std::process::Abort;
use std::test::Fail;

/// A segment 10 of nine metres with terminals 1 and 2, a clamp 12 at five and a cut 13 at seven, and a consumer 11 at a node 20.
const NETWORK: [Row; 27] = [
    (10, KnownProp::RDF_TYPE, SEGMENT),
    (10, KnownProp::CONDUCTOR_LENGTH, Said::Text("9")),
    (1, KnownProp::RDF_TYPE, TERMINAL),
    (1, KnownProp::CONDUCTING_EQUIPMENT, Said::Id(10)),
    (1, KnownProp::CONNECTIVITY_NODE, Said::Id(20)),
    (1, KnownProp::SEQUENCE_NUMBER, Said::Text("1")),
    (2, KnownProp::RDF_TYPE, TERMINAL),
    (2, KnownProp::CONDUCTING_EQUIPMENT, Said::Id(10)),
    (2, KnownProp::SEQUENCE_NUMBER, Said::Text("2")),
    (20, KnownProp::RDF_TYPE, NODE),
    (11, KnownProp::RDF_TYPE, CONSUMER),
    (3, KnownProp::RDF_TYPE, TERMINAL),
    (3, KnownProp::CONDUCTING_EQUIPMENT, Said::Id(11)),
    (3, KnownProp::CONNECTIVITY_NODE, Said::Id(20)),
    (12, KnownProp::RDF_TYPE, CLAMP),
    (12, KnownProp::CLAMP_SEGMENT, Said::Id(10)),
    (12, KnownProp::CLAMP_LENGTH, Said::Text("5")),
    (4, KnownProp::RDF_TYPE, TERMINAL),
    (4, KnownProp::CONDUCTING_EQUIPMENT, Said::Id(12)),
    (13, KnownProp::RDF_TYPE, CUT),
    (13, KnownProp::CUT_SEGMENT, Said::Id(10)),
    (13, KnownProp::CUT_LENGTH, Said::Text("7")),
    (5, KnownProp::RDF_TYPE, TERMINAL),
    (5, KnownProp::CONDUCTING_EQUIPMENT, Said::Id(13)),
    (5, KnownProp::SEQUENCE_NUMBER, Said::Text("1")),
    (6, KnownProp::RDF_TYPE, TERMINAL),
    (6, KnownProp::CONDUCTING_EQUIPMENT, Said::Id(13)),
];

/// The number of the cut's second terminal.
const NUMBERED: Row = (6, KnownProp::SEQUENCE_NUMBER, Said::Text("2"));

/// The rule and the subject of the first fault.
fn fault(alloc: Global, set: &StatementSet) -> Result<Option<(u8, u128)>, NoMemory> {
    match first_break(alloc, set)? {
        Some(found) => Ok(Some((found.rule, found.subject.number))),
        None => Ok(None),
    }
}

fn fault_with(alloc: Global, more: &[Row]) -> Result<Option<(u8, u128)>, Fail> {
    let set = set_of(alloc, &[&NETWORK, &[NUMBERED], more])?;
    Ok(fault(alloc, &set)?)
}

/// What is said beside the network, and the fault.
type Case = (&'static [Row], Option<(u8, u128)>);

const CLASSES_AND_OWNERS: [Case; 13] = [
    (&[], None),
    (&[(10, KnownProp::RDF_TYPE, HOUSE)], Some((1, 10))),
    (
        &[
            (30, KnownProp::RDF_TYPE, HOUSE),
            (30, KnownProp::RDF_TYPE, Said::Text("x")),
        ],
        None,
    ),
    (
        &[
            (7, KnownProp::RDF_TYPE, TERMINAL),
            (7, KnownProp::CONDUCTING_EQUIPMENT, Said::Id(31)),
            (31, KnownProp::CONDUCTOR_LENGTH, Said::Text("1")),
        ],
        Some((1, 31)),
    ),
    (
        &[
            (7, KnownProp::RDF_TYPE, TERMINAL),
            (7, KnownProp::CONDUCTING_EQUIPMENT, Said::Id(31)),
        ],
        Some((4, 7)),
    ),
    (
        &[
            (30, KnownProp::RDF_TYPE, HOUSE),
            (
                30,
                KnownProp::RDF_TYPE,
                Said::Name("http://example.org/Hut"),
            ),
            (30, KnownProp::RDF_TYPE, TERMINAL),
        ],
        Some((1, 30)),
    ),
    (
        &[(1, KnownProp::SEQUENCE_NUMBER, Said::Text("2"))],
        Some((2, 1)),
    ),
    (
        &[
            (0, KnownProp::RDF_TYPE, CLAMP),
            (1, KnownProp::SEQUENCE_NUMBER, Said::Text("2")),
        ],
        Some((2, 1)),
    ),
    (
        &[
            (20, KnownProp::SEQUENCE_NUMBER, Said::Text("1")),
            (20, KnownProp::SEQUENCE_NUMBER, Said::Text("2")),
        ],
        None,
    ),
    (&[(7, KnownProp::RDF_TYPE, TERMINAL)], Some((3, 7))),
    (&[(32, KnownProp::RDF_TYPE, CLAMP)], Some((3, 32))),
    (
        &[
            (7, KnownProp::RDF_TYPE, TERMINAL),
            (7, KnownProp::CONDUCTING_EQUIPMENT, Said::Id(20)),
        ],
        Some((4, 7)),
    ),
    (
        &[
            (7, KnownProp::RDF_TYPE, TERMINAL),
            (7, KnownProp::CONDUCTING_EQUIPMENT, Said::Id(10)),
        ],
        Some((5, 10)),
    ),
];

const NUMBERS_AND_FORMS: [Case; 6] = [
    (
        &[
            (40, KnownProp::RDF_TYPE, SEGMENT),
            (7, KnownProp::RDF_TYPE, TERMINAL),
            (7, KnownProp::CONDUCTING_EQUIPMENT, Said::Id(40)),
            (8, KnownProp::RDF_TYPE, TERMINAL),
            (8, KnownProp::CONDUCTING_EQUIPMENT, Said::Id(40)),
        ],
        None,
    ),
    (
        &[
            (40, KnownProp::RDF_TYPE, SEGMENT),
            (7, KnownProp::RDF_TYPE, TERMINAL),
            (7, KnownProp::CONDUCTING_EQUIPMENT, Said::Id(40)),
            (7, KnownProp::SEQUENCE_NUMBER, Said::Text("1")),
            (8, KnownProp::RDF_TYPE, TERMINAL),
            (8, KnownProp::CONDUCTING_EQUIPMENT, Said::Id(40)),
            (8, KnownProp::SEQUENCE_NUMBER, Said::Text("1")),
        ],
        Some((6, 40)),
    ),
    (
        &[
            (50, KnownProp::RDF_TYPE, SEGMENT_PHASE),
            (50, KnownProp::SEGMENT_OF_PHASE, Said::Id(10)),
            (50, KnownProp::SEGMENT_PHASE, KIND_A),
        ],
        None,
    ),
    (
        &[
            (50, KnownProp::RDF_TYPE, SEGMENT_PHASE),
            (50, KnownProp::SEGMENT_OF_PHASE, Said::Id(10)),
            (
                50,
                KnownProp::SEGMENT_PHASE,
                Said::Name("http://iec.ch/TC57/CIM100#SinglePhaseKind.s12"),
            ),
        ],
        Some((7, 50)),
    ),
    (
        &[
            (51, KnownProp::RDF_TYPE, SWITCH_PHASE),
            (51, KnownProp::SWITCH_OF_PHASE, Said::Id(13)),
            (51, KnownProp::PHASE_SIDE_1, KIND_A),
            (51, KnownProp::PHASE_SIDE_2, KIND_A),
        ],
        None,
    ),
    (
        &[
            (51, KnownProp::RDF_TYPE, SWITCH_PHASE),
            (51, KnownProp::SWITCH_OF_PHASE, Said::Id(13)),
            (51, KnownProp::PHASE_SIDE_1, KIND_A),
            (51, KnownProp::PHASE_SIDE_2, KIND_B),
        ],
        Some((10, 51)),
    ),
];

fn checks(rt: &impl Abort, alloc: Global, cases: &[Case]) -> Result<(), Fail> {
    for (more, want) in cases {
        assert_eq!(rt; fault_with(alloc, more)?, *want);
    }
    Ok(())
}

#[test]
fn classes_and_owners(rt: HostRuntime) -> Result<(), Fail> {
    checks(&rt, rt.alloc(), &CLASSES_AND_OWNERS)
}

#[test]
fn numbers_and_forms(rt: HostRuntime) -> Result<(), Fail> {
    checks(&rt, rt.alloc(), &NUMBERS_AND_FORMS)
}

/// A clamp 32 with a terminal 7 on the segment of the network, at a length.
fn clamp_at(length: &'static str) -> [Row; 5] {
    [
        (32, KnownProp::RDF_TYPE, CLAMP),
        (32, KnownProp::CLAMP_SEGMENT, Said::Id(10)),
        (32, KnownProp::CLAMP_LENGTH, Said::Text(length)),
        (7, KnownProp::RDF_TYPE, TERMINAL),
        (7, KnownProp::CONDUCTING_EQUIPMENT, Said::Id(32)),
    ]
}

#[test]
fn places(rt: HostRuntime) -> Result<(), Fail> {
    let table = [
        ("0", None),
        ("5", None),
        ("7", Some((8, 13))),
        ("9", None),
        ("9.001", Some((8, 32))),
        ("nine", Some((7, 32))),
    ];
    for (length, want) in table {
        assert_eq!(rt;
            fault_with(rt.alloc(), &clamp_at(length))?,
            want,
            "at {length}"
        );
    }
    Ok(())
}

/// So many terminals from 1000 on: those at the node 20, or those of the house 60.
fn crowd(alloc: Global, count: u32, at_node: bool) -> Result<StatementSet, SetRefusal> {
    let mut statements = Vec::new(alloc);
    append(
        &mut statements,
        &[
            (20, KnownProp::RDF_TYPE, NODE),
            (60, KnownProp::RDF_TYPE, HOUSE),
        ],
    )?;
    for i in 1000..1000 + u128::from(count) {
        let house = if at_node { 10_000 + i } else { 60 };
        append(
            &mut statements,
            &[
                (i, KnownProp::RDF_TYPE, TERMINAL),
                (i, KnownProp::CONDUCTING_EQUIPMENT, Said::Id(house)),
                (i, KnownProp::CONNECTIVITY_NODE, Said::Id(20)),
                (house, KnownProp::RDF_TYPE, HOUSE),
            ],
        )?;
    }
    StatementSet::from_list(alloc, Statements::of(statements))
}

#[test]
fn terminals_of_equipment_and_at_a_node(rt: HostRuntime) -> Result<(), Fail> {
    let alloc = rt.alloc();
    for (count, at_node, want) in [
        (64, false, None),
        (65, false, Some((5, 60))),
        (1024, true, None),
        (1025, true, Some((9, 20))),
    ] {
        let set = crowd(alloc, count, at_node)?;
        assert_eq!(rt; fault(alloc, &set)?, want, "at {count}");
    }
    Ok(())
}

/// So many clamps from 2000 on, beside the clamp and the cut of the network.
fn clamps(alloc: Global, count: u32) -> Result<StatementSet, SetRefusal> {
    let mut statements = Vec::new(alloc);
    append(&mut statements, &NETWORK)?;
    append(&mut statements, &[NUMBERED])?;
    for i in 2000..2000 + u128::from(count) {
        append(
            &mut statements,
            &[
                (i, KnownProp::RDF_TYPE, CLAMP),
                (i, KnownProp::CLAMP_SEGMENT, Said::Id(10)),
                (10_000 + i, KnownProp::RDF_TYPE, TERMINAL),
                (10_000 + i, KnownProp::CONDUCTING_EQUIPMENT, Said::Id(i)),
            ],
        )?;
    }
    StatementSet::from_list(alloc, Statements::of(statements))
}

#[test]
fn marks_on_a_segment(rt: HostRuntime) -> Result<(), Fail> {
    let alloc = rt.alloc();
    for (count, want) in [(254, None), (255, Some((9, 10)))] {
        let set = clamps(alloc, count)?;
        assert_eq!(rt; fault(alloc, &set)?, want, "at {count}");
    }
    Ok(())
}

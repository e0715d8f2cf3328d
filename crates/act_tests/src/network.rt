//! A small network as a table, and as the statements of a model.

ghost use Rattle.std.specs.Prelude.{IfOk, IsTrue};
ghost use Rattle.cim_words.specs.Object.{is_proper_object};

use cim_words::{
    Class, Id, KnownProp, NoMemory, Object, Phase, PhaseSet, Prop, Statement, Statements, Word,
};
use statement_set::{SetRefusal, StatementSet};
use std::alloc::Global;

/// The phases A, B and C, and A and B.
pub(crate) const ABC: PhaseSet = PhaseSet {
    a: true,
    b: true,
    c: true,
    n: false,
    s1: false,
    s2: false,
};

pub(crate) const AB: PhaseSet = PhaseSet { c: false, ..ABC };

pub(crate) const PHASES: [Phase; 4] = [Phase::A, Phase::B, Phase::C, Phase::N];

/// A terminal: its identifier, its node, and whether it states the phases A and B.
pub(crate) type Leg = (u128, Option<u128>, bool);

/// A piece of equipment: its identifier, its class and its IRI, its terminals by side, whether it is open where it is a switch, its
/// length in metres where it is a segment, and where it stands on a segment, in metres, where it is a cut or a clamp.
#[derive(Clone, Copy, Drop)]
pub(crate) struct Equipment {
    pub(crate) id: u128,
    pub(crate) class: Class,
    pub(crate) iri: &'static str,
    pub(crate) legs: &'static [Leg],
    pub(crate) is_open: bool,
    pub(crate) length: Option<u64>,
    pub(crate) stands: Option<(u128, u64)>,
}

const PLAIN: Equipment = Equipment {
    id: 0,
    class: Class::Other,
    iri: "",
    legs: &[],
    is_open: false,
    length: None,
    stands: None,
};

pub(crate) const NODES: [u128; 6] = [0xA1, 0xA2, 0xA3, 0xA4, 0xA5, 0xA6];

/// A source, a breaker, a segment of 100 m and a consumer in a row; behind them a busbar section with a segment in the phases A and B
/// that has a cut and a clamp of its own, an open switch to a second source, and a house of a class without a meaning.
pub(crate) const NETWORK: [Equipment; 10] = [
    Equipment {
        id: 0xE1,
        class: Class::EnergySource,
        iri: "http://iec.ch/TC57/CIM100#EnergySource",
        legs: &[(0x71, Some(0xA1), false)],
        ..PLAIN
    },
    Equipment {
        id: 0xB1,
        class: Class::Breaker,
        iri: "http://iec.ch/TC57/CIM100#Breaker",
        legs: &[(0x72, Some(0xA1), false), (0x73, Some(0xA2), false)],
        ..PLAIN
    },
    Equipment {
        id: 0x51,
        class: Class::ACLineSegment,
        iri: "http://iec.ch/TC57/CIM100#ACLineSegment",
        legs: &[(0x74, Some(0xA2), false), (0x75, Some(0xA3), false)],
        length: Some(100),
        ..PLAIN
    },
    Equipment {
        id: 0xC1,
        class: Class::EnergyConsumer,
        iri: "http://iec.ch/TC57/CIM100#EnergyConsumer",
        legs: &[(0x76, Some(0xA3), false)],
        ..PLAIN
    },
    Equipment {
        id: 0xD1,
        class: Class::BusbarSection,
        iri: "http://iec.ch/TC57/CIM100#BusbarSection",
        legs: &[(0x77, Some(0xA3), false), (0x78, Some(0xA4), false)],
        ..PLAIN
    },
    Equipment {
        id: 0x52,
        class: Class::ACLineSegment,
        iri: "http://iec.ch/TC57/CIM100#ACLineSegment",
        legs: &[(0x79, Some(0xA4), true), (0x7A, Some(0xA5), true)],
        ..PLAIN
    },
    Equipment {
        id: 0x61,
        class: Class::Cut,
        iri: "http://iec.ch/TC57/CIM100#Cut",
        legs: &[(0x7B, None, false), (0x7C, Some(0xA6), false)],
        stands: Some((0x52, 60)),
        ..PLAIN
    },
    Equipment {
        id: 0x62,
        class: Class::Clamp,
        iri: "http://iec.ch/TC57/CIM100#Clamp",
        legs: &[(0x7D, Some(0xA1), false)],
        stands: Some((0x52, 20)),
        ..PLAIN
    },
    Equipment {
        id: 0xB2,
        class: Class::LoadBreakSwitch,
        iri: "http://iec.ch/TC57/CIM100#LoadBreakSwitch",
        legs: &[(0x7E, Some(0xA5), false), (0x7F, Some(0xA6), false)],
        is_open: true,
        ..PLAIN
    },
    Equipment {
        id: 0xF1,
        class: Class::Other,
        iri: "http://example.org/House",
        legs: &[(0x80, Some(0xA6), false)],
        ..PLAIN
    },
];

/// What a statement says.
#[derive(Clone, Copy, Drop)]
enum Said {
    Id(u128),
    Name(&'static str),
    Text(&'static str),
    Metres(u64),
}

fn object(alloc: Global, said: Said) -> Result<Object, NoMemory>
    ensures { IfOk result (λ object. IsTrue (is_proper_object object)) }
{
    match said {
        Said::Id(number) => Ok(Object::Id(Id::of(number))),
        Said::Name(text) => Object::of_iri(alloc, text),
        Said::Text(text) => Ok(Object::Text(Word::of(alloc, text)?)),
        Said::Metres(metres) => Ok(Object::Text(Word::of(alloc, &metres.to_string(alloc)?)?)),
    }
}

fn say(
    statements: &mut Vec<Statement>,
    subject: u128,
    known: KnownProp,
    said: Said,
) -> Result<(), NoMemory> {
    let alloc = *statements.allocator();
    statements.push(Statement {
        subject: Id::of(subject),
        prop: Prop::Known(known),
        object: object(alloc, said)?,
    })?;
    Ok(())
}

/// The statements of a terminal, which is a side of what owns it.
fn say_leg(
    statements: &mut Vec<Statement>,
    owner: u128,
    side: usize,
    leg: Leg,
) -> Result<(), NoMemory> {
    let (id, node, is_ab) = leg;
    say(
        statements,
        id,
        KnownProp::RDF_TYPE,
        Said::Name("http://iec.ch/TC57/CIM100#Terminal"),
    )?;
    say(
        statements,
        id,
        KnownProp::CONDUCTING_EQUIPMENT,
        Said::Id(owner),
    )?;
    let number = Said::Text(if side == 0 { "1" } else { "2" });
    say(statements, id, KnownProp::SEQUENCE_NUMBER, number)?;
    if let Some(node) = node {
        say(statements, id, KnownProp::CONNECTIVITY_NODE, Said::Id(node))?;
    }
    if is_ab {
        let code = Said::Name("http://iec.ch/TC57/CIM100#PhaseCode.AB");
        say(statements, id, KnownProp::PHASES, code)?;
    }
    Ok(())
}

/// Where a cut or a clamp stands.
fn say_stand(statements: &mut Vec<Statement>, equipment: &Equipment) -> Result<(), NoMemory> {
    let Some((segment, metres)) = equipment.stands else {
        return Ok(());
    };
    let (names, states) = if equipment.class.is_cut() {
        (KnownProp::CUT_SEGMENT, KnownProp::CUT_LENGTH)
    } else {
        (KnownProp::CLAMP_SEGMENT, KnownProp::CLAMP_LENGTH)
    };
    say(statements, equipment.id, names, Said::Id(segment))?;
    say(statements, equipment.id, states, Said::Metres(metres))
}

fn say_equipment(statements: &mut Vec<Statement>, equipment: &Equipment) -> Result<(), NoMemory> {
    let id = equipment.id;
    say(
        statements,
        id,
        KnownProp::RDF_TYPE,
        Said::Name(equipment.iri),
    )?;
    if equipment.class.is_switch() {
        let open = Said::Text(if equipment.is_open { "true" } else { "false" });
        say(statements, id, KnownProp::SWITCH_OPEN, open)?;
    }
    if let Some(metres) = equipment.length {
        say(
            statements,
            id,
            KnownProp::CONDUCTOR_LENGTH,
            Said::Metres(metres),
        )?;
    }
    say_stand(statements, equipment)?;
    for (side, leg) in equipment.legs.iter().enumerate() {
        say_leg(statements, id, side, *leg)?;
    }
    Ok(())
}

/// The network as the set of its statements.
pub(crate) fn statements(alloc: Global) -> Result<StatementSet, SetRefusal> {
    let mut statements = Vec::new(alloc);
    for node in NODES {
        say(
            &mut statements,
            node,
            KnownProp::RDF_TYPE,
            Said::Name("http://iec.ch/TC57/CIM100#ConnectivityNode"),
        )?;
    }
    for equipment in &NETWORK {
        say_equipment(&mut statements, equipment)?;
    }
    StatementSet::from_list(alloc, Statements::of(statements))
}

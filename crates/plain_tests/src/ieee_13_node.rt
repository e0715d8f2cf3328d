//! The IEEE 13-node test feeder (IEEE Distribution Test Feeders), in the profile.

use crate::runs::{push_pieces, writes};
use cim_words::NoMemory;
use room_plain::Status;
use std::alloc::Global;
use std::test::Fail;

const NODES: &[&str] = &[
    "000115", "000650", "000060", "000632", "000633", "000634", "000645", "000646", "000670",
    "000671", "000680", "000684", "000611", "000652", "000692", "000675",
];

/// Equipment with two terminals: its kind and number, its class, its nodes, and the phases of its phase objects. The transformers
/// are the substation's, the regulator and the one at node 633.
const BETWEEN: &[(&str, &str, &str, &str, &str, &str)] = &[
    ("2", "115650", "PowerTransformer", "000115", "000650", ""),
    ("2", "650060", "PowerTransformer", "000650", "000060", ""),
    ("2", "633634", "PowerTransformer", "000633", "000634", ""),
    ("3", "671692", "LoadBreakSwitch", "000671", "000692", ""),
    ("1", "060632", "ACLineSegment", "000060", "000632", "ABCN"),
    ("1", "632633", "ACLineSegment", "000632", "000633", "ABCN"),
    ("1", "632645", "ACLineSegment", "000632", "000645", "BCN"),
    ("1", "632670", "ACLineSegment", "000632", "000670", "ABCN"),
    ("1", "645646", "ACLineSegment", "000645", "000646", "BCN"),
    ("1", "670671", "ACLineSegment", "000670", "000671", "ABCN"),
    ("1", "671680", "ACLineSegment", "000671", "000680", "ABCN"),
    ("1", "671684", "ACLineSegment", "000671", "000684", "ACN"),
    ("1", "684611", "ACLineSegment", "000684", "000611", "CN"),
    ("1", "684652", "ACLineSegment", "000684", "000652", "AN"),
    ("1", "692675", "ACLineSegment", "000692", "000675", "ABCN"),
];

/// Equipment with one terminal, at the node of its own number: its kind and number, its class, and the phases of its phase objects.
/// The capacitors are of a class that the profile does not know.
const SINGLE: &[(&str, &str, &str, &str)] = &[
    ("5", "000115", "EnergySource", ""),
    ("4", "000611", "EnergyConsumer", "C"),
    ("4", "000634", "EnergyConsumer", "ABC"),
    ("4", "000645", "EnergyConsumer", "B"),
    ("4", "000646", "EnergyConsumer", "BC"),
    ("4", "000652", "EnergyConsumer", "A"),
    ("4", "000670", "EnergyConsumer", "ABC"),
    ("4", "000671", "EnergyConsumer", "ABC"),
    ("4", "000675", "EnergyConsumer", "ABC"),
    ("4", "000692", "EnergyConsumer", "AC"),
    ("6", "000611", "LinearShuntCompensator", ""),
    ("6", "000675", "LinearShuntCompensator", ""),
];

const TRACE: &str = "trace 0 27\n\
    00000013-0000-4000-8001-000000060632 ABC\n\
    00000013-0000-4000-8001-000000632633 ABC\n\
    00000013-0000-4000-8001-000000632645 BC\n\
    00000013-0000-4000-8001-000000632670 ABC\n\
    00000013-0000-4000-8001-000000645646 BC\n\
    00000013-0000-4000-8001-000000670671 ABC\n\
    00000013-0000-4000-8001-000000671680 ABC\n\
    00000013-0000-4000-8001-000000671684 AC\n\
    00000013-0000-4000-8001-000000684611 C\n\
    00000013-0000-4000-8001-000000684652 A\n\
    00000013-0000-4000-8001-000000692675 ABC\n\
    00000013-0000-4000-8002-000000115650 ABC\n\
    00000013-0000-4000-8002-000000633634 ABC\n\
    00000013-0000-4000-8002-000000650060 ABC\n\
    00000013-0000-4000-8003-000000671692 ABC\n\
    00000013-0000-4000-8004-000000000611 C\n\
    00000013-0000-4000-8004-000000000634 ABC\n\
    00000013-0000-4000-8004-000000000645 B\n\
    00000013-0000-4000-8004-000000000646 BC\n\
    00000013-0000-4000-8004-000000000652 A\n\
    00000013-0000-4000-8004-000000000670 ABC\n\
    00000013-0000-4000-8004-000000000671 ABC\n\
    00000013-0000-4000-8004-000000000675 ABC\n\
    00000013-0000-4000-8004-000000000692 AC\n\
    00000013-0000-4000-8005-000000000115 ABC\n\
    00000013-0000-4000-8006-000000000611 C\n\
    00000013-0000-4000-8006-000000000675 ABC\n";

/// How all identifiers begin.
const ID_BEGIN: &str = "<urn:uuid:00000013-0000-4000-800";

/// Properties, each with the beginning of what is said by it.
const CLASS: &str = "<http://www.w3.org/1999/02/22-rdf-syntax-ns#type> <http://iec.ch/TC57/CIM100#";

const EQUIPMENT: &str =
    "<http://iec.ch/TC57/CIM100#Terminal.ConductingEquipment> <urn:uuid:00000013-0000-4000-800";

const NODE: &str =
    "<http://iec.ch/TC57/CIM100#Terminal.ConnectivityNode> <urn:uuid:00000013-0000-4000-8000-000000";

const TERMINAL_PHASES: &str =
    "<http://iec.ch/TC57/CIM100#Terminal.phases> <http://iec.ch/TC57/CIM100#PhaseCode.";

/// Phase objects: their class, and the properties by which they name their equipment and their phase.
type Part = (&'static str, &'static str, &'static str);

const LINE_PART: Part = (
    "ACLineSegmentPhase",
    "<http://iec.ch/TC57/CIM100#ACLineSegmentPhase.ACLineSegment> <urn:uuid:00000013-0000-4000-8001-000000",
    "<http://iec.ch/TC57/CIM100#ACLineSegmentPhase.phase> <http://iec.ch/TC57/CIM100#SinglePhaseKind.",
);

const LOAD_PART: Part = (
    "EnergyConsumerPhase",
    "<http://iec.ch/TC57/CIM100#EnergyConsumerPhase.EnergyConsumer> <urn:uuid:00000013-0000-4000-8004-000000",
    "<http://iec.ch/TC57/CIM100#EnergyConsumerPhase.phase> <http://iec.ch/TC57/CIM100#SinglePhaseKind.",
);

/// The phases, and the digits that the identifiers of their phase objects have.
const PHASES: &[(&str, &str)] = &[("A", "10"), ("B", "11"), ("C", "12"), ("N", "13")];

/// Appends a statement: the end of its subject's identifier, the property, and the end of what is said, each in pieces.
fn push_statement(
    text: &mut String,
    subject: &[&str],
    prop: &str,
    said: &[&str],
) -> Result<(), NoMemory> {
    text.push_str(ID_BEGIN)?;
    push_pieces(text, subject)?;
    push_pieces(text, &["> ", prop])?;
    push_pieces(text, said)?;
    text.push_str("> .\n")
}

/// Appends a terminal, whose own digits are the kind of its equipment and which of its terminals it is.
fn push_terminal(
    text: &mut String,
    kind: &str,
    number: &str,
    which: &str,
    node: &str,
) -> Result<(), NoMemory> {
    let terminal = ["7-0000", kind, which, number];
    push_statement(text, &terminal, CLASS, &["Terminal"])?;
    push_statement(text, &terminal, EQUIPMENT, &[kind, "-000000", number])?;
    push_statement(text, &terminal, NODE, &[node])
}

/// Appends a phase object of a piece of equipment for each of its phases.
fn push_parts(
    text: &mut String,
    (class, names, states): Part,
    kind: &str,
    number: &str,
    phases: &str,
) -> Result<(), NoMemory> {
    for (phase, digits) in PHASES {
        if !phases.contains(*phase) {
            continue;
        }
        let part = ["8-000", kind, digits, number];
        push_statement(text, &part, CLASS, &[class])?;
        push_statement(text, &part, names, &[number])?;
        push_statement(text, &part, states, &[phase])?;
    }
    Ok(())
}

fn push_nodes(text: &mut String) -> Result<(), NoMemory> {
    for node in NODES {
        push_statement(text, &["0-000000", node], CLASS, &["ConnectivityNode"])?;
    }
    Ok(())
}

fn push_between(text: &mut String) -> Result<(), NoMemory> {
    for (kind, number, class, from, to, phases) in BETWEEN {
        push_statement(text, &[kind, "-000000", number], CLASS, &[class])?;
        push_terminal(text, kind, number, "1", from)?;
        push_terminal(text, kind, number, "2", to)?;
        push_parts(text, LINE_PART, kind, number, phases)?;
    }
    Ok(())
}

fn push_single(text: &mut String) -> Result<(), NoMemory> {
    for (kind, number, class, phases) in SINGLE {
        push_statement(text, &[kind, "-000000", number], CLASS, &[class])?;
        push_terminal(text, kind, number, "1", number)?;
        push_parts(text, LOAD_PART, kind, number, phases)?;
    }
    Ok(())
}

/// The feeder, one of whose capacitors is in phase C alone.
fn feeder(alloc: Global) -> Result<String, NoMemory> {
    let mut text = String::new(alloc);
    push_nodes(&mut text)?;
    push_between(&mut text)?;
    push_single(&mut text)?;
    push_statement(&mut text, &["7-000061000611"], TERMINAL_PHASES, &["C"])?;
    Ok(text)
}

#[test]
fn traces_the_feeder_per_phase(rt: HostRuntime) -> Result<(), Fail> {
    let base = feeder(rt.alloc())?;
    let command = "trace base 00000013-0000-4000-8005-000000000115 ABC";
    assert!(rt;
        writes(
            rt.alloc(),
            base.as_bytes(),
            command,
            Status::Ok,
            TRACE.as_bytes()
        )?
    );
    Ok(())
}

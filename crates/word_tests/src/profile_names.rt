//! The names of the profile's classes and properties, written out once more.

use cim_words::{Class, KnownProp, NoMemory, Prop};
use std::alloc::Global;

const NAMESPACE: &str = "http://iec.ch/TC57/CIM100#";

const TYPE: &str = "http://www.w3.org/1999/02/22-rdf-syntax-ns#type";

/// Of what a class is: segments, switches, passing equipment, transformers, equipment with one terminal, terminals and nodes, and
/// phase objects; and then equipment with two terminals, equipment, and parts that are no equipment.
type Groups = [bool; 10];

const SEGMENT: Groups = [
    true, false, false, false, false, false, false, true, true, false,
];

const SWITCH: Groups = [
    false, true, false, false, false, false, false, true, true, false,
];

const PASSING: Groups = [
    false, false, true, false, false, false, false, false, true, false,
];

const TRANSFORMER: Groups = [
    false, false, false, true, false, false, false, false, true, false,
];

const SINGLE: Groups = [
    false, false, false, false, true, false, false, false, true, false,
];

const NO_EQUIPMENT: Groups = [
    false, false, false, false, false, true, false, false, false, true,
];

const PHASE_OBJECT: Groups = [
    false, false, false, false, false, false, true, false, false, true,
];

/// Each class and its group.
const CLASSES: &[(&str, Groups)] = &[
    ("ACLineSegment", SEGMENT),
    ("Switch", SWITCH),
    ("Breaker", SWITCH),
    ("Disconnector", SWITCH),
    ("Fuse", SWITCH),
    ("LoadBreakSwitch", SWITCH),
    ("Recloser", SWITCH),
    ("Sectionaliser", SWITCH),
    ("GroundDisconnector", SWITCH),
    ("Jumper", SWITCH),
    ("Cut", SWITCH),
    ("Junction", PASSING),
    ("BusbarSection", PASSING),
    ("SeriesCompensator", PASSING),
    ("PowerTransformer", TRANSFORMER),
    ("Clamp", SINGLE),
    ("Ground", SINGLE),
    ("EnergySource", SINGLE),
    ("EnergyConsumer", SINGLE),
    ("Terminal", NO_EQUIPMENT),
    ("ConnectivityNode", NO_EQUIPMENT),
    ("ACLineSegmentPhase", PHASE_OBJECT),
    ("EnergyConsumerPhase", PHASE_OBJECT),
    ("SwitchPhase", PHASE_OBJECT),
];

/// Each property but the type, which counts on all classes, and the class on which it counts, or `switch` for all switches.
const PROPERTIES: &[(KnownProp, &str, &str)] = &[
    (
        KnownProp::CONDUCTING_EQUIPMENT,
        "Terminal.ConductingEquipment",
        "Terminal",
    ),
    (
        KnownProp::CONNECTIVITY_NODE,
        "Terminal.ConnectivityNode",
        "Terminal",
    ),
    (KnownProp::PHASES, "Terminal.phases", "Terminal"),
    (
        KnownProp::SEQUENCE_NUMBER,
        "ACDCTerminal.sequenceNumber",
        "Terminal",
    ),
    (KnownProp::NORMAL_OPEN, "Switch.normalOpen", "switch"),
    (KnownProp::SWITCH_OPEN, "Switch.open", "switch"),
    (
        KnownProp::CONDUCTOR_LENGTH,
        "Conductor.length",
        "ACLineSegment",
    ),
    (KnownProp::CLAMP_SEGMENT, "Clamp.ACLineSegment", "Clamp"),
    (
        KnownProp::CLAMP_LENGTH,
        "Clamp.lengthFromTerminal1",
        "Clamp",
    ),
    (KnownProp::CUT_SEGMENT, "Cut.ACLineSegment", "Cut"),
    (KnownProp::CUT_LENGTH, "Cut.lengthFromTerminal1", "Cut"),
    (
        KnownProp::SEGMENT_OF_PHASE,
        "ACLineSegmentPhase.ACLineSegment",
        "ACLineSegmentPhase",
    ),
    (
        KnownProp::SEGMENT_PHASE,
        "ACLineSegmentPhase.phase",
        "ACLineSegmentPhase",
    ),
    (
        KnownProp::CONSUMER_OF_PHASE,
        "EnergyConsumerPhase.EnergyConsumer",
        "EnergyConsumerPhase",
    ),
    (
        KnownProp::CONSUMER_PHASE,
        "EnergyConsumerPhase.phase",
        "EnergyConsumerPhase",
    ),
    (
        KnownProp::SWITCH_OF_PHASE,
        "SwitchPhase.Switch",
        "SwitchPhase",
    ),
    (
        KnownProp::SWITCH_PHASE_CLOSED,
        "SwitchPhase.closed",
        "SwitchPhase",
    ),
    (
        KnownProp::PHASE_SIDE_1,
        "SwitchPhase.phaseSide1",
        "SwitchPhase",
    ),
    (
        KnownProp::PHASE_SIDE_2,
        "SwitchPhase.phaseSide2",
        "SwitchPhase",
    ),
];

/// Other IRIs, which name neither a class nor a property of the profile.
const OTHERS: &[&str] = &[
    "",
    "Breaker",
    "http://iec.ch/TC57/CIM100#",
    "http://iec.ch/TC57/CIM100#breaker",
    "http://iec.ch/TC57/CIM100#Breakers",
    "http://iec.ch/TC57/CIM16#Breaker",
    "http://iec.ch/TC57/CIM100#type",
    "http://iec.ch/TC57/CIM100#Switch.Open",
];

fn groups_of(class: Class) -> Groups {
    [
        class.is_segment(),
        class.is_switch(),
        class.is_passing(),
        class.is_transformer(),
        class.is_single(),
        class.is_terminal() | class.is_node(),
        class.is_phase_object(),
        class.has_two_ends(),
        class.is_equipment(),
        class.is_part(),
    ]
}

/// Whether a class passes the tests for single classes.
fn tests_of(class: Class) -> [bool; 7] {
    [
        class.is_terminal(),
        class.is_node(),
        class.is_cut(),
        class.is_clamp(),
        class.is_segment_phase(),
        class.is_consumer_phase(),
        class.is_switch_phase(),
    ]
}

/// Whether a class of this name has to pass them.
fn tests_for(name: &str) -> [bool; 7] {
    [
        name == "Terminal",
        name == "ConnectivityNode",
        name == "Cut",
        name == "Clamp",
        name == "ACLineSegmentPhase",
        name == "EnergyConsumerPhase",
        name == "SwitchPhase",
    ]
}

fn class_named(alloc: Global, name: &str) -> Result<Class, NoMemory> {
    Ok(Class::of_iri(&format!(in alloc; "{NAMESPACE}{name}")?))
}

#[test]
fn classes_have_their_groups(rt: HostRuntime) -> Result<(), NoMemory> {
    for (name, groups) in CLASSES {
        let class = class_named(rt.alloc(), name)?;
        assert!(rt; groups_of(class) == *groups, "{name}");
        assert!(rt; tests_of(class) == tests_for(name), "{name}");
        assert!(rt; class.is_known(), "{name}");
    }
    Ok(())
}

/// Whether a property counts on just those of these classes that have this name or are switches where it is `switch`, and on all where it is none.
fn counts_on_listed(
    alloc: Global,
    known: KnownProp,
    on: &str,
    classes: &[(&str, Groups)],
) -> Result<bool, NoMemory> {
    for (name, groups) in classes {
        let counts = on.is_empty() || on == *name || on == "switch" && *groups == SWITCH;
        if known.counts_on(class_named(alloc, name)?) != counts {
            return Ok(false);
        }
    }
    Ok(true)
}

/// Whether an IRI names a property.
fn is_named(alloc: Global, known: KnownProp, iri: &str) -> Result<bool, NoMemory> {
    let prop = Prop::of_iri(alloc, iri)?;
    Ok(prop == Prop::Known(known) && prop.iri() == iri)
}

#[test]
fn properties_count_on_their_classes(rt: HostRuntime) -> Result<(), NoMemory> {
    let alloc = rt.alloc();
    assert!(rt; is_named(alloc, KnownProp::RDF_TYPE, TYPE)?);
    assert!(rt; counts_on_listed(alloc, KnownProp::RDF_TYPE, "", CLASSES)?);
    for (known, name, on) in PROPERTIES {
        let iri = format!(in alloc; "{NAMESPACE}{name}")?;
        assert!(rt; is_named(alloc, *known, &iri)?, "{name}");
        assert!(rt; counts_on_listed(alloc, *known, on, CLASSES)?, "{name}");
    }
    Ok(())
}

#[test]
fn other_names_are_unknown(rt: HostRuntime) -> Result<(), NoMemory> {
    for iri in OTHERS {
        assert!(rt; Class::of_iri(iri) == Class::Other, "{iri}");
        assert!(rt;
            matches!(Prop::of_iri(rt.alloc(), iri)?, Prop::Other(_)),
            "{iri}"
        );
    }
    Ok(())
}

//! The first base and what is added to it, in short statements.

use crate::runs::{ID_BEGIN, push_pieces};
use cim_words::NoMemory;
use std::alloc::Global;

/// The first base: a source, a breaker, a segment and a consumer.
pub(crate) const FIRST: &str = r#"
    a1 a ConnectivityNode
    a2 a ConnectivityNode
    a3 a ConnectivityNode
    e1 a EnergySource
    b1 a Breaker
    b1 Switch.normalOpen "false"
    51 a ACLineSegment
    51 Conductor.length "100"
    c1 a EnergyConsumer
    71 a Terminal
    71 Terminal.ConductingEquipment ~e1
    71 Terminal.ConnectivityNode ~a1
    72 a Terminal
    72 Terminal.ConductingEquipment ~b1
    72 Terminal.ConnectivityNode ~a1
    73 a Terminal
    73 Terminal.ConductingEquipment ~b1
    73 Terminal.ConnectivityNode ~a2
    74 a Terminal
    74 Terminal.ConductingEquipment ~51
    74 Terminal.ConnectivityNode ~a2
    74 ACDCTerminal.sequenceNumber "1"
    75 a Terminal
    75 Terminal.ConductingEquipment ~51
    75 Terminal.ConnectivityNode ~a3
    75 ACDCTerminal.sequenceNumber "2"
    76 a Terminal
    76 Terminal.ConductingEquipment ~c1
    76 Terminal.ConnectivityNode ~a3
"#;

/// The breaker is open, though it is normally closed.
pub(crate) const OPENED: &str = r#"
    b1 Switch.open "true"
"#;

/// A single-phase lateral.
pub(crate) const LATERAL: &str = r#"
    a4 a ConnectivityNode
    52 a ACLineSegment
    77 a Terminal
    77 Terminal.ConductingEquipment ~52
    77 Terminal.ConnectivityNode ~a3
    77 Terminal.phases PhaseCode.A
    77 ACDCTerminal.sequenceNumber "1"
    78 a Terminal
    78 Terminal.ConductingEquipment ~52
    78 Terminal.ConnectivityNode ~a4
    78 Terminal.phases PhaseCode.A
    78 ACDCTerminal.sequenceNumber "2"
"#;

/// A transformer with a secondary of two phases and a neutral, and its consumer.
pub(crate) const TRANSFORMER: &str = r#"
    a5 a ConnectivityNode
    d1 a PowerTransformer
    c2 a EnergyConsumer
    79 a Terminal
    79 Terminal.ConductingEquipment ~d1
    79 Terminal.ConnectivityNode ~a3
    79 Terminal.phases PhaseCode.A
    7a a Terminal
    7a Terminal.ConductingEquipment ~d1
    7a Terminal.ConnectivityNode ~a5
    7a Terminal.phases PhaseCode.s12N
    7b a Terminal
    7b Terminal.ConductingEquipment ~c2
    7b Terminal.ConnectivityNode ~a5
    7b Terminal.phases PhaseCode.s12N
"#;

/// A cut of the segment in its middle.
pub(crate) const CUT: &str = r#"
    92 a Cut
    92 IdentifiedObject.name "Cut 1"
    92 Cut.ACLineSegment ~51
    92 Cut.lengthFromTerminal1 "60"
    7d a Terminal
    7d Terminal.ConductingEquipment ~92
    7d ACDCTerminal.sequenceNumber "1"
    7e a Terminal
    7e Terminal.ConductingEquipment ~92
    7e ACDCTerminal.sequenceNumber "2"
"#;

/// The cut is closed.
pub(crate) const CLOSED: &str = r#"
    92 Switch.open "false"
"#;

/// What a model may carry without effect: names with language tags, datatypes, a model's header and a transformer's end.
pub(crate) const FURTHER: &str =
    "<urn:uuid:~51> <http://iec.ch/TC57/CIM100#IdentifiedObject.name> \"Line 1\"@en .\n\
    <urn:uuid:~51> <http://iec.ch/TC57/CIM100#IdentifiedObject.name> \"Ligne 1\" @fr-CA .\n\
    <urn:uuid:~51> <http://iec.ch/TC57/CIM100#Conductor.length> \"100\" ^^ <http://www.w3.org/2001/XMLSchema#decimal> .\n\
    <urn:uuid:~b1> <http://iec.ch/TC57/CIM100#Switch.normalOpen> \"false\"^^<http://www.w3.org/2001/XMLSchema#boolean> .\n\
    <urn:uuid:~f1> <http://www.w3.org/1999/02/22-rdf-syntax-ns#type> <http://iec.ch/TC57/61970-552/ModelDescription/1#FullModel> .\n\
    <urn:uuid:~f2> <http://www.w3.org/1999/02/22-rdf-syntax-ns#type> <http://iec.ch/TC57/CIM100#PowerTransformerEnd> .\n\
    <urn:uuid:~f2> <http://iec.ch/TC57/CIM100#TransformerEnd.Terminal> <urn:uuid:~76> .\n";

/// Appends the written form of a line: the last two digits of a subject, a property, and an object, which is a name, a text or `~`
/// and two digits. A line of fewer words is taken as it stands, and is no statement.
fn push_line(text: &mut String, line: &str) -> Result<(), NoMemory> {
    let Some((subject, rest)) = line.split_once(' ') else {
        return text.push_str(line);
    };
    let Some((prop, object)) = rest.split_once(' ') else {
        return text.push_str(line);
    };
    push_pieces(text, &["<urn:uuid:", ID_BEGIN, subject, "> "])?;
    push_prop(text, prop)?;
    push_object(text, object)
}

fn push_prop(text: &mut String, prop: &str) -> Result<(), NoMemory> {
    match prop {
        "a" => text.push_str("<http://www.w3.org/1999/02/22-rdf-syntax-ns#type> "),
        _ => push_pieces(text, &["<http://iec.ch/TC57/CIM100#", prop, "> "]),
    }
}

fn push_object(text: &mut String, object: &str) -> Result<(), NoMemory> {
    match object.strip_prefix("~") {
        Some(id) => push_pieces(text, &["<urn:uuid:", ID_BEGIN, id, "> .\n"]),
        None if object.starts_with("\"") => push_pieces(text, &[object, " .\n"]),
        None => push_pieces(text, &["<http://iec.ch/TC57/CIM100#", object, "> .\n"]),
    }
}

/// Appends the written forms of lines, without one of them.
fn push_lines(text: &mut String, lines: &str, left_out: &str) -> Result<(), NoMemory> {
    for line in lines.lines() {
        let line = line.trim();
        if line != left_out {
            push_line(text, line)?;
        }
    }
    Ok(())
}

/// The first base without one of its lines, and further lines.
pub(crate) fn base(alloc: Global, left_out: &str, further: &[&str]) -> Result<String, NoMemory> {
    let mut text = String::new(alloc);
    push_lines(&mut text, FIRST, left_out)?;
    for lines in further {
        push_lines(&mut text, lines, "")?;
    }
    Ok(text)
}

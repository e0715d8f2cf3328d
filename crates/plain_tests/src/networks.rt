//! Small networks, traced by the program and by a plain program of the rules.

use crate::bases::{CUT, LATERAL, OPENED, TRANSFORMER, base};
use crate::plain::plain_rows;
use crate::runs::{words, writes};
use cim_words::{Id, NoMemory, PhaseSet, Statement};
use nt_text::read_document;
use room_plain::Status;
use statement_set::StatementSet;
use std::alloc::Global;
use std::test::Fail;

/// A fuse that is normally open and closed now, behind the consumer's node, and a switch that is open, to a second source.
const SWITCHES: &str = r#"
    a4 a ConnectivityNode
    a5 a ConnectivityNode
    f1 a Fuse
    f1 Switch.normalOpen "true"
    f1 Switch.open "false"
    80 a Terminal
    80 Terminal.ConductingEquipment ~f1
    80 Terminal.ConnectivityNode ~a3
    81 a Terminal
    81 Terminal.ConductingEquipment ~f1
    81 Terminal.ConnectivityNode ~a4
    f2 a LoadBreakSwitch
    f2 Switch.normalOpen "1"
    82 a Terminal
    82 Terminal.ConductingEquipment ~f2
    82 Terminal.ConnectivityNode ~a4
    83 a Terminal
    83 Terminal.ConductingEquipment ~f2
    83 Terminal.ConnectivityNode ~a5
    84 a Terminal
    84 Terminal.ConductingEquipment ~e2
    e2 a EnergySource
"#;

/// Phase objects: of the segment's phases A and B, of the breaker's B and C, and of the consumer's C.
const PARTS: &str = r#"
    91 a ACLineSegmentPhase
    91 ACLineSegmentPhase.ACLineSegment ~51
    91 ACLineSegmentPhase.phase SinglePhaseKind.A
    92 a ACLineSegmentPhase
    92 ACLineSegmentPhase.ACLineSegment ~51
    92 ACLineSegmentPhase.phase SinglePhaseKind.B
    93 a SwitchPhase
    93 SwitchPhase.Switch ~b1
    93 SwitchPhase.phaseSide1 SinglePhaseKind.B
    94 a SwitchPhase
    94 SwitchPhase.Switch ~b1
    94 SwitchPhase.phaseSide1 SinglePhaseKind.C
    95 a EnergyConsumerPhase
    95 EnergyConsumerPhase.EnergyConsumer ~c1
    95 EnergyConsumerPhase.phase SinglePhaseKind.C
"#;

/// A busbar section with a stated phase at one of its two terminals, a capacitor of a class without a meaning behind it, and a
/// segment whose terminals are numbered against their order.
const BUSBAR: &str = r#"
    a4 a ConnectivityNode
    a5 a ConnectivityNode
    b2 a BusbarSection
    80 a Terminal
    80 Terminal.ConductingEquipment ~b2
    80 Terminal.ConnectivityNode ~a3
    81 a Terminal
    81 Terminal.ConductingEquipment ~b2
    81 Terminal.ConnectivityNode ~a4
    81 Terminal.phases PhaseCode.ACN
    c3 a LinearShuntCompensator
    82 a Terminal
    82 Terminal.ConductingEquipment ~c3
    82 Terminal.ConnectivityNode ~a4
    83 a Terminal
    83 Terminal.ConductingEquipment ~c3
    83 Terminal.ConnectivityNode ~a1
    53 a ACLineSegment
    84 a Terminal
    84 Terminal.ConductingEquipment ~53
    84 Terminal.ConnectivityNode ~a4
    84 ACDCTerminal.sequenceNumber "2"
    85 a Terminal
    85 Terminal.ConductingEquipment ~53
    85 Terminal.ConnectivityNode ~a5
    85 Terminal.phases PhaseCode.AB
    85 ACDCTerminal.sequenceNumber "1"
"#;

/// A segment with marks that stand out of the order of their identifiers: a clamp at terminal 1 whose length is not stated, two
/// clamps at one place of which one has a consumer and the other a neutral, a cut behind them that is open and has a source at its
/// side 2, and a closed cut where the segment ends.
const MARKS: &str = r#"
    a4 a ConnectivityNode
    a5 a ConnectivityNode
    a6 a ConnectivityNode
    99 a Clamp
    99 Clamp.ACLineSegment ~51
    80 a Terminal
    80 Terminal.ConductingEquipment ~99
    80 Terminal.ConnectivityNode ~a6
    96 a Clamp
    96 Clamp.ACLineSegment ~51
    96 Clamp.lengthFromTerminal1 "20.5"
    81 a Terminal
    81 Terminal.ConductingEquipment ~96
    81 Terminal.phases PhaseCode.ABCN
    95 a Clamp
    95 Clamp.ACLineSegment ~51
    95 Clamp.lengthFromTerminal1 "2.05e1"
    82 a Terminal
    82 Terminal.ConductingEquipment ~95
    82 Terminal.ConnectivityNode ~a4
    c2 a EnergyConsumer
    83 a Terminal
    83 Terminal.ConductingEquipment ~c2
    83 Terminal.ConnectivityNode ~a4
    94 a Cut
    94 Cut.ACLineSegment ~51
    94 Cut.lengthFromTerminal1 "40"
    84 a Terminal
    84 Terminal.ConductingEquipment ~94
    84 Terminal.ConnectivityNode ~a5
    84 ACDCTerminal.sequenceNumber "2"
    85 a Terminal
    85 Terminal.ConductingEquipment ~94
    85 ACDCTerminal.sequenceNumber "1"
    e2 a EnergySource
    86 a Terminal
    86 Terminal.ConductingEquipment ~e2
    86 Terminal.ConnectivityNode ~a5
    93 a Cut
    93 Cut.ACLineSegment ~51
    93 Cut.lengthFromTerminal1 "100"
    93 Switch.normalOpen "false"
    87 a Terminal
    87 Terminal.ConductingEquipment ~93
    87 ACDCTerminal.sequenceNumber "1"
    88 a Terminal
    88 Terminal.ConductingEquipment ~93
    88 ACDCTerminal.sequenceNumber "2"
"#;

/// Two cuts at both ends of a segment that carries two phases, and a clamp between them.
const ENDS: &str = r#"
    91 a ACLineSegmentPhase
    91 ACLineSegmentPhase.ACLineSegment ~51
    91 ACLineSegmentPhase.phase SinglePhaseKind.A
    90 a ACLineSegmentPhase
    90 ACLineSegmentPhase.ACLineSegment ~51
    90 ACLineSegmentPhase.phase SinglePhaseKind.B
    94 a Cut
    94 Cut.ACLineSegment ~51
    94 Switch.open "false"
    80 a Terminal
    80 Terminal.ConductingEquipment ~94
    80 ACDCTerminal.sequenceNumber "1"
    81 a Terminal
    81 Terminal.ConductingEquipment ~94
    81 ACDCTerminal.sequenceNumber "2"
    93 a Cut
    93 Cut.ACLineSegment ~51
    93 Cut.lengthFromTerminal1 "100"
    82 a Terminal
    82 Terminal.ConductingEquipment ~93
    82 ACDCTerminal.sequenceNumber "2"
    83 a Terminal
    83 Terminal.ConductingEquipment ~93
    83 ACDCTerminal.sequenceNumber "1"
    95 a Clamp
    95 Clamp.ACLineSegment ~51
    95 Clamp.lengthFromTerminal1 "100e-1"
    84 a Terminal
    84 Terminal.ConductingEquipment ~95
    84 Terminal.phases PhaseCode.BC
"#;

/// Where traces begin, and in which phases.
const STARTS: &[&str] = &["e1 ABCN", "c1 AC", "51 Bs12", "b1 ABC"];

/// The same on a segment with marks.
const MARK_STARTS: &[&str] = &["93 AN", "94 ABC", "95 BCN"];

/// What stands in the networks beside the first base, and where traces begin.
const NETWORKS: &[(&str, &str, &[&str])] = &[
    ("first", "", STARTS),
    ("lateral", LATERAL, STARTS),
    ("transformer", TRANSFORMER, STARTS),
    ("opened", OPENED, STARTS),
    ("switches", SWITCHES, STARTS),
    ("parts", PARTS, STARTS),
    ("busbar", BUSBAR, STARTS),
    ("cut", CUT, STARTS),
    ("marks", MARKS, STARTS),
    ("ends", ENDS, STARTS),
    ("marks", MARKS, MARK_STARTS),
    ("ends", ENDS, MARK_STARTS),
];

/// The text of these rows.
fn text_of(alloc: Global, rows: &[(Id, PhaseSet)]) -> Result<Vec<u8>, NoMemory> {
    let mut text = Vec::from_slice(alloc, b"trace 0 ")?;
    text.extend_from_slice(rows.len().to_string(alloc)?.as_bytes())?;
    text.push(b'\n')?;
    for (id, phases) in rows {
        text.extend_from_slice(&id.text())?;
        text.push(b' ')?;
        phases.write_text(&mut text)?;
        text.push(b'\n')?;
    }
    Ok(text)
}

/// The statements of a base, in order.
fn statements_of(alloc: Global, base: &str) -> Result<Vec<Statement>, NoMemory> {
    if base.len() > 1_000_000 {
        return Ok(Vec::new(alloc));
    }
    let Ok(statements) = read_document(alloc, base.as_bytes()) else {
        return Ok(Vec::new(alloc));
    };
    let Ok(set) = StatementSet::from_list(alloc, statements) else {
        return Ok(Vec::new(alloc));
    };
    let mut statements = Vec::new(alloc);
    for statement in set.iter() {
        statements.push(statement.copy(alloc)?)?;
    }
    Ok(statements)
}

/// The text of the plain program's trace from the source and in the phases that a command names.
fn plain_text(alloc: Global, statements: &[Statement], command: &str) -> Result<Vec<u8>, NoMemory> {
    let words = words(alloc, command)?;
    let [_, _, source, phases] = words.as_slice() else {
        return Ok(Vec::new(alloc));
    };
    let Ok(source) = Id::read_plain(source) else {
        return Ok(Vec::new(alloc));
    };
    let phases = PhaseSet::read_text(phases).unwrap_or(PhaseSet::EMPTY);
    text_of(alloc, &plain_rows(alloc, statements, source, phases)?)
}

/// Whether the program's trace of a base is that of the plain program of its statements.
fn is_plain(
    alloc: Global,
    base: &str,
    statements: &[Statement],
    start: &str,
) -> Result<bool, NoMemory> {
    let command = format!(in alloc; "trace base ~{start}")?;
    let text = plain_text(alloc, statements, &command)?;
    writes(alloc, base.as_bytes(), &command, Status::Ok, &text)
}

/// Whether that is so of the first base with further statements, from each start.
fn are_plain(alloc: Global, further: &str, starts: &[&str]) -> Result<bool, NoMemory> {
    let base = base(alloc, "", &[further])?;
    let statements = statements_of(alloc, &base)?;
    for start in starts {
        if !is_plain(alloc, &base, &statements, start)? {
            return Ok(false);
        }
    }
    Ok(true)
}

#[test]
fn traces_are_those_of_the_plain_program(rt: HostRuntime) -> Result<(), Fail> {
    for (name, further, starts) in NETWORKS {
        assert!(rt; are_plain(rt.alloc(), further, starts)?, "{name}");
    }
    Ok(())
}

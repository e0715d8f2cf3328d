//! A plain program of the rules of the network, which looks everything up in the list of statements: what the trace is compared with.

use cim_words::{Class, Id, KnownProp, Length, NoMemory, Object, Phase, PhaseSet, Prop, Statement};
use std::alloc::Global;

const PHASES: [Phase; 6] = [Phase::A, Phase::B, Phase::C, Phase::N, Phase::S1, Phase::S2];

/// A terminal in one of its phases, with what its links depend on.
#[derive(Clone, Copy, Drop)]
struct Point {
    terminal: Id,
    phase: Phase,
    owner: Option<Id>,
    node: Option<Id>,
    class: Class,
    passes: bool,
    stand: Option<Stand>,
    reached: bool,
}

/// How far from terminal 1 something stands on a segment, and whether before (0), at (1) or behind (2) what is at that length.
type Spot = (u64, u8);

/// Where on a segment a terminal stands, and whether the segment carries its phase.
#[derive(Clone, Copy, Drop)]
struct Stand {
    segment: Id,
    spot: Spot,
    carries: bool,
}

/// What a subject says by a property.
fn said(statements: &[Statement], subject: Id, known: KnownProp) -> Option<&Object> {
    for statement in statements {
        if statement.subject == subject && statement.prop == Prop::Known(known) {
            return Some(&statement.object);
        }
    }
    None
}

fn id_said(statements: &[Statement], subject: Id, known: KnownProp) -> Option<Id> {
    match said(statements, subject, known)? {
        Object::Id(id) => Some(*id),
        _ => None,
    }
}

fn class_said(statements: &[Statement], subject: Id) -> Class {
    match said(statements, subject, KnownProp::RDF_TYPE) {
        Some(Object::Name(name)) => Class::of_iri(name.iri()),
        _ => Class::Other,
    }
}

fn is_said_true(statements: &[Statement], subject: Id, known: KnownProp) -> Option<bool> {
    match said(statements, subject, known)? {
        Object::Text(text) => Some(text.text() == "true" || text.text() == "1"),
        _ => None,
    }
}

fn length_said(statements: &[Statement], subject: Id, known: KnownProp) -> u64 {
    match said(statements, subject, known) {
        Some(Object::Text(text)) => { Length::read(text.text()).map_or(0, |length| length.mm) }
        _ => 0,
    }
}

fn kind_said(statements: &[Statement], subject: Id, known: KnownProp) -> Option<PhaseSet> {
    match said(statements, subject, known)? {
        Object::Name(name) => PhaseSet::of_kind_iri(name.iri()).ok(),
        _ => None,
    }
}

/// The phase that a subject states where it is a phase object of a piece of equipment.
fn part_phase(statements: &[Statement], part: Id, equipment: Id) -> Option<PhaseSet> {
    let (names, states) = match class_said(statements, part) {
        Class::ACLineSegmentPhase => (KnownProp::SEGMENT_OF_PHASE, KnownProp::SEGMENT_PHASE),
        Class::EnergyConsumerPhase => (KnownProp::CONSUMER_OF_PHASE, KnownProp::CONSUMER_PHASE),
        Class::SwitchPhase => (KnownProp::SWITCH_OF_PHASE, KnownProp::PHASE_SIDE_1),
        _ => return None,
    };
    if id_said(statements, part, names)? != equipment {
        return None;
    }
    kind_said(statements, part, states)
}

/// The union of the phases that the phase objects of a piece of equipment state, if any does.
fn part_phases(statements: &[Statement], equipment: Id) -> Option<PhaseSet> {
    let mut union = None;
    for statement in statements {
        if let Some(phase) = part_phase(statements, statement.subject, equipment) {
            union = Some(union.unwrap_or(PhaseSet::EMPTY).join(phase));
        }
    }
    union
}

fn terminal_phases(statements: &[Statement], terminal: Id) -> PhaseSet {
    if let Some(Object::Name(code)) = said(statements, terminal, KnownProp::PHASES) {
        return PhaseSet::of_code_iri(code.iri()).unwrap_or(PhaseSet::EMPTY);
    }
    match id_said(statements, terminal, KnownProp::CONDUCTING_EQUIPMENT) {
        Some(owner) => part_phases(statements, owner).unwrap_or(PhaseSet::ABC),
        None => PhaseSet::ABC,
    }
}

fn segment_phases(statements: &[Statement], segment: Id) -> PhaseSet {
    if let Some(phases) = part_phases(statements, segment) {
        return phases;
    }
    let mut union = PhaseSet::EMPTY;
    for statement in statements {
        if id_said(
            statements,
            statement.subject,
            KnownProp::CONDUCTING_EQUIPMENT,
        ) == Some(segment)
        {
            union = union.join(terminal_phases(statements, statement.subject));
        }
    }
    union
}

/// Whether a piece of equipment passes a phase from terminal to terminal, transformers aside.
fn passes(statements: &[Statement], equipment: Id, class: Class, phase: Phase) -> bool {
    if class.is_switch() {
        let normally = is_said_true(statements, equipment, KnownProp::NORMAL_OPEN);
        let now = is_said_true(statements, equipment, KnownProp::SWITCH_OPEN);
        return !now.or(normally).unwrap_or(class.is_cut());
    }
    class.is_passing()
}

/// Whether a terminal is side 1 of what owns it: by its number, else as the one of lesser identifier.
fn is_side_one(statements: &[Statement], owner: Id, terminal: Id) -> bool {
    match said(statements, terminal, KnownProp::SEQUENCE_NUMBER) {
        Some(Object::Text(text)) => text.text() == "1",
        _ => statements.iter().all(|statement| {
            statement.subject >= terminal
                || id_said(
                    statements,
                    statement.subject,
                    KnownProp::CONDUCTING_EQUIPMENT,
                ) != Some(owner)
        }),
    }
}

/// The segment on which a cut or a clamp stands, and how far from terminal 1.
fn mark_said(statements: &[Statement], mark: Id) -> Option<(Id, u64)> {
    let (names, length) = match class_said(statements, mark) {
        Class::Cut => (KnownProp::CUT_SEGMENT, KnownProp::CUT_LENGTH),
        Class::Clamp => (KnownProp::CLAMP_SEGMENT, KnownProp::CLAMP_LENGTH),
        _ => return None,
    };
    let segment = id_said(statements, mark, names)?;
    Some((segment, length_said(statements, mark, length)))
}

/// Where a terminal stands: terminal 1 of a segment before all else, terminal 2 behind all else, a clamp at its length, and the
/// sides of a cut around its length.
fn stand_of(statements: &[Statement], owner: Id, terminal: Id, phase: Phase) -> Option<Stand> {
    let is_one = is_side_one(statements, owner, terminal);
    let (segment, spot) = match class_said(statements, owner) {
        Class::ACLineSegment => (owner, if is_one { (0, 0) } else { (u64::MAX, 2) }),
        class => {
            let (segment, length) = mark_said(statements, owner)?;
            let side = match class {
                Class::Cut if is_one => 0,
                Class::Cut => 2,
                _ => 1,
            };
            (segment, (length, side))
        }
    };
    Some(Stand {
        segment,
        spot,
        carries: segment_phases(statements, segment).has(phase),
    })
}

/// The cuts of the network, each with its segment and its length there.
fn cuts_of(alloc: Global, statements: &[Statement]) -> Result<Vec<(Id, u64)>, NoMemory> {
    let mut cuts = Vec::new(alloc);
    for statement in statements {
        let mark = statement.subject;
        if statement.prop != Prop::Known(KnownProp::RDF_TYPE)
            || !class_said(statements, mark).is_cut()
        {
            continue;
        }
        if let Some(cut) = mark_said(statements, mark) {
            cuts.push(cut)?;
        }
    }
    Ok(cuts)
}

/// Whether the first spot lies strictly between the others.
fn lies_between(spot: Spot, a: Spot, b: Spot) -> bool {
    a < spot && spot < b || b < spot && spot < a
}

/// Whether no cut of their segment lies between two terminals.
fn in_one_section(cuts: &[(Id, u64)], a: Stand, b: Stand) -> bool {
    a.segment == b.segment
        && !cuts.iter().any(|(segment, length)| {
            *segment == a.segment && lies_between((*length, 1), a.spot, b.spot)
        })
}

/// The points of the network, with those marked at which a trace begins.
fn points(
    alloc: Global,
    statements: &[Statement],
    source: Id,
    asked: PhaseSet,
) -> Result<Vec<Point>, NoMemory> {
    let mut points = Vec::new(alloc);
    for statement in statements {
        let terminal = statement.subject;
        if statement.prop != Prop::Known(KnownProp::RDF_TYPE)
            || !class_said(statements, terminal).is_terminal()
        {
            continue;
        }
        let owner = id_said(statements, terminal, KnownProp::CONDUCTING_EQUIPMENT);
        let phases = terminal_phases(statements, terminal);
        for phase in PHASES {
            if !phases.has(phase) {
                continue;
            }
            let class = owner.map_or(Class::Other, |owner| class_said(statements, owner));
            points.push(Point {
                terminal,
                phase,
                owner,
                node: id_said(statements, terminal, KnownProp::CONNECTIVITY_NODE),
                class,
                passes: owner.is_some_and(|owner| passes(statements, owner, class, phase)),
                stand: owner.and_then(|owner| stand_of(statements, owner, terminal, phase)),
                reached: owner == Some(source) && asked.has(phase),
            })?;
        }
    }
    Ok(points)
}

/// Whether a transformer passes a phase of one terminal to a phase of another.
fn transforms(from: Phase, to: Phase) -> bool {
    match from {
        Phase::N => false,
        Phase::S1 | Phase::S2 => to == from,
        Phase::A | Phase::B | Phase::C => to == from || to == Phase::S1 || to == Phase::S2,
    }
}

fn are_linked(cuts: &[(Id, u64)], a: &Point, b: &Point) -> bool {
    if a.phase == b.phase && a.node.is_some() && a.node == b.node {
        return true;
    }
    if let (Some(here), Some(there)) = (a.stand, b.stand) {
        if a.phase == b.phase && here.carries && in_one_section(cuts, here, there) {
            return true;
        }
    }
    if a.owner.is_none() || a.owner != b.owner {
        return false;
    }
    if a.class.is_transformer() {
        return a.terminal != b.terminal && transforms(a.phase, b.phase);
    }
    a.passes && a.phase == b.phase
}

/// The points with those marked too that are linked from a marked one.
fn spread(alloc: Global, cuts: &[(Id, u64)], points: &[Point]) -> Result<Vec<Point>, NoMemory> {
    let mut next = Vec::new(alloc);
    for point in points {
        let linked = points
            .iter()
            .any(|other| other.reached && are_linked(cuts, other, point));
        next.push(Point {
            reached: point.reached || linked,
            ..*point
        })?;
    }
    Ok(next)
}

/// Whether a point counts for a piece of equipment: its owner, and the segment on which it stands, where that carries its phase.
fn counts_for(point: &Point, equipment: Id) -> bool {
    point.owner == Some(equipment)
        || point
            .stand
            .is_some_and(|stand| stand.carries && stand.segment == equipment)
}

/// The phases in which a piece of equipment is reached.
fn reached_phases(points: &[Point], equipment: Id) -> PhaseSet {
    let mut phases = PhaseSet::EMPTY;
    for point in points {
        if point.reached && counts_for(point, equipment) {
            phases = phases.join(only(point.phase));
        }
    }
    phases
}

fn only(phase: Phase) -> PhaseSet {
    PhaseSet {
        a: phase == Phase::A,
        b: phase == Phase::B,
        c: phase == Phase::C,
        n: phase == Phase::N,
        s1: phase == Phase::S1,
        s2: phase == Phase::S2,
    }
}

/// The rows of a trace, one after another in the order of the statements, which is ascending.
pub(crate) fn plain_rows(
    alloc: Global,
    statements: &[Statement],
    source: Id,
    asked: PhaseSet,
) -> Result<Vec<(Id, PhaseSet)>, NoMemory> {
    let cuts = cuts_of(alloc, statements)?;
    let mut points = points(alloc, statements, source, asked)?;
    for _ in 0..points.len() {
        points = spread(alloc, &cuts, &points)?;
    }
    let mut rows = Vec::new(alloc);
    for statement in statements {
        let phases = reached_phases(&points, statement.subject);
        if statement.prop == Prop::Known(KnownProp::RDF_TYPE) && !phases.is_empty() {
            rows.push((statement.subject, phases))?;
        }
    }
    Ok(rows)
}

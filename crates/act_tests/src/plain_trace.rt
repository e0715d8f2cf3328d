//! A plain program of reach, over the table of the network and the temporary items.

use crate::network::{AB, ABC, Equipment, NETWORK, PHASES};
use crate::plain_judge::{Plain, equipment};
use cim_words::{Id, NoMemory, Phase, PhaseSet};
use room_words::{Anchor, TempItem};
use std::alloc::Global;

/// How far from terminal 1 something stands on a segment, and whether before (0), at (1) or behind (2) what is at that length.
type Spot = (u64, u8);

/// A terminal: what owns it, where it stands, its phases, and where on a segment.
#[derive(Clone, Copy, Drop)]
struct Terminal {
    owner: Id,
    place: Option<Anchor>,
    phases: PhaseSet,
    stands: Option<(Id, Spot)>,
}

/// A terminal in one of its phases.
#[derive(Clone, Copy, Drop)]
struct Point {
    terminal: Terminal,
    phase: Phase,
    reached: bool,
}

/// A network that is live: the items with their positions, and the cuts of each segment.
#[derive(Drop)]
struct Live<'a> {
    plain: &'a Plain,
    cuts: Vec<(Id, u64)>,
}

fn segment_phases(segment: Id) -> PhaseSet {
    match equipment(segment) {
        Some(one) if one.legs.iter().all(|leg| leg.2) => AB,
        _ => ABC,
    }
}

/// Where side 1 or 2 of a piece of equipment stands on a segment.
fn stand(one: &Equipment, side: usize) -> Option<(Id, Spot)> {
    if one.class.is_segment() {
        let spot = if side == 0 { (0, 0) } else { (u64::MAX, 2) };
        return Some((Id::of(one.id), spot));
    }
    let (segment, metres) = one.stands?;
    let order = match (one.class.is_cut(), side) {
        (false, _) => 1,
        (true, 0) => 0,
        (true, _) => 2,
    };
    Some((Id::of(segment), (metres.saturating_mul(1000), order)))
}

fn push_equipment(terminals: &mut Vec<Terminal>, one: &Equipment) -> Result<(), NoMemory> {
    for (side, leg) in one.legs.iter().enumerate() {
        let (_, node, is_ab) = *leg;
        terminals.push(Terminal {
            owner: Id::of(one.id),
            place: node.map(|node| Anchor::Node(Id::of(node))),
            phases: if is_ab { AB } else { ABC },
            stands: stand(one, side),
        })?;
    }
    Ok(())
}

/// Side 1 of an item.
fn side_one(item: &TempItem) -> Terminal {
    match *item {
        TempItem::Cut {
            id,
            segment,
            length,
            ..
        } => Terminal {
            owner: id,
            place: Some(Anchor::Side(id, 1)),
            phases: segment_phases(segment),
            stands: Some((segment, (length.mm, 0))),
        },
        TempItem::Clamp {
            id,
            segment,
            length,
        } => Terminal {
            owner: id,
            place: Some(Anchor::Side(id, 1)),
            phases: segment_phases(segment),
            stands: Some((segment, (length.mm, 1))),
        },
        TempItem::Jumper {
            id,
            first,
            phases,
            ..
        } => Terminal {
            owner: id,
            place: Some(first),
            phases,
            stands: None,
        },
        TempItem::Ground { id, at, phases } => Terminal {
            owner: id,
            place: Some(at),
            phases,
            stands: None,
        },
    }
}

/// Side 2 of a cut or a jumper.
fn side_two(item: &TempItem) -> Option<Terminal> {
    match *item {
        TempItem::Cut {
            id,
            segment,
            length,
            ..
        } => Some(Terminal {
            owner: id,
            place: Some(Anchor::Side(id, 2)),
            phases: segment_phases(segment),
            stands: Some((segment, (length.mm, 2))),
        }),
        TempItem::Jumper {
            id,
            second,
            phases,
            ..
        } => Some(Terminal {
            owner: id,
            place: Some(second),
            phases,
            stands: None,
        }),
        _ => None,
    }
}

fn terminals(alloc: Global, plain: &Plain) -> Result<Vec<Terminal>, NoMemory> {
    let mut terminals = Vec::new(alloc);
    for one in &NETWORK {
        push_equipment(&mut terminals, one)?;
    }
    for item in &plain.items {
        terminals.push(side_one(item))?;
        if let Some(terminal) = side_two(item) {
            terminals.push(terminal)?;
        }
    }
    Ok(terminals)
}

fn cuts(alloc: Global, plain: &Plain) -> Result<Vec<(Id, u64)>, NoMemory> {
    let mut cuts = Vec::new(alloc);
    for one in &NETWORK {
        for (_, at, is_cut) in plain.marks(alloc, Id::of(one.id))? {
            if is_cut {
                cuts.push((Id::of(one.id), at))?;
            }
        }
    }
    Ok(cuts)
}

fn points(
    alloc: Global,
    plain: &Plain,
    source: Id,
    asked: PhaseSet,
) -> Result<Vec<Point>, NoMemory> {
    let mut points = Vec::new(alloc);
    for terminal in terminals(alloc, plain)? {
        for phase in PHASES {
            if terminal.phases.has(phase) {
                points.push(Point {
                    terminal,
                    phase,
                    reached: terminal.owner == source && asked.has(phase),
                })?;
            }
        }
    }
    Ok(points)
}

fn lies_between(spot: Spot, a: Spot, b: Spot) -> bool {
    a < spot && spot < b || b < spot && spot < a
}

impl Live<'_> {
    fn in_one_section(&self, a: &Terminal, b: &Terminal, phase: Phase) -> bool {
        let (Some((segment, here)), Some((other, there))) = (a.stands, b.stands) else {
            return false;
        };
        segment == other
            && segment_phases(segment).has(phase)
            && !self.cuts.iter().any(|(on, at)| *on == segment
                && lies_between((*at, 1), here, there))
    }

    /// Whether current goes through what owns both.
    fn passes(&self, owner: Id) -> bool {
        equipment(owner).is_some_and(|one| one.class.is_passing())
            || self.plain.is_open(owner) == Some(false)
    }

    fn are_linked(&self, a: &Point, b: &Point) -> bool {
        let (one, other) = (&a.terminal, &b.terminal);
        a.phase == b.phase
            && (one.place.is_some() && one.place == other.place
                || self.in_one_section(one, other, a.phase)
                || one.owner == other.owner && self.passes(one.owner))
    }

    /// The points with those marked too that are linked from a marked one.
    fn spread(&self, alloc: Global, points: &[Point]) -> Result<Vec<Point>, NoMemory> {
        let mut next = Vec::new(alloc);
        for point in points {
            let linked = points
                .iter()
                .any(|other| other.reached && self.are_linked(other, point));
            next.push(Point {
                reached: point.reached || linked,
                ..*point
            })?;
        }
        Ok(next)
    }
}

/// The points that are reached.
#[derive(Drop)]
pub(crate) struct Reached {
    points: Vec<Point>,
}

fn count(points: &[Point]) -> usize {
    points.iter().filter(|point| point.reached).count()
}

/// What is reached from a source.
pub(crate) fn reach_from(
    alloc: Global,
    plain: &Plain,
    source: Id,
    asked: PhaseSet,
) -> Result<Reached, NoMemory> {
    let live = Live {
        plain,
        cuts: cuts(alloc, plain)?,
    };
    let mut points = points(alloc, plain, source, asked)?;
    for _ in 0..points.len() {
        let next = live.spread(alloc, &points)?;
        let ended = count(&next) == count(&points);
        points = next;
        if ended {
            break;
        }
    }
    Ok(Reached { points })
}

fn only(phase: Phase) -> PhaseSet {
    PhaseSet {
        a: phase == Phase::A,
        b: phase == Phase::B,
        c: phase == Phase::C,
        n: phase == Phase::N,
        s1: phase == Phase::S1,
        s2: phase == Phase::S2,
    }
}

impl Reached {
    /// The phases in which equipment or an item is reached.
    pub(crate) fn phases(&self, id: Id) -> PhaseSet {
        let mut phases = PhaseSet::EMPTY;
        for point in &self.points {
            if point.reached && counts_for(point, id) {
                phases = phases.join(only(point.phase));
            }
        }
        phases
    }
}

/// Whether a point counts for what has an identifier: its owner, and the segment on which it stands, where that has its phase.
fn counts_for(point: &Point, id: Id) -> bool {
    point.terminal.owner == id
        || point.terminal.stands.is_some_and(|(segment, _)| segment == id
            && segment_phases(id).has(point.phase))
}

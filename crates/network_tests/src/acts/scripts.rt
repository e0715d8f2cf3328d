//! Orders one after another, and the overlays after them.

use super::{
    A, A1, A6, AB, B1, CUT_92, CUT_TWO, FEEDER, JUMPER_ONE, MORE_BREAKERS, Order, S51,
    SECOND_SOURCE, index_of, judged,
};
use cim_records::Index;
use cim_words::{Id, Length, PhaseSet};
use room_words::{ActRefusal, Anchor, Overlay, Position, TempItem};
use std::alloc::Global;
use std::test::Fail;

const ABC: PhaseSet = PhaseSet::ABC;

const B2: Id = Id { number: 0xB2 };

const B3: Id = Id { number: 0xB3 };

/// What is expected of an act: a refusal, or these items and positions.
#[derive(Clone, Copy, Drop)]
enum Want {
    Refused(ActRefusal),
    Makes(&'static [TempItem], &'static [Position]),
}

type Step = (Order, Want);

const GROUND_ONE: Anchor = Anchor::Side(Id { number: 0x97 }, 1);

const CLAMP_TWO: Anchor = Anchor::Side(Id { number: 0x91 }, 2);

const CUT_93: TempItem = TempItem::Cut {
    id: Id { number: 0x93 },
    segment: S51,
    length: Length { mm: 0 },
    is_open: true,
};

const CUT_94: TempItem = TempItem::Cut {
    id: Id { number: 0x94 },
    segment: S51,
    length: Length { mm: 100_000 },
    is_open: true,
};

const CLAMP_9A: TempItem = TempItem::Clamp {
    id: Id { number: 0x9A },
    segment: S51,
    length: Length { mm: 500 },
};

const CLAMP_99: TempItem = TempItem::Clamp {
    id: Id { number: 0x99 },
    segment: S51,
    length: Length { mm: 500 },
};

/// Cuts at both ends of the segment, and clamps at one length: no cut stands where another mark does.
const MARKS: [Step; 9] = [
    (Order::Cut(0x93, 0x51, 0), Want::Makes(&[CUT_93], &[])),
    (
        Order::Cut(0x94, 0x51, 100_000),
        Want::Makes(&[CUT_93, CUT_94], &[]),
    ),
    (
        Order::Cut(0x95, 0x51, 0),
        Want::Refused(ActRefusal::SamePlace(Id { number: 0x93 })),
    ),
    (
        Order::Clamp(0x95, 0x51, 0),
        Want::Refused(ActRefusal::SamePlace(Id { number: 0x93 })),
    ),
    (
        Order::Cut(0x95, 0x51, 100_001),
        Want::Refused(ActRefusal::Length),
    ),
    (
        Order::Clamp(0x9A, 0x51, 500),
        Want::Makes(&[CUT_93, CUT_94, CLAMP_9A], &[]),
    ),
    (
        Order::Clamp(0x99, 0x51, 500),
        Want::Makes(&[CUT_93, CUT_94, CLAMP_9A, CLAMP_99], &[]),
    ),
    (
        Order::Cut(0x95, 0x51, 500),
        Want::Refused(ActRefusal::SamePlace(Id { number: 0x99 })),
    ),
    (
        Order::Remove(0x94),
        Want::Makes(&[CUT_93, CLAMP_9A, CLAMP_99], &[]),
    ),
];

const CUT_92_CLOSED: TempItem = TempItem::Cut {
    id: Id { number: 0x92 },
    segment: S51,
    length: Length { mm: 60_000 },
    is_open: false,
};

const JUMPER_96: TempItem = TempItem::Jumper {
    id: Id { number: 0x96 },
    first: CUT_TWO,
    second: A6,
    phases: AB,
    is_open: false,
};

const JUMPER_96_OPEN: TempItem = TempItem::Jumper {
    id: Id { number: 0x96 },
    first: CUT_TWO,
    second: A6,
    phases: AB,
    is_open: true,
};

const GROUND_97: TempItem = TempItem::Ground {
    id: Id { number: 0x97 },
    at: A6,
    phases: ABC,
};

const GROUND_95: TempItem = TempItem::Ground {
    id: Id { number: 0x95 },
    at: CUT_TWO,
    phases: A,
};

const CLAMP_91: TempItem = TempItem::Clamp {
    id: Id { number: 0x91 },
    segment: S51,
    length: Length { mm: 40_000 },
};

/// A cut, and what is anchored at its second side: it goes away after them.
const ANCHORED: [Step; 14] = [
    (Order::Cut(0x92, 0x51, 60_000), Want::Makes(&[CUT_92], &[])),
    (
        Order::Jumper(0x96, CUT_TWO, A6, AB),
        Want::Makes(&[CUT_92, JUMPER_96], &[]),
    ),
    (
        Order::Remove(0x92),
        Want::Refused(ActRefusal::InUse(Id { number: 0x96 })),
    ),
    (
        Order::Ground(0x97, A6, ABC),
        Want::Makes(&[CUT_92, JUMPER_96, GROUND_97], &[]),
    ),
    (
        Order::Ground(0x98, GROUND_ONE, A),
        Want::Refused(ActRefusal::NoAnchor(1)),
    ),
    (
        Order::Ground(0x98, JUMPER_ONE, A),
        Want::Refused(ActRefusal::NoAnchor(1)),
    ),
    (Order::Remove(0x97), Want::Makes(&[CUT_92, JUMPER_96], &[])),
    (
        Order::Remove(0x97),
        Want::Refused(ActRefusal::Unknown(Id { number: 0x97 })),
    ),
    (
        Order::Ground(0x95, CUT_TWO, A),
        Want::Makes(&[CUT_92, JUMPER_96, GROUND_95], &[]),
    ),
    (
        Order::Remove(0x92),
        Want::Refused(ActRefusal::InUse(Id { number: 0x96 })),
    ),
    (Order::Remove(0x96), Want::Makes(&[CUT_92, GROUND_95], &[])),
    (
        Order::Remove(0x92),
        Want::Refused(ActRefusal::InUse(Id { number: 0x95 })),
    ),
    (Order::Remove(0x95), Want::Makes(&[CUT_92], &[])),
    (Order::Remove(0x92), Want::Makes(&[], &[])),
];

/// A temporary cut and a jumper are opened and closed where they stand, and a clamp and a ground are not.
const SWITCHED: [Step; 18] = [
    (Order::Cut(0x92, 0x51, 60_000), Want::Makes(&[CUT_92], &[])),
    (
        Order::Jumper(0x96, CUT_TWO, A6, AB),
        Want::Makes(&[CUT_92, JUMPER_96], &[]),
    ),
    (
        Order::Clamp(0x91, 0x51, 40_000),
        Want::Makes(&[CUT_92, JUMPER_96, CLAMP_91], &[]),
    ),
    (
        Order::Ground(0x97, A6, ABC),
        Want::Makes(&[CUT_92, JUMPER_96, CLAMP_91, GROUND_97], &[]),
    ),
    (
        Order::Clamp(0x92, 0x51, 1),
        Want::Refused(ActRefusal::Taken(Id { number: 0x92 })),
    ),
    (
        Order::Open(0x91),
        Want::Refused(ActRefusal::Kind(Id { number: 0x91 })),
    ),
    (
        Order::Close(0x97),
        Want::Refused(ActRefusal::Kind(Id { number: 0x97 })),
    ),
    (
        Order::Jumper(0x98, A1, CLAMP_TWO, A),
        Want::Refused(ActRefusal::NoAnchor(2)),
    ),
    (
        Order::Release(0x96),
        Want::Refused(ActRefusal::Kind(Id { number: 0x96 })),
    ),
    (
        Order::Release(0x92),
        Want::Refused(ActRefusal::Kind(Id { number: 0x92 })),
    ),
    (Order::Close(0x96), Want::Refused(ActRefusal::Already)),
    (
        Order::Open(0x96),
        Want::Makes(&[CUT_92, JUMPER_96_OPEN, CLAMP_91, GROUND_97], &[]),
    ),
    (Order::Open(0x96), Want::Refused(ActRefusal::Already)),
    (
        Order::Close(0x96),
        Want::Makes(&[CUT_92, JUMPER_96, CLAMP_91, GROUND_97], &[]),
    ),
    (Order::Open(0x92), Want::Refused(ActRefusal::Already)),
    (
        Order::Close(0x92),
        Want::Makes(&[CUT_92_CLOSED, JUMPER_96, CLAMP_91, GROUND_97], &[]),
    ),
    (Order::Close(0x92), Want::Refused(ActRefusal::Already)),
    (
        Order::Open(0x92),
        Want::Makes(&[CUT_92, JUMPER_96, CLAMP_91, GROUND_97], &[]),
    ),
];

const B1_OPEN: Position = Position {
    switch: B1,
    is_open: true,
};

const B2_OPEN: Position = Position {
    switch: B2,
    is_open: true,
};

const B3_OPEN: Position = Position {
    switch: B3,
    is_open: true,
};

const B1_CLOSED: Position = Position {
    switch: B1,
    is_open: false,
};

const B2_CLOSED: Position = Position {
    switch: B2,
    is_open: false,
};

/// The positions in force ascend by switch, whatever the order of the acts.
const HELD: [Step; 13] = [
    (Order::Open(0xB3), Want::Makes(&[], &[B3_OPEN])),
    (Order::Open(0xB1), Want::Makes(&[], &[B1_OPEN, B3_OPEN])),
    (Order::Open(0xB2), Want::Refused(ActRefusal::Already)),
    (
        Order::Close(0xB2),
        Want::Makes(&[], &[B1_OPEN, B2_CLOSED, B3_OPEN]),
    ),
    (Order::Close(0xB2), Want::Refused(ActRefusal::Already)),
    (Order::Open(0xB3), Want::Refused(ActRefusal::Already)),
    (
        Order::Open(0xB2),
        Want::Makes(&[], &[B1_OPEN, B2_OPEN, B3_OPEN]),
    ),
    (
        Order::Close(0xB1),
        Want::Makes(&[], &[B1_CLOSED, B2_OPEN, B3_OPEN]),
    ),
    (Order::Release(0xB1), Want::Makes(&[], &[B2_OPEN, B3_OPEN])),
    (Order::Release(0xB1), Want::Refused(ActRefusal::NotHeld)),
    (Order::Release(0xB3), Want::Makes(&[], &[B2_OPEN])),
    (Order::Release(0xB2), Want::Makes(&[], &[])),
    (Order::Release(0xB2), Want::Refused(ActRefusal::NotHeld)),
];

/// The overlay after a step, if all is as expected.
fn stepped(
    alloc: Global,
    index: &Index,
    overlay: Overlay,
    step: Step,
) -> Result<Option<Overlay>, Fail> {
    let (order, want) = step;
    match judged(alloc, index, &overlay, order)? {
        Ok(new) => Ok(if_wanted(new, want)),
        Err(why) if is_wanted(why, want) => Ok(Some(overlay)),
        Err(_) => Ok(None),
    }
}

fn is_wanted(why: ActRefusal, want: Want) -> bool {
    match want {
        Want::Refused(expected) => why == expected,
        Want::Makes(..) => false,
    }
}

/// An overlay, if it has just the items and positions that are wanted.
fn if_wanted(overlay: Overlay, want: Want) -> Option<Overlay> {
    match want {
        Want::Makes(items, positions) if has(&overlay, items, positions) => Some(overlay),
        _ => None,
    }
}

fn has(overlay: &Overlay, items: &[TempItem], positions: &[Position]) -> bool {
    overlay.items.as_slice() == items && overlay.positions.as_slice() == positions
}

/// How many steps go as expected, from the empty overlay and until one does not.
fn followed(alloc: Global, index: &Index, steps: &[Step]) -> Result<usize, Fail> {
    let mut overlay = Overlay::empty(alloc);
    for (count, step) in steps.iter().enumerate() {
        overlay = match stepped(alloc, index, overlay, *step)? {
            Some(new) => new,
            None => return Ok(count),
        };
    }
    Ok(steps.len())
}

#[test]
fn follows_orders_over_marks_and_items(rt: HostRuntime) -> Result<(), Fail> {
    let alloc = rt.alloc();
    let index = index_of(alloc, &[&FEEDER, &SECOND_SOURCE])?;
    assert_eq!(rt; followed(alloc, &index, &MARKS)?, MARKS.len());
    assert_eq!(rt; followed(alloc, &index, &ANCHORED)?, ANCHORED.len());
    assert_eq!(rt; followed(alloc, &index, &SWITCHED)?, SWITCHED.len());
    Ok(())
}

#[test]
fn follows_orders_over_switches(rt: HostRuntime) -> Result<(), Fail> {
    let alloc = rt.alloc();
    let index = index_of(alloc, &[&FEEDER, &MORE_BREAKERS])?;
    assert_eq!(rt; followed(alloc, &index, &HELD)?, HELD.len());
    Ok(())
}

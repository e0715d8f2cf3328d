//! Copies of overlays.

use cim_words::{Id, Length, Listed, PhaseSet};
use room_words::{Anchor, Overlay, Position, TempItem};
use std::test::Fail;

const ITEMS: &[TempItem] = &[
    TempItem::Cut {
        id: Id { number: 1 },
        segment: Id { number: 2 },
        length: Length { mm: 3 },
        is_open: true,
    },
    TempItem::Ground {
        id: Id { number: 4 },
        at: Anchor::Side(Id { number: 1 }, 2),
        phases: PhaseSet::ABC,
    },
];

const POSITIONS: &[Position] = &[Position {
    switch: Id { number: 5 },
    is_open: false,
}];

fn fill<T: Copy>(list: &mut Listed<T>, items: &[T]) -> bool {
    for item in items {
        if list.push(*item).is_err() {
            return false;
        }
    }
    true
}

#[test]
fn copies_overlays(rt: HostRuntime) -> Result<(), Fail> {
    let mut overlay = Overlay::empty(rt.alloc());
    assert!(rt; fill(&mut overlay.items, ITEMS) && fill(&mut overlay.positions, POSITIONS));
    let copy = overlay.copy(rt.alloc())?;
    assert!(rt; copy.items.as_slice() == ITEMS && copy.positions.as_slice() == POSITIONS);
    Ok(())
}

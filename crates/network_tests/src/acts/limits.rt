//! Segments, places and overlays at their limits.

use super::{
    A, A1, A2, A3, A6, CUT_92, CUT_ONE, CUT_TWO, FEEDER, Order, S51, SECOND_SOURCE, act, index_of,
    judged, refused,
};
use cim_records::Index;
use cim_words::{Id, Length, Listed, NoMemory};
use room_words::{ActRefusal, Anchor, Overlay, TempItem};
use std::alloc::Global;
use std::test::Fail;

/// The overlay after an act that puts an item after the others.
fn grown(alloc: Global, index: &Index, overlay: &Overlay, order: Order) -> Result<Overlay, Fail> {
    match judged(alloc, index, overlay, order)? {
        Ok(new) if is_grown(overlay, &new, order) => Ok(new),
        _ => Err(Fail::new("the overlay has not grown by the item")),
    }
}

fn is_grown(old: &Overlay, new: &Overlay, order: Order) -> bool {
    match new.items.as_slice() {
        [before @ .., last] => {
            before == old.items.as_slice() && Some(*last) == act(order).placed()
        }
        [] => false,
    }
}

/// Puts so many clamps on the segment, one at each millimetre.
fn add_clamps(items: &mut Vec<TempItem>, count: u64) -> Result<(), NoMemory> {
    for mm in 0..count {
        items.push(TempItem::Clamp {
            id: Id::of(0x1_0000 | u128::from(mm)),
            segment: S51,
            length: Length { mm },
        })?;
    }
    Ok(())
}

/// Puts so many grounds at a place, with identifiers from one on.
fn add_grounds(
    items: &mut Vec<TempItem>,
    first: u128,
    at: Anchor,
    count: u64,
) -> Result<(), NoMemory> {
    for number in 0..count {
        items.push(TempItem::Ground {
            id: Id::of(first | u128::from(number)),
            at,
            phases: A,
        })?;
    }
    Ok(())
}

fn overlay_of(alloc: Global, items: Vec<TempItem>) -> Overlay {
    Overlay {
        items: Listed::of(items),
        positions: Listed::empty(alloc),
    }
}

#[test]
fn a_segment_has_at_most_256_marks(rt: HostRuntime) -> Result<(), Fail> {
    let alloc = rt.alloc();
    let index = index_of(alloc, &[&FEEDER])?;
    let mut items = Vec::new(alloc);
    add_clamps(&mut items, 255)?;
    let before = overlay_of(alloc, items);
    let full = grown(alloc, &index, &before, Order::Cut(0x92, 0x51, 60_000))?;
    let crowded = Some(ActRefusal::Crowded(S51));
    assert!(rt; refused(alloc, &index, &full, Order::Cut(0x93, 0x51, 60_001))? == crowded);
    assert!(rt; refused(alloc, &index, &full, Order::Clamp(0x93, 0x51, 60_001))? == crowded);
    Ok(())
}

#[test]
fn a_place_has_at_most_1024_terminals(rt: HostRuntime) -> Result<(), Fail> {
    let alloc = rt.alloc();
    let index = index_of(alloc, &[&FEEDER])?;
    let mut items = vec![in alloc; CUT_92]?;
    add_grounds(&mut items, 0x2_0000, CUT_ONE, 1_022)?;
    add_grounds(&mut items, 0x3_0000, A1, 1_021)?;
    let before = overlay_of(alloc, items);
    let one_full = grown(alloc, &index, &before, Order::Ground(0x97, A1, A))?;
    let full = grown(
        alloc,
        &index,
        &one_full,
        Order::Jumper(0x96, CUT_ONE, A2, A),
    )?;
    let node = Some(ActRefusal::Crowded(Id { number: 0xA1 }));
    let item = Some(ActRefusal::Crowded(Id { number: 0x92 }));
    assert!(rt; refused(alloc, &index, &full, Order::Ground(0x98, A1, A))? == node);
    assert!(rt; refused(alloc, &index, &full, Order::Ground(0x98, CUT_ONE, A))? == item);
    assert!(rt; refused(alloc, &index, &full, Order::Jumper(0x98, A2, A1, A))? == node);
    assert!(rt; refused(alloc, &index, &full, Order::Jumper(0x98, CUT_ONE, A1, A))? == item);
    Ok(())
}

#[test]
fn an_overlay_has_at_most_4096_items(rt: HostRuntime) -> Result<(), Fail> {
    let alloc = rt.alloc();
    let index = index_of(alloc, &[&FEEDER, &SECOND_SOURCE])?;
    let mut items = Vec::new(alloc);
    add_clamps(&mut items, 95)?;
    add_grounds(&mut items, 0x2_0000, A1, 1_000)?;
    add_grounds(&mut items, 0x3_0000, A2, 1_000)?;
    add_grounds(&mut items, 0x4_0000, A3, 1_000)?;
    add_grounds(&mut items, 0x5_0000, A6, 1_000)?;
    let before = overlay_of(alloc, items);
    let full = grown(alloc, &index, &before, Order::Cut(0x92, 0x51, 60_000))?;
    let last = Some(ActRefusal::Full);
    assert!(rt; refused(alloc, &index, &full, Order::Clamp(0x91, 0x51, 40_000))? == last);
    assert!(rt; refused(alloc, &index, &full, Order::Jumper(0x96, CUT_TWO, A6, A))? == last);
    assert!(rt; refused(alloc, &index, &full, Order::Ground(0x97, CUT_ONE, A))? == last);
    assert!(rt; refused(alloc, &index, &full, Order::Open(0xB1))? == None);
    assert!(rt; refused(alloc, &index, &full, Order::Remove(0x92))? == None);
    Ok(())
}

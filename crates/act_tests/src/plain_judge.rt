//! A plain program of the tables of refusals and effects, over the table of the network, act by act.

use crate::network::{Equipment, NETWORK, NODES};
use cim_words::{Id, NoMemory, PhaseSet};
use room_words::{Act, ActRefusal, Anchor, Position, TempItem};
use std::alloc::Global;

/// The temporary items and the positions in force.
#[derive(Drop)]
pub(crate) struct Plain {
    pub(crate) items: Vec<TempItem>,
    pub(crate) positions: Vec<Position>,
}

/// A cut or a clamp on a segment: its identifier, how many millimetres it is from terminal 1, and whether it is a cut.
pub(crate) type Mark = (Id, u64, bool);

pub(crate) fn equipment(id: Id) -> Option<Equipment> {
    NETWORK.iter().find(|one| one.id == id.number).copied()
}

fn is_subject(id: Id) -> bool {
    NODES.contains(&id.number)
        || NETWORK.iter().any(|one| one.id == id.number
            || one.legs.iter().any(|leg| leg.0 == id.number))
}

/// A cut or a clamp of the network on a segment.
fn mark_of(one: &Equipment, segment: Id) -> Option<Mark> {
    let (on, metres) = one.stands?;
    if on != segment.number || metres > 1_000_000 {
        return None;
    }
    Some((Id::of(one.id), metres * 1000, one.class.is_cut()))
}

/// A temporary cut or clamp on a segment.
fn item_mark(item: &TempItem, segment: Id) -> Option<Mark> {
    match *item {
        TempItem::Cut {
            id,
            segment: on,
            length,
            ..
        } if on == segment => Some((id, length.mm, true)),
        TempItem::Clamp {
            id,
            segment: on,
            length,
        } if on == segment => Some((id, length.mm, false)),
        _ => None,
    }
}

/// Whether an item is anchored at a side of another one.
fn is_anchored(item: &TempItem, id: Id) -> bool {
    let is_side = |anchor: Anchor| matches!(anchor, Anchor::Side(of, _) if of == id);
    match *item {
        TempItem::Jumper { first, second, .. } => is_side(first) || is_side(second),
        TempItem::Ground { at, .. } => is_side(at),
        _ => false,
    }
}

/// How long a segment is, in millimetres.
fn most_length(segment: Equipment) -> u64 {
    segment
        .length
        .map_or(1_000_000_000_000, |metres| metres.saturating_mul(1000))
}

impl Plain {
    fn item(&self, id: Id) -> Option<TempItem> {
        self.items.iter().find(|item| item.id() == id).copied()
    }

    pub(crate) fn is_live(&self, id: Id) -> bool {
        equipment(id).is_some() || self.item(id).is_some()
    }

    fn is_taken(&self, id: Id) -> bool {
        is_subject(id) || self.item(id).is_some()
    }

    fn position(&self, switch: Id) -> Option<bool> {
        self.positions
            .iter()
            .find(|position| position.switch == switch)
            .map(|position| position.is_open)
    }

    /// Whether a switch, or a temporary cut or jumper, is open; none of anything else.
    pub(crate) fn is_open(&self, id: Id) -> Option<bool> {
        match self.item(id) {
            Some(TempItem::Cut { is_open, .. }) => Some(is_open),
            Some(TempItem::Jumper { is_open, .. }) => Some(is_open),
            Some(_) => None,
            None => {
                let switch = equipment(id).filter(|one| one.class.is_switch())?;
                Some(self.position(id).unwrap_or(switch.is_open))
            }
        }
    }

    /// The cuts and clamps on a segment.
    pub(crate) fn marks(&self, alloc: Global, segment: Id) -> Result<Vec<Mark>, NoMemory> {
        let mut marks = Vec::new(alloc);
        for one in &NETWORK {
            if let Some(mark) = mark_of(one, segment) {
                marks.push(mark)?;
            }
        }
        for item in &self.items {
            if let Some(mark) = item_mark(item, segment) {
                marks.push(mark)?;
            }
        }
        Ok(marks)
    }

    /// The least mark that a cut would meet at a length, or the cut that a clamp would.
    fn met(
        &self,
        alloc: Global,
        segment: Id,
        mm: u64,
        by_cut: bool,
    ) -> Result<Option<Id>, NoMemory> {
        let mut met: Option<Id> = None;
        for (id, at, is_cut) in self.marks(alloc, segment)? {
            if at == mm
                && (is_cut || by_cut)
                && met.map_or(true, |least| id.number < least.number)
            {
                met = Some(id);
            }
        }
        Ok(met)
    }

    fn has_place(&self, anchor: Anchor) -> bool {
        match anchor {
            Anchor::Node(id) => NODES.contains(&id.number),
            Anchor::Side(id, side) => match self.item(id) {
                Some(TempItem::Cut { .. }) => side == 1 || side == 2,
                Some(TempItem::Clamp { .. }) => side == 1,
                _ => false,
            },
        }
    }

    /// Why a switch is not opened or closed.
    fn unturned(&self, id: Id, open: bool) -> Option<ActRefusal> {
        if !self.is_live(id) {
            return Some(ActRefusal::Unknown(id));
        }
        match self.is_open(id) {
            None => Some(ActRefusal::Kind(id)),
            Some(now) if now == open => Some(ActRefusal::Already),
            Some(_) => None,
        }
    }

    /// Why the position of a switch is not taken away.
    fn unreleased(&self, id: Id) -> Option<ActRefusal> {
        if !self.is_live(id) {
            Some(ActRefusal::Unknown(id))
        } else if !equipment(id).is_some_and(|one| one.class.is_switch()) {
            Some(ActRefusal::Kind(id))
        } else if self.position(id).is_none() {
            Some(ActRefusal::NotHeld)
        } else {
            None
        }
    }

    /// Why an item is not taken away.
    fn unremoved(&self, id: Id) -> Option<ActRefusal> {
        if !self.is_live(id) {
            return Some(ActRefusal::Unknown(id));
        }
        if equipment(id).is_some() {
            return Some(ActRefusal::Permanent(id));
        }
        let user = self.items.iter().find(|item| is_anchored(item, id))?;
        Some(ActRefusal::InUse(user.id()))
    }

    /// Why a cut or a clamp is not placed.
    fn unmarked(
        &self,
        alloc: Global,
        new: Id,
        segment: Id,
        mm: u64,
        by_cut: bool,
    ) -> Result<Option<ActRefusal>, NoMemory> {
        if !self.is_live(segment) {
            return Ok(Some(ActRefusal::Unknown(segment)));
        }
        if self.is_taken(new) {
            return Ok(Some(ActRefusal::Taken(new)));
        }
        let Some(line) = equipment(segment).filter(|one| one.class.is_segment()) else {
            return Ok(Some(ActRefusal::Kind(segment)));
        };
        if mm > most_length(line) {
            return Ok(Some(ActRefusal::Length));
        }
        Ok(
            self.met(alloc, segment, mm, by_cut)?
                .map(ActRefusal::SamePlace),
        )
    }

    /// Why a jumper or a ground with these anchors is not placed.
    fn unanchored(
        &self,
        new: Id,
        first: Anchor,
        second: Option<Anchor>,
        phases: PhaseSet,
    ) -> Option<ActRefusal> {
        if self.is_taken(new) {
            Some(ActRefusal::Taken(new))
        } else if !self.has_place(first) {
            Some(ActRefusal::NoAnchor(1))
        } else if second.is_some_and(|anchor| !self.has_place(anchor)) {
            Some(ActRefusal::NoAnchor(2))
        } else if second == Some(first) {
            Some(ActRefusal::SameAnchor)
        } else if phases.is_empty() {
            Some(ActRefusal::Phases)
        } else {
            None
        }
    }

    /// Why an act is refused. The network is too small for a full overlay or a crowded place.
    pub(crate) fn refusal(&self, alloc: Global, act: &Act) -> Result<Option<ActRefusal>, NoMemory> {
        match *act {
            Act::OpenSwitch(id) => Ok(self.unturned(id, true)),
            Act::CloseSwitch(id) => Ok(self.unturned(id, false)),
            Act::Release(id) => Ok(self.unreleased(id)),
            Act::Remove(id) => Ok(self.unremoved(id)),
            Act::Cut {
                new_id,
                segment,
                length,
            } => self.unmarked(alloc, new_id, segment, length.mm, true),
            Act::Clamp {
                new_id,
                segment,
                length,
            } => self.unmarked(alloc, new_id, segment, length.mm, false),
            Act::Jumper {
                new_id,
                first,
                second,
                phases,
            } => Ok(self.unanchored(new_id, first, Some(second), phases)),
            Act::Ground { new_id, at, phases } => Ok(self.unanchored(new_id, at, None, phases)),
        }
    }

    /// Turns an item, or puts a position in force.
    fn turn(&mut self, id: Id, open: bool) -> Result<(), NoMemory> {
        for item in self.items.iter_mut() {
            match item {
                TempItem::Cut {
                    id: of,
                    is_open,
                    ..
                } if *of == id => {
                    *is_open = open;
                    return Ok(());
                }
                TempItem::Jumper {
                    id: of,
                    is_open,
                    ..
                } if *of == id => {
                    *is_open = open;
                    return Ok(());
                }
                _ => {}
            }
        }
        self.release(id);
        self.positions.push(Position {
            switch: id,
            is_open: open,
        })?;
        self.positions
            .sort_by_key(|position| position.switch.number)
    }

    fn release(&mut self, id: Id) {
        self.positions.retain(|position| position.switch != id);
    }

    /// Does an accepted act.
    pub(crate) fn act(&mut self, act: &Act) -> Result<(), NoMemory> {
        match *act {
            Act::OpenSwitch(id) => self.turn(id, true),
            Act::CloseSwitch(id) => self.turn(id, false),
            Act::Release(id) => {
                self.release(id);
                Ok(())
            }
            Act::Remove(id) => {
                self.items.retain(|item| item.id() != id);
                Ok(())
            }
            Act::Cut {
                new_id: id,
                segment,
                length,
            } => Ok(
                self.items.push(TempItem::Cut {
                    id,
                    segment,
                    length,
                    is_open: true,
                })?,
            ),
            Act::Clamp {
                new_id: id,
                segment,
                length,
            } => Ok(
                self.items.push(TempItem::Clamp {
                    id,
                    segment,
                    length,
                })?,
            ),
            Act::Jumper {
                new_id: id,
                first,
                second,
                phases,
            } => Ok(
                self.items.push(TempItem::Jumper {
                    id,
                    first,
                    second,
                    phases,
                    is_open: false,
                })?,
            ),
            Act::Ground {
                new_id: id,
                at,
                phases,
            } => Ok(self.items.push(TempItem::Ground { id, at, phases })?),
        }
    }
}

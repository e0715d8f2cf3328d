//! What consoles are to order.

use crate::feeder::id;
use cim_words::{Length, PhaseSet};
use room_words::{Act, Anchor};

/// Which orders a console gives, one after the other.
#[derive(Clone, Copy, Drop)]
pub(crate) enum Orders {
    /// The first console opens and closes the breaker, and each other one places and removes a ground of its own: none is refused.
    Apart,
    /// All open and close the breaker, and cut and join the segment at one place, with a ground of their own in between: what stands
    /// already is refused.
    Together,
}

impl Orders {
    /// The order of a console in one of its turns.
    pub(crate) fn act(self, console: u8, turn: u32) -> Act {
        match self {
            Orders::Apart if console == 1 => switched(turn % 2 == 0),
            Orders::Apart => grounded(console, turn % 2 == 0),
            Orders::Together => match turn % 3 {
                0 => switched(turn % 2 == 0),
                1 => grounded(console, turn % 2 == 1),
                _ => cut(turn % 2 == 0),
            },
        }
    }
}

/// The breaker is opened, or closed.
fn switched(opens: bool) -> Act {
    if opens {
        Act::OpenSwitch(id(0xb1))
    } else {
        Act::CloseSwitch(id(0xb1))
    }
}

/// The console's own ground is placed behind the segment, or removed.
fn grounded(console: u8, places: bool) -> Act {
    let own = id(0x100 + u16::from(console));
    if places {
        Act::Ground {
            new_id: own,
            at: Anchor::Node(id(0xa3)),
            phases: PhaseSet::ABC,
        }
    } else {
        Act::Remove(own)
    }
}

/// The segment is cut at 60 m, or joined there.
fn cut(cuts: bool) -> Act {
    if cuts {
        Act::Cut {
            new_id: id(0x92),
            segment: id(0x51),
            length: Length { mm: 60_000 },
        }
    } else {
        Act::Remove(id(0x92))
    }
}

//! Random switching orders, answered as the plain program answers them, with graphs that are those made from nothing.

ghost use Rattle.std.specs.Prelude.{◌<◌, IfOk};
ghost use Rattle.cim_model.specs.Profile.{IsFaultless};

use crate::graphs::are_same;
use crate::live::Live;
use crate::network::{AB, ABC, NETWORK, NODES, statements};
use crate::plain_judge::Plain;
use crate::plain_trace::{Reached, reach_from};
use cim_profile::first_break;
use cim_records::Index;
use cim_words::{Id, Length, NoMemory, PhaseSet};
use feeder_trace::Tracer;
use graph_pages::Graph;
use room_words::{Act, ActRefusal, Anchor, Overlay};
use std::alloc::Global;
use std::process::Abort;
use std::test::Fail;
use switching::ActDenied;
use temporary::overlay_stands;

const ACTS: usize = 2000;

/// Identifiers that orders name: equipment, a node, a terminal, what is nothing, and items.
const NAMED: [u128; 20] = [
    0xE1, 0xB1, 0x51, 0xC1, 0xD1, 0x52, 0x61, 0x62, 0xB2, 0xF1, 0xA2, 0x74, 0xFF, 0x91, 0x92, 0x93,
    0x94, 0x95, 0x96, 0x97,
];

/// Identifiers for what is placed: items more often than what is taken.
const NEW: [u128; 10] = [0x91, 0x92, 0x93, 0x94, 0x95, 0x96, 0x97, 0x98, 0x51, 0xA1];

const SEGMENTS: [u128; 8] = [0x51, 0x51, 0x51, 0x52, 0x52, 0x52, 0xB1, 0x91];

/// Lengths in millimetres: at the ends, at the marks of the model, beyond the end, beyond the limit.
const LENGTHS: [u64; 9] = [
    0,
    20_000,
    40_000,
    60_000,
    60_001,
    100_000,
    100_001,
    1_000_000_000_000,
    1_000_000_000_001,
];

const NODE_NUMBERS: [u128; 7] = [0xA1, 0xA2, 0xA3, 0xA4, 0xA5, 0xA6, 0x51];

const A: PhaseSet = PhaseSet { b: false, ..AB };

/// Numbers that look random: a linear congruential generator (Knuth's MMIX).
#[derive(Drop)]
struct Random {
    state: u64,
}

impl Random {
    /// A number below a bound.
    fn below(&mut self, bound: usize) -> usize
        requires { 0 < bound }
        ensures { result < bound }
    {
        self.state = self
            .state
            .wrapping_mul(6_364_136_223_846_793_005)
            .wrapping_add(1_442_695_040_888_963_407);
        (self.state >> 33) as usize % bound
    }

    fn named(&mut self) -> Id {
        Id::of(NAMED[self.below(20)])
    }

    fn new_id(&mut self) -> Id {
        Id::of(NEW[self.below(10)])
    }

    fn segment(&mut self) -> Id {
        Id::of(SEGMENTS[self.below(8)])
    }

    fn length(&mut self) -> Length {
        Length {
            mm: LENGTHS[self.below(9)],
        }
    }

    fn anchor(&mut self) -> Anchor {
        if self.below(2) == 0 {
            return Anchor::Node(Id::of(NODE_NUMBERS[self.below(7)]));
        }
        let side = match self.below(5) {
            0 | 1 => 1,
            2 | 3 => 2,
            _ => 3,
        };
        Anchor::Side(self.new_id(), side)
    }

    fn phases(&mut self) -> PhaseSet {
        match self.below(5) {
            0 => PhaseSet::EMPTY,
            1 => A,
            2 => AB,
            _ => ABC,
        }
    }

    fn act(&mut self) -> Act {
        match self.below(10) {
            0 | 1 => Act::OpenSwitch(self.named()),
            2 | 3 => Act::CloseSwitch(self.named()),
            4 => Act::Release(self.named()),
            5 => Act::Remove(self.named()),
            6 => Act::Cut {
                new_id: self.new_id(),
                segment: self.segment(),
                length: self.length(),
            },
            7 => Act::Clamp {
                new_id: self.new_id(),
                segment: self.segment(),
                length: self.length(),
            },
            8 => Act::Jumper {
                new_id: self.new_id(),
                first: self.anchor(),
                second: self.anchor(),
                phases: self.phases(),
            },
            _ => Act::Ground {
                new_id: self.new_id(),
                at: self.anchor(),
                phases: self.phases(),
            },
        }
    }
}

/// The network, looked up.
fn index_of(alloc: Global) -> Result<Index, Fail>
    ensures { IfOk result (λ index. IsFaultless index) }
{
    let set = statements(alloc)?;
    match first_break(alloc, &set)? {
        Some(found) => Err(Fail::new(found.rule)),
        None => Ok(Index::build(alloc, &set)?),
    }
}

/// Whether a trace has just the rows of what the plain program reached.
fn is_reached(tracer: &Tracer, plain: &Plain, want: &Reached) -> bool {
    let mut count = 0_usize;
    for one in &NETWORK {
        count = count.saturating_add(usize::from(!want.phases(Id::of(one.id)).is_empty()));
    }
    for item in &plain.items {
        count = count.saturating_add(usize::from(!want.phases(item.id()).is_empty()));
    }
    tracer.count() == count
        && (0..tracer.count()).all(|index| {
            index < tracer.count()
                && {
                    let (id, phases) = tracer.reached(index);
                    phases == want.phases(id)
                }
        })
}

/// Whether a trace is that of the plain program: from equipment and items, and from nothing else.
fn is_traced(
    alloc: Global,
    graph: &Graph,
    plain: &Plain,
    source: Id,
    asked: PhaseSet,
) -> Result<bool, NoMemory> {
    let want = reach_from(alloc, plain, source, asked)?;
    let mut tracer = Tracer::reserve(alloc, graph)?;
    let found = tracer.trace(graph, source, asked).is_ok();
    Ok(found == plain.is_live(source) && (!found || is_reached(&tracer, plain, &want)))
}

/// Whether traces from two sources, a consumer and an item are those of the plain program.
fn are_traced(alloc: Global, graph: &Graph, plain: &Plain) -> Result<bool, NoMemory> {
    for (source, asked) in [(0xE1, ABC), (0xC1, AB), (0xF1, ABC), (0x92, ABC)] {
        if !is_traced(alloc, graph, plain, Id::of(source), asked)? {
            return Ok(false);
        }
    }
    Ok(true)
}

/// All nodes, what is none, and the sides that items may have.
fn places(alloc: Global) -> Result<Vec<Anchor>, NoMemory> {
    let mut places = Vec::new(alloc);
    for node in NODES {
        places.push(Anchor::Node(Id::of(node)))?;
    }
    places.push(Anchor::Node(Id::of(0x51)))?;
    for item in NEW {
        places.push(Anchor::Side(Id::of(item), 1))?;
        places.push(Anchor::Side(Id::of(item), 2))?;
        places.push(Anchor::Side(Id::of(item), 3))?;
    }
    Ok(places)
}

/// Whether the patched graph is the one made from nothing.
fn is_as_rebuilt(alloc: Global, live: &Live, places: &[Anchor]) -> Result<bool, NoMemory> {
    let rebuilt = live.rebuilt(alloc)?;
    Ok(are_same(live.graph(), &rebuilt, places))
}

/// Gives an order, and says whether a share of the graph before it keeps what it held.
fn keeps_the_graph_before(
    alloc: Global,
    live: &mut Live,
    act: &Act,
    places: &[Anchor],
) -> Result<bool, ActDenied> {
    let rebuilt = live.rebuilt(alloc)?;
    let shared = live.graph().share()?;
    live.act(alloc, act)?;
    Ok(are_same(&shared, &rebuilt, places))
}

/// Whether what stands on the network stands there, the graph is the one made from nothing, and traces are those of the plain program.
fn is_right(
    alloc: Global,
    live: &Live,
    plain: &Plain,
    places: &[Anchor],
) -> Result<bool, NoMemory> {
    Ok(
        overlay_stands(live.index(), live.overlay())
            && is_as_rebuilt(alloc, live, places)?
            && are_traced(alloc, live.graph(), plain)?,
    )
}

/// How many of the fourteen refusals came: a bit for each but Crowded and Full, for which the network is too small.
fn bit_of(why: ActRefusal) -> u16 {
    match why {
        ActRefusal::Unknown(_) => 1,
        ActRefusal::Taken(_) => 2,
        ActRefusal::Kind(_) => 4,
        ActRefusal::Permanent(_) => 8,
        ActRefusal::Already => 16,
        ActRefusal::NotHeld => 32,
        ActRefusal::Length => 64,
        ActRefusal::SamePlace(_) => 128,
        ActRefusal::NoAnchor(_) => 256,
        ActRefusal::SameAnchor => 512,
        ActRefusal::Phases => 1024,
        ActRefusal::InUse(_) => 2048,
        ActRefusal::Crowded(_) | ActRefusal::Full => 0,
    }
}

/// Whether an overlay has just the items and positions of the plain program.
fn is_same(overlay: &Overlay, plain: &Plain) -> bool {
    overlay.items.as_slice() == plain.items.as_slice()
        && overlay.positions.as_slice() == plain.positions.as_slice()
}

/// Gives so many orders, and answers which refusals came.
fn play(
    rt: &impl Abort,
    alloc: Global,
    live: &mut Live,
    plain: &mut Plain,
    places: &[Anchor],
) -> Result<u16, Fail> {
    let mut random = Random { state: 14 };
    let mut came = 0_u16;
    for number in 0..ACTS {
        let act = random.act();
        let want = plain.refusal(alloc, &act)?;
        match keeps_the_graph_before(alloc, live, &act, places) {
            Ok(is_kept) => {
                assert!(rt; want.is_none(), "act {number} is refused");
                assert!(rt; is_kept, "before act {number}");
                plain.act(&act)?;
                assert!(rt; is_right(alloc, live, plain, places)?, "after act {number}");
            }
            Err(ActDenied::Refusal(why)) => {
                assert!(rt; want == Some(why), "act {number} has another refusal");
                came |= bit_of(why);
            }
            Err(ActDenied::NoMemory) => return Err(NoMemory.into()),
        }
        assert!(rt; is_same(live.overlay(), plain), "after act {number}");
    }
    Ok(came)
}

#[test]
fn answers_as_the_plain_program(rt: HostRuntime) -> Result<(), Fail> {
    let alloc = rt.alloc();
    let places = places(alloc)?;
    let mut live = Live::first(alloc, index_of(alloc)?)?;
    let mut plain = Plain {
        items: Vec::new(alloc),
        positions: Vec::new(alloc),
    };
    let came = play(&rt, alloc, &mut live, &mut plain, &places)?;
    assert!(rt; came == 4095, "{came}");
    Ok(())
}

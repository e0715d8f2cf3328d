//! Many consoles at once.

ghost use Rattle.std.specs.Prelude.{◌<◌, ◌≤◌};

use crate::answers::Answers;
use crate::feeder::{first, id};
use crate::orders::Orders;
use crate::replay::{named, replayed};
use crate::rooms::day;
use crate::working::Work;
use board::Dated;
use cim_words::PhaseSet;
use std::alloc::Global;
use std::sync::Wait;
use std::test::Fail;
use std::thread::Threads;
use versions::Version;

/// What a day in a room came to.
#[derive(Clone, Copy, Debug, Drop, PartialEq, Eq)]
struct Tally {
    /// How many turns there were, and how many of them were answered by a receipt.
    turns: u32,
    entered: u32,
    /// How many receipts name the entry that their order became.
    named: u32,
    /// How many entries the log has, and how many were made.
    entries: u32,
    made: u64,
    /// Whether what each console was answered is sound.
    is_sound: bool,
    /// Whether the log, gone through again from its beginning, is legal and leaves the network that there is.
    is_legal: bool,
}

impl Tally {
    /// With the turns of one more console.
    fn add(&mut self, last: &Version, answers: &Answers) {
        let turns = u32::try_from(answers.turns.len()).unwrap_or(u32::MAX);
        self.turns = self.turns.saturating_add(turns);
        self.entered = self.entered.saturating_add(answers.entered());
        self.named = self.named.saturating_add(named(last, answers));
        self.is_sound = self.is_sound && answers.are_sound();
    }
}

/// A day of some consoles in so many threads.
fn spend<R: Threads + Wait + Sync>(
    rt: &R,
    alloc: Global,
    consoles: u8,
    threads: usize,
    work: Work,
) -> Result<Tally, Fail>
    requires consoles { (0 < consoles) × (consoles ≤ 16) }
    requires threads { 0 < threads }
{
    let base = first(alloc)?;
    let (closed, all) = day(rt, alloc, base.share()?, consoles, threads, work)?;
    let last = closed.last;
    let mut tally = Tally {
        turns: 0,
        entered: 0,
        named: 0,
        entries: last.number(),
        made: closed.made,
        is_sound: true,
        is_legal: is_replayed(alloc, base, &last)?,
    };
    for one in all {
        tally.add(&last, &one.into_inner());
    }
    Ok(tally)
}

/// Whether the entries of a version are legal from the beginning, and leave its network.
fn is_replayed(alloc: Global, base: Version, last: &Version) -> Result<bool, Fail> {
    match replayed(alloc, base, last)? {
        Some(again) => are_same(alloc, &again, last),
        None => Ok(false),
    }
}

/// Whether the same stands on two versions, and current takes the same ways from the source.
fn are_same(alloc: Global, one: &Version, other: &Version) -> Result<bool, Fail> {
    let (ours, theirs) = (one.overlay(), other.overlay());
    Ok(
        ours.items.as_slice() == theirs.items.as_slice()
            && ours.positions.as_slice() == theirs.positions.as_slice()
            && trace(alloc, one)? == trace(alloc, other)?,
    )
}

/// The text of the trace from the source.
fn trace(alloc: Global, version: &Version) -> Result<Vec<u8>, Fail> {
    let mut text = Vec::new(alloc);
    version.trace_text(alloc, id(0xe1), PhaseSet::ABC, &mut text)?;
    Ok(text)
}

#[test]
fn two_consoles_apart_are_refused_nothing(rt: HostRuntime) -> Result<(), Fail> {
    let work = Work {
        orders: Orders::Apart,
        turns: 50,
    };
    let all = Tally {
        turns: 100,
        entered: 100,
        named: 100,
        entries: 100,
        made: 100,
        is_sound: true,
        is_legal: true,
    };
    assert_eq!(rt; spend(&rt, rt.alloc(), 2, 2, work)?, all);
    Ok(())
}

#[test]
fn sixteen_consoles_together_get_receipts_for_all_entries(rt: HostRuntime) -> Result<(), Fail> {
    let work = Work {
        orders: Orders::Together,
        turns: 200,
    };
    let told = spend(&rt, rt.alloc(), 16, 16, work)?;
    let all = Tally {
        turns: 3200,
        named: told.entered,
        entries: told.entered,
        made: u64::from(told.entered),
        is_sound: true,
        is_legal: true,
        ..told
    };
    assert_eq!(rt; told, all);
    // Each console's own ground is never refused; of the openings of the breaker, one for each console has no closing before it.
    assert!(rt; 16 * 66 <= told.entered && told.entered <= 3200 - 15);
    Ok(())
}

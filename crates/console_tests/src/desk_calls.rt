//! A desk and two posts in one thread: each call, with its answer.

ghost use Rattle.std.specs.Prelude.{◌≡◌, []};

use crate::feeder::{first, id};
use cim_words::NoMemory;
use desk::{Advance, Closed, Desk, Post, RoomName, RoomSeed};
use room_words::{Act, ActRefusal, Denied, Entry, Event, Receipt, Refused, Why};
use std::alloc::Global;
use std::marker::Brand;
use std::sync::ledger::{Blank, Ledger};
use std::test::Fail;
use step_count::Steps;

/// What a post says of itself.
#[derive(Clone, Copy, Debug, Drop, PartialEq, Eq)]
struct PostView {
    console: u8,
    made: u32,
    last: Option<Receipt>,
    looks: u64,
    shown: u32,
    /// What a look finds then.
    found: u32,
}

/// What was answered at the desk.
#[derive(Clone, Copy, Debug, Drop, PartialEq, Eq)]
struct DeskView {
    /// To the first post, and to the second one, which orders the same.
    one: Result<Receipt, Denied>,
    two: Result<Receipt, Denied>,
    /// What the posts said then, and how many entries there were at the close.
    posts: [PostView; 2],
    entries: u32,
}

/// The answer to an order at the desk.
fn order<V: Advance + Send + Sync, N: RoomName, L: Ledger>(
    alloc: Global,
    desk: &mut Desk<V, N>,
    post: &mut Post<V, N>,
    act: Act,
    blank: Blank,
) -> Result<Receipt, Denied>
    requires name { blank.name ≡ L.name }
    requires parts { blank.parts ≡ L.parts }
    requires some { blank.parts ≡ 1 }
    ensures { post.new.reader.console ≡ post.old.reader.console }
{
    post.reserve(1)?;
    let console = post.console();
    let entry = Entry {
        console,
        serial: desk.current().serial(console),
        event: Event::Act(act),
    };
    let mut steps = Steps::<L>::of(blank);
    match desk.prepare(alloc, &entry, &mut steps) {
        Ok(prepared) => Ok(desk.commit(post, prepared)),
        Err(denied) => {
            desk.tell(post);
            Err(denied)
        }
    }
}

/// What a post says of itself, before it looks and then.
fn view_of<V: Advance + Send + Sync, N: RoomName>(post: &mut Post<V, N>) -> PostView
    ensures { post.new.reader.console ≡ post.old.reader.console }
{
    let (console, made, looks) = (post.console(), post.made(), post.looks());
    let last = post.receipts().last().copied();
    let shown = post.shown().number();
    let found = if looks < 1_000_000 {
        post.look().number()
    } else {
        0
    };
    PostView {
        console,
        made,
        last,
        looks,
        shown,
        found,
    }
}

/// Both posts of a seed of two order the same.
fn named_day<V: Advance + Send + Sync, N: RoomName>(
    alloc: Global,
    seed: RoomSeed<V>,
    act: Act,
) -> Result<DeskView, NoMemory>
    requires ledger { (seed.ledger ≡ N.name) × (seed.consoles ≡ N.parts) }
    requires board { (seed.board ≡ N.board) × (seed.consoles ≡ N.posts) }
{
    let Ok((mut desk, mut posts)) = Desk::<V, N>::start(alloc, seed) else {
        return Err(NoMemory);
    };
    let (Some(mut second), Some(mut first)) = (posts.pop(), posts.pop()) else {
        return Err(NoMemory);
    };
    let one = order::<V, N, Brand>(alloc, &mut desk, &mut first, act, Blank::new(1));
    let two = order::<V, N, Brand>(alloc, &mut desk, &mut second, act, Blank::new(1));
    let views = [view_of(&mut first), view_of(&mut second)];
    posts.push(first)?;
    posts.push(second)?;
    let Closed { last } = desk.close(posts);
    Ok(DeskView {
        one,
        two,
        posts: views,
        entries: last.number(),
    })
}

/// The same at a new desk.
fn desk_day<V: Advance + Send + Sync>(
    alloc: Global,
    first: V,
    act: Act,
) -> Result<DeskView, NoMemory>
    requires { V.log first ≡ [] }
{
    let Ok(seed) = RoomSeed::make(alloc, first, 2) else {
        return Err(NoMemory);
    };
    named_day::<V, Brand>(alloc, seed, act)
}

#[test]
fn calls_of_desks_are_answered(rt: HostRuntime) -> Result<(), Fail> {
    let receipt = Receipt {
        console: 1,
        serial: 1,
        number: 1,
    };
    let refused = Refused {
        at: 1,
        why: Why::Act(ActRefusal::Already),
    };
    let one = PostView {
        console: 1,
        made: 1,
        last: Some(receipt),
        looks: 0,
        shown: 0,
        found: 1,
    };
    let told = DeskView {
        one: Ok(receipt),
        two: Err(Denied::Refused(refused)),
        posts: [
            one,
            PostView {
                console: 2,
                made: 0,
                last: None,
                ..one
            },
        ],
        entries: 1,
    };
    let act = Act::OpenSwitch(id(0xb1));
    assert_eq!(rt; desk_day(rt.alloc(), first(rt.alloc())?, act)?, told);
    Ok(())
}

//! A console at work in its thread.

ghost use Rattle.std.specs.Prelude.{◌≡◌};

use crate::answers::{Answers, Turn};
use crate::orders::Orders;
use desk::{Advance, RoomName};
use room_console::{Console, Room};
use room_words::{Act, Denied, Event, Receipt};
use std::alloc::Global;
use std::marker::Brand;
use std::sync::Wait;
use std::sync::ledger::{Blank, Ledger};
use step_count::Steps;

/// How often a console may look in a test.
const MOST_LOOKS: u64 = 1_000_000;

/// What a console is to do: so many turns of orders.
#[derive(Clone, Copy, Drop)]
pub(crate) struct Work {
    pub(crate) orders: Orders,
    pub(crate) turns: u32,
}

/// Gives all its orders, one in a turn, and looks after each.
pub(crate) fn do_all<V: Advance + Send + Sync, N: RoomName, R: Wait>(
    rt: &R,
    alloc: Global,
    room: &Room<V, N>,
    console: &mut Console<V, N>,
    work: Work,
    answers: &mut Answers,
)
    ensures { console.new.reader.console ≡ console.old.reader.console }
{
    let number = console.console();
    answers.console = number;
    for turn in 0..work.turns {
        let act = work.orders.act(number, turn);
        let answer = order::<V, N, R, Brand>(rt, alloc, room, console, act, Blank::new(1));
        let (seen, shown) = (console.seen(), console.shown().number());
        let turn = Turn {
            act,
            answer,
            seen,
            shown,
            found: look(console),
            made: console.made(),
            looks: console.looks(),
        };
        if answers.turns.push(turn).is_err() {
            return;
        }
    }
}

/// Gives one order.
fn order<V: Advance + Send + Sync, N: RoomName, R: Wait, L: Ledger>(
    rt: &R,
    alloc: Global,
    room: &Room<V, N>,
    console: &mut Console<V, N>,
    act: Act,
    blank: Blank,
) -> Result<Receipt, Denied>
    requires name { blank.name ≡ L.name }
    requires parts { blank.parts ≡ L.parts }
    requires some { blank.parts ≡ 1 }
    ensures { console.new.reader.console ≡ console.old.reader.console }
{
    if console.looks() >= MOST_LOOKS {
        return Err(Denied::NoMemory);
    }
    let mut steps = Steps::<L>::of(blank);
    console.submit(rt, alloc, room, &Event::Act(act), &mut steps)
}

/// Looks once: how many entries there are then, or none where it looked too often.
fn look<V: Advance + Send + Sync, N: RoomName>(console: &mut Console<V, N>) -> u32
    ensures { console.new.reader.console ≡ console.old.reader.console }
{
    if console.looks() >= MOST_LOOKS {
        return 0;
    }
    console.look().number()
}

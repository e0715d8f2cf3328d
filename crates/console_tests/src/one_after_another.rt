//! Two consoles, one after the other, in one thread: each call of theirs, with its answer.

use crate::answers::Turn;
use crate::feeder::first;
use crate::orders::Orders;
use crate::rooms::day;
use crate::working::Work;
use cim_words::Id;
use room_words::{ActRefusal, Denied, Receipt, Refused, Why};
use std::test::Fail;

/// The serial and the number of a receipt, or how many entries stood at a refusal, and why.
type Told = Result<(u32, u32), (u32, ActRefusal)>;

/// What a turn is to answer; how many entries were seen, shown and then found, and how many receipts there were; and how many looks.
type Row = (Told, [u32; 4], u64);

/// Both open the breaker, place a ground of their own and cut the segment.
const ROWS: [[Row; 3]; 2] = [
    [
        (Ok((1, 1)), [1, 0, 1, 1], 2),
        (Ok((2, 2)), [2, 1, 2, 2], 4),
        (Ok((3, 3)), [3, 2, 3, 3], 6),
    ],
    [
        (Err((3, ActRefusal::Already)), [3, 3, 3, 0], 2),
        (Ok((1, 4)), [4, 3, 4, 1], 4),
        (Err((4, ActRefusal::Taken(CUT))), [4, 4, 4, 1], 6),
    ],
];

const CUT: Id = Id {
    number: 0x4000_8000_0000_0000_0092,
};

/// The answer to a console in full.
fn answer(console: u8, told: Told) -> Result<Receipt, Denied> {
    match told {
        Ok((serial, number)) => Ok(Receipt {
            console,
            serial,
            number,
        }),
        Err((at, why)) => Err(Denied::Refused(Refused {
            at,
            why: Why::Act(why),
        })),
    }
}

/// Whether a turn went as a row says.
fn is_told(console: u8, turn: &Turn, row: Row) -> bool {
    let (told, numbers, looks) = row;
    turn.answer == answer(console, told)
        && [turn.seen, turn.shown, turn.found, turn.made] == numbers
        && turn.looks == looks
}

#[test]
fn calls_of_consoles_are_answered(rt: HostRuntime) -> Result<(), Fail> {
    let work = Work {
        orders: Orders::Together,
        turns: 3,
    };
    let (closed, all) = day(&rt, rt.alloc(), first(rt.alloc())?, 2, 1, work)?;
    assert_eq!(rt; (closed.made, all.len()), (4, 2));
    for (one, rows) in all.into_iter().zip(ROWS) {
        let answers = one.into_inner();
        for (turn, row) in answers.turns.iter().zip(rows) {
            assert!(rt; is_told(answers.console, turn, row), "{turn:?}");
        }
        assert!(rt; answers.turns.len() == 3);
    }
    Ok(())
}

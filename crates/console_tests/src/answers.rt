//! What a console was answered in its turns, and what it showed after each.

use crate::orders::Orders;
use cim_words::NoMemory;
use room_words::{Act, Denied, Receipt};
use std::alloc::Global;

/// What a console was answered in one turn, and what it showed then.
#[derive(Clone, Copy, Debug, Drop, PartialEq, Eq)]
pub(crate) struct Turn {
    /// What it ordered.
    pub(crate) act: Act,
    /// What it was answered.
    pub(crate) answer: Result<Receipt, Denied>,
    /// How many entries it had seen right after the answer, and how many the version in view had.
    pub(crate) seen: u32,
    pub(crate) shown: u32,
    /// How many entries the next look found.
    pub(crate) found: u32,
    /// How many receipts it had, and how often it had looked.
    pub(crate) made: u32,
    pub(crate) looks: u64,
}

/// The turns of one console.
#[derive(Drop)]
pub(crate) struct Answers {
    pub(crate) console: u8,
    pub(crate) turns: Vec<Turn>,
}

impl Answers {
    /// No turn yet, with room for some.
    pub(crate) fn none(alloc: Global, turns: u32) -> Result<Answers, NoMemory> {
        Ok(Answers {
            console: 0,
            turns: Vec::with_capacity(alloc, turns as usize)?,
        })
    }

    /// How many turns were answered by a receipt.
    pub(crate) fn entered(&self) -> u32 {
        let mut count = 0u32;
        for turn in &self.turns {
            count = count.saturating_add(u32::from(turn.answer.is_ok()));
        }
        count
    }

    /// Whether each receipt is this console's, with the serials 1, 2 and so on, and names the entry that ended what was seen; whether each
    /// refusal was judged on all that was seen; and whether no number fell from one turn to the next.
    pub(crate) fn are_sound(&self) -> bool {
        let mut before = Turn {
            act: Orders::Apart.act(self.console, 0),
            answer: Err(Denied::NoMemory),
            seen: 0,
            shown: 0,
            found: 0,
            made: 0,
            looks: 0,
        };
        for turn in &self.turns {
            if !follows(self.console, &before, turn) {
                return false;
            }
            before = *turn;
        }
        true
    }
}

/// Whether a turn may come after another one.
fn follows(console: u8, before: &Turn, turn: &Turn) -> bool {
    let never_fell = before.found <= turn.seen
        && before.shown <= turn.shown
        && turn.shown <= turn.seen
        && turn.seen <= turn.found
        && before.looks < turn.looks;
    match turn.answer {
        Ok(receipt) => {
            never_fell
                && receipt.console == console
                && Some(receipt.serial) == before.made.checked_add(1)
                && receipt.number == turn.seen
                && turn.made == receipt.serial
        }
        Err(Denied::Refused(refused)) => {
            never_fell && refused.at == turn.seen && turn.made == before.made
        }
        Err(Denied::NoMemory) => false,
    }
}

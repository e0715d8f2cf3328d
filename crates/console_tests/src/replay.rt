//! A history that is gone through again from its beginning, and compared with the receipts that consoles got for it.

ghost use Rattle.std.specs.Prelude.{◌≡◌};

use crate::answers::Answers;
use cim_words::NoMemory;
use desk::Advance;
use room_words::{Act, Entry, Event, Receipt};
use std::alloc::Global;
use std::marker::Brand;
use std::sync::ledger::{Blank, Ledger};
use step_count::Steps;

/// The version that the entries of another one make of the first, if each may come next: its serial is that console's next one, and its
/// event is accepted.
pub(crate) fn replayed<V: Advance>(
    alloc: Global,
    first: V,
    last: &V,
) -> Result<Option<V>, NoMemory> {
    let mut version = first;
    for index in 0..last.number() {
        match after::<V, Brand>(alloc, &version, last.entry(index), Blank::new(1)) {
            Some(next) => version = next,
            None => return Ok(None),
        }
    }
    Ok(Some(version))
}

/// The version with one more entry, if it may come next.
fn after<V: Advance, L: Ledger>(
    alloc: Global,
    version: &V,
    entry: &Entry,
    blank: Blank,
) -> Option<V>
    requires name { blank.name ≡ L.name }
    requires parts { blank.parts ≡ L.parts }
    requires some { blank.parts ≡ 1 }
{
    let console = entry.console;
    if console == 0 || console > 16 || version.serial(console) != entry.serial {
        return None;
    }
    let mut steps = Steps::<L>::of(blank);
    version.advance(alloc, entry, &mut steps).ok()
}

/// How many receipts of a console name the entry that its order became.
pub(crate) fn named<V: Advance>(last: &V, answers: &Answers) -> u32 {
    let mut count = 0u32;
    for turn in &answers.turns {
        if let Ok(receipt) = turn.answer {
            count = count.saturating_add(u32::from(is_named(last, receipt, turn.act)));
        }
    }
    count
}

/// Whether a receipt names an entry of this order.
fn is_named<V: Advance>(last: &V, receipt: Receipt, act: Act) -> bool {
    if receipt.number == 0 || receipt.number > last.number() {
        return false;
    }
    let entry = last.entry(receipt.number - 1);
    let is_act = match &entry.event {
        Event::Act(entered) => *entered == act,
        Event::Cutover(_) => false,
    };
    is_act && entry.console == receipt.console && entry.serial == receipt.serial
}

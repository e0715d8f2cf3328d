//! What is done under the desk's lock.
ghost use Rattle.std.specs.Prelude.{◌≡◌, ◌+◌, ◌<◌, ◌≤◌, Err, IfOk, IfSome};
ghost use Rattle.desk.specs.Consoles.{IsConsole};
ghost use Rattle.desk.specs.Ends.{number_of};
ghost use Rattle.room_console.specs.Submits.{IsEntered, IsRefused};
ghost use Rattle.room_words.specs.declared.refused.Refused.{Refused};
ghost use Rattle.room_words.specs.declared.refused.Denied.TheVariants as denied;

use desk::{Advance, Desk, Post, RoomName, legal_histories_go_on};
use room_words::{Denied, Entry, Receipt};
use std::alloc::Global;
use std::sync::ledger::Ledger;
use step_count::Steps;

/// Enters an event for a post, with the next serial of its console, or lets the post know all that was entered before it was refused.
pub(crate) fn enter<V: Advance + Send + Sync, N: RoomName, L: Ledger>(
    alloc: Global,
    desk: &mut Desk<V, N>,
    post: &mut Post<V, N>,
    entry: &mut Entry,
    steps: &mut Steps<L>,
) -> Result<Receipt, Denied>
    requires console { IsConsole entry.old.console }
    requires post { entry.old.console ≡ number_of post.old }
    requires room { 0 < post.old.room }
    ensures entered { IfOk result (λ receipt. IsEntered V.judges post.old post.new entry.old.event receipt) }
    ensures refused { (why : Refused) → result ≡ Err (denied.Refused why) → IsRefused V.judges post.old post.new entry.old.event why }
    ensures memory { result ≡ Err denied.NoMemory → post.new ≡ post.old }
    ensures same { (post.new.reader.board ≡ post.old.reader.board) × (post.new.reader.console ≡ post.old.reader.console) × (post.new.reader.origin ≡ post.old.reader.origin) × (post.new.reader.founds ≡ post.old.reader.founds) }
    ensures bound { IfSome (V.ticks entry.old.event) (λ most. steps.new ≤ steps.old + most) }
{
    legal_histories_go_on::<V>();
    let current = desk.current();
    entry.serial = current.serial(entry.console);
    match desk.prepare(alloc, entry, steps) {
        Ok(prepared) => Ok(desk.commit(post, prepared)),
        Err(Denied::Refused(refused)) => {
            desk.tell(post);
            Err(Denied::Refused(refused))
        }
        Err(Denied::NoMemory) => Err(Denied::NoMemory),
    }
}

/// How many entries a console has seen, where it had seen so many before its answer.
pub(crate) fn seen_after(seen: u32, answer: Result<Receipt, Denied>) -> u32
    ensures entered { IfOk answer (λ receipt. result ≡ receipt.number) }
    ensures refused { (why : Refused) → answer ≡ Err (denied.Refused why) → result ≡ why.at }
    ensures memory { answer ≡ Err denied.NoMemory → result ≡ seen }
{
    match answer {
        Ok(receipt) => receipt.number,
        Err(Denied::Refused(refused)) => refused.at,
        Err(Denied::NoMemory) => seen,
    }
}

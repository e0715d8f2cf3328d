//! What a console does in its room for a request.

ghost use Rattle.std.specs.Prelude.{ℕ, ◌≡◌, ◌<◌, ◌^◌, List, length, Some, IfSome};
ghost use Rattle.board.specs.Lists.{IsPrefix};
ghost use Rattle.desk.specs.Ends.{number_of};
ghost use Rattle.session_host.specs.Looks.{OnlySees};
ghost use Rattle.session_host.specs.Replies.{Submits};
ghost use Rattle.session_host.specs.Told.{Ever, KeepsSeat};
ghost use Rattle.session_host.specs.Views.{view_of};
ghost use Rattle.wire.specs.Replies.{IsBrief};

use board::Dated;
use desk::RoomName;
use room_console::{Console, Room};
use room_words::{Denied, Event, Reply};
use std::alloc::Global;
use std::sync::Wait;
use std::sync::ledger::Ledger;
use step_count::Steps;
use versions::Version;

/// Submits an event, and tells what became of it.
pub(crate) fn submit<R: Wait, N: RoomName, L: Ledger>(
    rt: &R,
    alloc: Global,
    console: &mut Console<Version, N>,
    room: &Room<Version, N>,
    event: &Event,
    steps: &mut Steps<L>,
) -> Reply
    requires { length console.old.reader.founds < 2 ^ 63 }
    ensures seat { KeepsSeat console.old console.new }
    ensures submits { Ever console.old console.new (λ base history.
        Submits base history (number_of console.old) event.now (view_of console.old) result (view_of console.new)) }
    ensures brief { IsBrief result }
{
    match console.submit(rt, alloc, room, event, steps) {
        Ok(receipt) => Reply::Ok(receipt.number),
        Err(Denied::Refused(refused)) => Reply::No(refused),
        Err(Denied::NoMemory) => Reply::Memory,
    }
}

/// Looks, and gives how many entries are seen.
pub(crate) fn look<N: RoomName>(console: &mut Console<Version, N>) -> u32
    requires { length console.old.reader.founds < 2 ^ 63 }
    ensures seat { KeepsSeat console.old console.new }
    ensures count { result ≡ length console.new.reader.seen }
    ensures sees { Ever console.old console.new (λ base history.
        OnlySees history (view_of console.old) (view_of console.new) (length console.new.reader.seen)) }
    ensures shown { (base : List _) → console.old.reader.origin ≡ Some base → console.new.reader.shown
        ≡ Some (record { base = base; log = console.new.reader.seen }) }
{
    console.look().number()
}

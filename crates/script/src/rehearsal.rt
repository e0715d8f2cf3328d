//! What a script leads from one request to the next.

ghost use Rattle.std.specs.Prelude.{◌≡◌, None, replicate, IfOk};
ghost use Rattle.cim_model.specs.Profile.{IsFaultless};
ghost use Rattle.desk.specs.Consoles.{most_consoles};
ghost use Rattle.script.specs.Rehearsal.{at_start};

use cim_words::NoMemory;
use desk::MOST_CONSOLES;
use room_core::RoomCore;
use room_words::SharedDifference;
use statement_set::StatementSet;
use std::alloc::Global;
use std::marker::Model;
use std::sync::ledger::{Blank, Ledger};
use step_count::Steps;
use versions::Version;

/// A room of one thread, and the difference that each console has staged.
#[derive(Drop)]
pub(crate) struct Rehearsal<L: Ledger> {
    pub(crate) alloc: Global,
    pub(crate) room: RoomCore<Version>,
    pub(crate) staged: Vec<Option<SharedDifference>>,
    pub(crate) steps: Steps<L>,
}

impl<L: Ledger> Model for Rehearsal<L> {
    ghost use Rattle.std.specs.Prelude.{◌≡◌, length};
    ghost use Rattle.desk.specs.Consoles.{most_consoles};
    ghost use Rattle.script.specs.Rehearsal.{RehearsalState};

    ghost Value = { RehearsalState };

    ghost view = { λ r. record { room = r.room; staged = r.staged.items } };

    // Each console has a place for what it stages.
    ghost invariant = { λ r. length r.staged.items ≡ most_consoles };
}

impl<L: Ledger> Rehearsal<L> {
    /// The rehearsal over a base that breaks no rule, before the first request.
    pub(crate) fn start(
        alloc: Global,
        base: StatementSet,
        blank: Blank,
    ) -> Result<Rehearsal<L>, NoMemory>
        requires faultless { IsFaultless base }
        requires name { blank.name ≡ L.name }
        requires parts { blank.parts ≡ L.parts }
        requires some { blank.parts ≡ 1 }
        ensures { IfOk result (λ rehearsal. rehearsal ≡ at_start base) }
    {
        let mut steps = Steps::<L>::of(blank);
        let first = Version::first(alloc, base, &mut steps)?;
        let staged = none_staged(alloc)?;
        match RoomCore::start(alloc, first) {
            Ok(room) => Ok(Rehearsal {
                alloc,
                room,
                staged,
                steps,
            }),
            Err((failed, _)) => Err(failed),
        }
    }
}

/// Nothing staged, for each console.
fn none_staged(alloc: Global) -> Result<Vec<Option<SharedDifference>>, NoMemory>
    ensures { IfOk result (λ staged. staged.items ≡ replicate most_consoles None) }
{
    let mut staged = Vec::with_capacity(alloc, MOST_CONSOLES as usize)?;
    for _ in 0..MOST_CONSOLES {
        staged.push(None)?;
    }
    Ok(staged)
}

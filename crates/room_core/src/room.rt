//! The room and its consoles.

ghost use Rattle.std.specs.Prelude.{ℕ, ◌≡◌, ◌≤◌, [], length, replicate, take, IfOk, IfErr};
ghost use Rattle.desk.specs.Consoles.{IsConsole, most_consoles};
ghost use Rattle.desk.specs.Legal.{IsLegal};
ghost use Rattle.room_core.specs.Machine.{seen_by};
ghost use Rattle.room_core.specs.Views.{at_start};

use cim_words::NoMemory;
use desk::{Advance, MOST_CONSOLES, legal_histories_go_on};
use std::alloc::Global;
use std::marker::Model;

/// A room of one thread: the newest version of a history, and for each console the version that it has seen.
#[derive(Drop)]
pub struct RoomCore<V: Advance> {
    pub(crate) alloc: Global,
    pub(crate) newest: V,
    pub(crate) shown: Vec<V>,
}

impl<V: Advance> Model for RoomCore<V> {
    ghost use Rattle.std.specs.Prelude.{◌≡◌, ◌≤◌, List, length, map, take};
    ghost use Rattle.desk.specs.Consoles.{most_consoles};
    ghost use Rattle.desk.specs.Legal.{IsLegal};
    ghost use Rattle.room_core.specs.Machine.{RoomState};
    ghost use Rattle.room_core.specs.Views.{AreShown};

    ghost Value = { RoomState V.Origin };

    ghost view = { λ r. record { origin = V.origin r.newest; log = V.log r.newest; seen = map (λ v. length (V.log v)) r.shown.items } };

    // There are sixteen consoles, each has seen a prefix of a history that is legal from where it began.
    ghost invariant = { λ r. (length r.shown.items ≡ most_consoles) × IsLegal (V.judges (V.origin r.newest)) (V.log r.newest)
        × AreShown V.origin V.log (V.origin r.newest) (V.log r.newest) r.shown.items };
}

impl<V: Advance> RoomCore<V> {
    /// The room whose newest version has no entry yet; every console has seen that one.
    pub fn start(alloc: Global, first: V) -> Result<RoomCore<V>, (NoMemory, V)>
        requires { V.log first ≡ [] }
        ensures ok { IfOk result (λ room. room ≡ at_start (V.origin first)) }
        ensures err { IfErr result (λ refused. refused.1 ≡ first) }
    {
        legal_histories_go_on::<V>();
        match copies(alloc, &first) {
            Ok(shown) => Ok(RoomCore {
                alloc,
                newest: first,
                shown,
            }),
            Err(failed) => Err((failed, first)),
        }
    }

    /// The newest version.
    pub fn current(&self) -> &V
        ensures log { V.log result.now ≡ self.now.log }
        ensures origin { V.origin result.now ≡ self.now.origin }
    {
        &self.newest
    }

    /// The version that a console has seen.
    pub fn shown(&self, console: u8) -> &V
        requires { IsConsole console }
        ensures log { V.log result.now ≡ take (seen_by self.now console) self.now.log }
        ensures origin { V.origin result.now ≡ self.now.origin }
        ensures seen { length (V.log result.now) ≡ seen_by self.now console }
        ensures within { seen_by self.now console ≤ length self.now.log }
    {
        &self.shown[console as usize - 1]
    }

    /// What holds of every room: its history is legal from where it began, and nobody has seen more than that.
    pub fn history(&self)
        ensures legal { IsLegal (V.judges self.now.origin) self.now.log }
        ensures within { (console : ℕ) → IsConsole console → seen_by self.now console ≤ length self.now.log }
    {
        let _consoles = self.shown.len();
    }
}

/// A copy of a version for each console.
fn copies<V: Advance>(alloc: Global, first: &V) -> Result<Vec<V>, NoMemory>
    ensures { IfOk result (λ copies. copies.items ≡ replicate most_consoles first.now) }
{
    let mut copies = Vec::with_capacity(alloc, MOST_CONSOLES as usize)?;
    for _ in 0..MOST_CONSOLES {
        copies.push(first.share()?)?;
    }
    Ok(copies)
}

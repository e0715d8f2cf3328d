//! Events on what a version holds.

ghost use Rattle.std.specs.Prelude.{◌≡◌, ◌<◌, ◌^◌, ◌++◌, ◌∷◌, [], length, Err, IfOk};
ghost use Rattle.cim_model.specs.Profile.{IsFaultless};
ghost use Rattle.cim_model.specs.Stands.{Stands};
ghost use Rattle.desk.specs.Legal.{IsNext};
ghost use Rattle.room_words.specs.declared.event.Event.TheVariants as event;
ghost use Rattle.room_words.specs.declared.refused.Denied.TheVariants as denied;
ghost use Rattle.room_words.specs.declared.refused.Refused.{Refused};
ghost use Rattle.versions.specs.Held.{Agrees, now_in};
ghost use Rattle.versions.specs.History.{Judges, Refuses, Takes};
ghost use Rattle.versions.specs.Moved.{IsMoved};

use crate::held::Held;
use crate::limits::bytes_of;
use crate::moved::Moved;
use act_laws::accepted_acts_stand;
use cim_records::Index;
use cim_words::NoMemory;
use cutover::{DiffDenied, accepted_differences_stand, judge_difference};
use room_words::{Act, Denied, Difference, Entry, Overlay, Refused, Why};
use shared_parts::Share;
use std::alloc::Global;
use switching::{ActDenied, judge};

impl Held {
    /// The overlay that an act leaves.
    pub(crate) fn overlay_after(&self, alloc: Global, act: &Act) -> Result<Overlay, Denied>
        requires { Agrees self.now }
        ensures takes { IfOk result (λ overlay. Takes (now_in self.now) (event.Act act.now) (record { model = self.now.index; overlay = overlay })) }
        ensures stands { IfOk result (λ overlay. Stands self.now.index overlay) }
        ensures refused { (why : Refused) → result ≡ Err (denied.Refused why) → (why.at ≡ length self.now.log) × Refuses (now_in self.now) (event.Act act.now) why.why }
    {
        accepted_acts_stand();
        match judge(alloc, &self.index, &self.overlay, act) {
            Ok(overlay) => Ok(overlay),
            Err(ActDenied::Refusal(why)) => Err(self.refusal(Why::Act(why))),
            Err(ActDenied::NoMemory) => Err(Denied::NoMemory),
        }
    }

    /// The index of the model that a difference leaves.
    pub(crate) fn index_after(
        &self,
        alloc: Global,
        difference: &Difference,
    ) -> Result<Index, Denied>
        requires { Agrees self.now }
        ensures takes { IfOk result (λ index. Takes (now_in self.now) (event.Cutover difference.now) (record { model = index; overlay = self.now.overlay })) }
        ensures stands { IfOk result (λ index. IsFaultless index × Stands index self.now.overlay) }
        ensures refused { (why : Refused) → result ≡ Err (denied.Refused why) → (why.at ≡ length self.now.log) × Refuses (now_in self.now) (event.Cutover difference.now) why.why }
    {
        accepted_differences_stand();
        match judge_difference(alloc, self.index.set(), &self.overlay, difference) {
            Ok(set) => Ok(Index::build(alloc, &set)?),
            Err(DiffDenied::Refusal(why)) => Err(self.refusal(Why::Diff(why))),
            Err(DiffDenied::NoMemory) => Err(Denied::NoMemory),
        }
    }

    /// A refusal on this log.
    pub(crate) fn refusal(&self, why: Why) -> Denied
        requires { length self.now.log < 2 ^ 32 }
        ensures { result ≡ denied.Refused (record { at = length self.now.log; why = why }) }
    {
        Denied::Refused(Refused {
            at: self.log.len() as u32,
            why,
        })
    }

    /// What is held with one more entry, whose event leaves this network.
    pub(crate) fn with(&self, entry: &Entry, moved: Moved) -> Result<Held, NoMemory>
        requires agrees { Agrees self.now }
        requires next { IsNext (Judges self.now.base) self.now.log entry.now }
        requires moved { IsMoved self.now entry.now.event moved }
        ensures { IfOk result (λ held. Agrees held × (held.base ≡ self.now.base) × (held.log ≡ self.now.log ++ entry.now ∷ [])) }
    {
        let mut log = self.log.share()?;
        if let Err((failed, _)) = log.push(entry.share()?) {
            return Err(failed);
        }
        Ok(Held {
            base: self.base.share()?,
            log,
            counts: self.counts.with(entry.console),
            bytes: self.bytes + bytes_of(&entry.event),
            index: moved.index,
            overlay: moved.overlay,
            graph: moved.graph,
        })
    }
}

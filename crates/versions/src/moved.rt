//! What an event makes of a network.

ghost use Rattle.std.specs.Prelude.{◌≡◌, ◌≤◌, ◌+◌, length, Err, IfOk, IfSome};
ghost use Rattle.room_words.specs.declared.event.Event.TheVariants as event;
ghost use Rattle.room_words.specs.declared.refused.Denied.TheVariants as denied;
ghost use Rattle.room_words.specs.declared.refused.Refused.{Refused};
ghost use Rattle.versions.specs.Held.{Agrees, now_in};
ghost use Rattle.versions.specs.History.{Refuses, event_ticks};
ghost use Rattle.versions.specs.Moved.{IsMoved};

use crate::held::Held;
use cim_records::Index;
use graph_pages::Graph;
use increment::after_act;
use room_words::{Act, Denied, Difference, Event, Overlay};
use std::alloc::Global;
use std::sync::ledger::Ledger;
use step_count::Steps;
use topology::rebuild;

/// The index, the overlay and the graph that an event leaves.
#[derive(Drop)]
pub(crate) struct Moved {
    pub(crate) index: Index,
    pub(crate) overlay: Overlay,
    pub(crate) graph: Graph,
}

impl Held {
    /// What an event leaves, or why it is refused.
    pub(crate) fn moved<L: Ledger>(
        &self,
        alloc: Global,
        event: &Event,
        steps: &mut Steps<L>,
    ) -> Result<Moved, Denied>
        requires { Agrees self.now }
        ensures moved { IfOk result (IsMoved self.now event.now) }
        ensures refused { (why : Refused) → result ≡ Err (denied.Refused why) → (why.at ≡ length self.now.log) × Refuses (now_in self.now) event.now why.why }
        ensures bound { IfSome (event_ticks event.now) (λ most. steps.new ≤ steps.old + most) }
    {
        match event {
            Event::Act(act) => self.moved_by_act(alloc, act, steps),
            Event::Cutover(difference) => {
                self.moved_by_cutover(alloc, difference.difference(), steps)
            }
        }
    }

    /// What an act leaves: the graph changes where the act touches it.
    fn moved_by_act<L: Ledger>(
        &self,
        alloc: Global,
        act: &Act,
        steps: &mut Steps<L>,
    ) -> Result<Moved, Denied>
        requires { Agrees self.now }
        ensures moved { IfOk result (IsMoved self.now (event.Act act.now)) }
        ensures refused { (why : Refused) → result ≡ Err (denied.Refused why) → (why.at ≡ length self.now.log) × Refuses (now_in self.now) (event.Act act.now) why.why }
        ensures bound { steps.new ≤ steps.old + 6 }
    {
        let new = self.overlay_after(alloc, act)?;
        let old = &self.overlay;
        let graph = after_act(alloc, &self.graph, &self.index, old, &new, act, steps)?;
        let index = self.index.share()?;
        Ok(Moved {
            index,
            overlay: new,
            graph,
        })
    }

    /// What a difference leaves: the graph is made anew.
    fn moved_by_cutover<L: Ledger>(
        &self,
        alloc: Global,
        difference: &Difference,
        steps: &mut Steps<L>,
    ) -> Result<Moved, Denied>
        requires { Agrees self.now }
        ensures moved { IfOk result (IsMoved self.now (event.Cutover difference.now)) }
        ensures refused { (why : Refused) → result ≡ Err (denied.Refused why) → (why.at ≡ length self.now.log) × Refuses (now_in self.now) (event.Cutover difference.now) why.why }
    {
        let index = self.index_after(alloc, difference)?;
        let overlay = self.overlay.copy(alloc)?;
        let graph = rebuild(alloc, &index, &overlay, steps)?;
        Ok(Moved {
            index,
            overlay,
            graph,
        })
    }
}

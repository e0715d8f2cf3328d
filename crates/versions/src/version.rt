//! A version of a room.

ghost use Rattle.std.specs.Prelude.{ℕ, ◌≡◌, [], List, IfOk};
ghost use Rattle.cim_model.specs.Profile.{IsFaultless};
ghost use Rattle.cim_words.specs.declared.statement.Statement.{Statement};
ghost use Rattle.room_words.specs.declared.overlay.Overlay.{Overlay};
ghost use Rattle.versions.specs.Held.{Agrees, past_of};
ghost use Rattle.versions.specs.History.{IsNow};

use crate::held::Held;
use crate::laws::histories_are_judged_in_one_way;
use crate::limits::log_room;
use crate::serials::Counts;
use board::Dated;
use cim_model::the_empty_overlay_stands;
use cim_records::Index;
use cim_words::{NoMemory, Statements};
use desk::Advance;
use room_words::{Denied, Entry, Overlay, Why};
use shared_parts::SharedList;
use statement_set::StatementSet;
use std::alloc::Global;
use std::marker::Model;
use std::sync::Arc;
use std::sync::ledger::Ledger;
use step_count::Steps;
use topology::rebuild;

/// A base and a legal history of it, with the network that they make. It does not change, and its copies share what it holds.
#[derive(Drop)]
pub struct Version {
    pub(crate) held: Arc<Held>,
}

impl Model for Version {
    ghost use Rattle.std.specs.Arc.{arc_value};
    ghost use Rattle.versions.specs.Held.{Agrees, past_of};
    ghost use Rattle.versions.specs.Past.{Past};

    ghost Value = { Past };

    ghost view = { λ v. past_of (arc_value v.held) };

    ghost invariant = { λ v. Agrees (arc_value v.held) };
}

impl Version {
    /// The version of a base that breaks no rule, without entries.
    pub fn first<L: Ledger>(
        alloc: Global,
        base: StatementSet,
        steps: &mut Steps<L>,
    ) -> Result<Version, NoMemory>
        requires { IsFaultless base }
        ensures { IfOk result (λ version. version ≡ record { base = base; log = [] }) }
    {
        the_empty_overlay_stands();
        let index = Index::build(alloc, &base)?;
        let overlay = Overlay::empty(alloc);
        let graph = rebuild(alloc, &index, &overlay, steps)?;
        Version::of(
            alloc,
            Held {
                base,
                log: SharedList::new(alloc),
                counts: Counts::none(),
                bytes: 0,
                index,
                overlay,
                graph,
            },
        )
    }

    /// A version of what agrees.
    pub(crate) fn of(alloc: Global, held: Held) -> Result<Version, NoMemory>
        requires { Agrees held }
        ensures { IfOk result (λ version. version ≡ past_of held) }
    {
        match Arc::new(alloc, held) {
            Ok(held) => Ok(Version { held }),
            Err(_) => Err(NoMemory),
        }
    }

    /// The model's statements now.
    pub fn set(&self) -> &StatementSet
        ensures { (overlay : Overlay) × IsNow self.now.base self.now.log (record { model = result.now; overlay = overlay }) }
    {
        self.held.index.set()
    }

    /// What stands on the model for a time now.
    pub fn overlay(&self) -> &Overlay
        ensures { (model : List Statement) × IsNow self.now.base self.now.log (record { model = model; overlay = result.now }) }
    {
        &self.held.overlay
    }
}

impl Dated for Version {
    type Item = Entry;

    type Origin = Statements;

    ghost log = { λ v. v.log };

    ghost origin = { λ v. v.base };

    fn number(&self) -> u32 {
        self.held.log.len() as u32
    }

    fn share(&self) -> Result<Version, NoMemory> {
        Ok(Version {
            held: Arc::try_clone(&self.held)?,
        })
    }
}

impl Advance for Version {
    ghost use Rattle.versions.specs.History.{Judges, event_ticks};

    ghost judges = { Judges };

    ghost ticks = { event_ticks };

    fn one_judgement() {
        histories_are_judged_in_one_way();
    }

    fn serial(&self, console: u8) -> u32 {
        self.held.counts.of(console) + 1
    }

    fn entry(&self, index: u32) -> &Entry {
        self.held.log.at(index as usize)
    }

    fn advance<L: Ledger>(
        &self,
        alloc: Global,
        entry: &Entry,
        steps: &mut Steps<L>,
    ) -> Result<Version, Denied> {
        let held = &*self.held;
        if let Err(full) = log_room(held.log.len() as u32, held.bytes, &entry.event) {
            return Err(held.refusal(Why::Log(full)));
        }
        match held.moved(alloc, &entry.event, steps) {
            Ok(moved) => Ok(Version::of(alloc, held.with(entry, moved)?)?),
            Err(denied) => Err(denied),
        }
    }
}

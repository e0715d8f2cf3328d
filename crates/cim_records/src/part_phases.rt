//! The phases that phase objects state.

ghost use Rattle.std.specs.Prelude.{◌≡◌, ◌==◌, [], ℕ, Some, OnOk, if◌then◌else◌};
ghost use Rattle.cim_records.specs.Found.{found};
ghost use Rattle.cim_records.specs.Joined.{join_all, join_one, stated_by};

use crate::subjects::Subjects;
use cim_model::named_by;
use cim_words::{Id, KnownProp, NoMemory, PhaseSet};
use indexmap::IndexMap;
use statement_set::StatementSet;
use std::alloc::Global;
use std::marker::Model;

/// Sets of phases, each found under an identifier.
#[derive(Drop)]
pub(crate) struct PartPhases {
    sets: IndexMap<Id, PhaseSet>,
}

impl Model for PartPhases {
    ghost use Rattle.std.specs.Prelude.{List};
    ghost use Rattle.cim_words.specs.declared.identifier.Id.{Id};
    ghost use Rattle.cim_words.specs.declared.phases.PhaseSet.{PhaseSet};

    ghost Value = { List (Id × PhaseSet) };

    ghost view = { λ phases. phases.sets.entries };
}

impl PartPhases {
    /// No set.
    pub(crate) fn empty(alloc: Global) -> PartPhases
        ensures { result ≡ [] }
    {
        PartPhases {
            sets: IndexMap::new(alloc),
        }
    }

    /// The set under an identifier.
    pub(crate) fn get(&self, id: Id) -> Option<PhaseSet>
        ensures { result ≡ found self.now id.number }
    {
        self.sets.get(&id).copied()
    }

    /// Joins phases to the set under an identifier.
    fn join(&mut self, id: Id, phases: PhaseSet) -> Result<(), NoMemory>
        ensures { OnOk result ((x : ℕ) → found self.new x ≡ (if x == id.number then Some (join_one (found self.old x) phases) else found self.old x)) }
    {
        let joined = joined(self.get(id), phases);
        self.sets.insert(id, joined)?;
        Ok(())
    }

    /// Joins the phases of the phase objects that name their equipment by a property.
    pub(crate) fn gather(
        &mut self,
        known: KnownProp,
        subjects: &Subjects,
        statements: &StatementSet,
    ) -> Result<(), NoMemory>
        ensures { OnOk result ((x : ℕ) → found self.new x ≡ join_all (found self.old x) (stated_by subjects.now statements.now known x)) }
    {
        for statement in statements.iter() {
            let Some(id) = named_by(known, statement) else {
                continue;
            };
            let part = subjects.at(statement.subject);
            if !part.bears(known) {
                continue;
            }
            let Some(phases) = part.phase else {
                continue;
            };
            self.join(id, phases)?;
        }
        Ok(())
    }
}

/// A set with the phases of another.
fn joined(set: Option<PhaseSet>, phases: PhaseSet) -> PhaseSet
    ensures { result ≡ join_one set phases }
{
    match set {
        Some(set) => set.join(phases),
        None => phases,
    }
}

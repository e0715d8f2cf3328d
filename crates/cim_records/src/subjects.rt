//! The subjects of a model, found by identifier.

ghost use Rattle.std.specs.Prelude.{◌≡◌, IfOk};
ghost use Rattle.cim_records.specs.Found.{found, known_of};
ghost use Rattle.cim_records.specs.Subject.{records};

use crate::subject::Subject;
use crate::subject_statements::read_subject;
use cim_words::{Id, NoMemory};
use indexmap::IndexMap;
use indexmap::map::Iter;
use statement_set::StatementSet;
use std::alloc::Global;
use std::marker::Model;

/// The subjects, in the order in which they were first seen, each with what is said of it.
#[derive(Drop)]
pub(crate) struct Subjects {
    entries: IndexMap<Id, Subject>,
}

impl Model for Subjects {
    ghost use Rattle.std.specs.Prelude.{List};
    ghost use Rattle.cim_words.specs.declared.identifier.Id.{Id};
    ghost use Rattle.cim_records.specs.declared.subject.Subject.{Subject};

    ghost Value = { List (Id × Subject) };

    ghost view = { λ subjects. subjects.entries.entries };
}

impl Subjects {
    /// The subjects of a set of statements, in ascending order.
    pub(crate) fn read(alloc: Global, statements: &StatementSet) -> Result<Subjects, NoMemory>
        ensures { IfOk result (λ subjects. subjects ≡ records statements.now) }
    {
        let mut entries = IndexMap::new(alloc);
        for (id, about) in statements.subjects() {
            entries.insert(id, read_subject(&about))?;
        }
        Ok(Subjects { entries })
    }

    /// What is said of a subject.
    pub(crate) fn get(&self, id: Id) -> Option<Subject>
        ensures { result ≡ found self.now id.number }
    {
        self.entries.get(&id).copied()
    }

    /// What is known of an identifier, which is nothing where it is no subject.
    pub(crate) fn at(&self, id: Id) -> Subject
        ensures { result ≡ known_of self.now id.number }
    {
        self.get(id).unwrap_or(Subject::unknown())
    }

    /// Goes over the subjects in their order.
    pub(crate) fn iter(&self) -> Iter<'_, Id, Subject>
        ensures { result ≡ self.now }
    {
        self.entries.iter()
    }
}

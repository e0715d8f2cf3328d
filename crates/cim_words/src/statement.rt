//! Statements.

ghost use Rattle.std.specs.Prelude.{◌≡◌, IfOk, IsTrue};
ghost use Rattle.cim_words.specs.Prop.{is_proper_prop};
ghost use Rattle.cim_words.specs.Object.{is_proper_object};

use crate::NoMemory;
use crate::identifier::Id;
use crate::object::Object;
use crate::prop::Prop;
use std::alloc::Global;

/// One statement of a model (RDF 1.1 N-Triples), ordered by subject, then property, then object.
///
/// Known properties stand in the order of their table and before all others. Objects are ordered as identifiers,
/// names and texts, each by number or bytes.
#[derive(Debug, Drop, PartialEq, Eq, PartialOrd, Ord)]
pub struct Statement {
    pub subject: Id,
    pub prop: Prop,
    pub object: Object,
    ghost proper_prop: { IsTrue (is_proper_prop prop) },
    ghost proper_object: { IsTrue (is_proper_object object) },
}

impl Statement {
    /// Another of the same.
    pub fn copy(&self, alloc: Global) -> Result<Statement, NoMemory>
        ensures { IfOk result (λ statement. statement ≡ self.now) }
    {
        Ok(Statement {
            subject: self.subject,
            prop: self.prop.copy(alloc)?,
            object: self.object.copy(alloc)?,
        })
    }
}

//! The object of a statement.

ghost use Rattle.std.specs.Prelude.{◌≡◌, IfOk, IsTrue, is_none};
ghost use Rattle.cim_words.specs.IdText.{iri_number};
ghost use Rattle.cim_words.specs.Object.{object_of, is_proper_object};

use crate::NoMemory;
use crate::identifier::Id;
use crate::word::Word;
use std::alloc::Global;
use std::marker::Model;

/// An IRI that spells no identifier.
#[derive(Debug, Drop, PartialEq, Eq, PartialOrd, Ord)]
pub struct Name {
    iri: Word,
}

impl Model for Name {
    ghost use Rattle.std.specs.Prelude.{ℕ, List, IsTrue, is_none};
    ghost use Rattle.cim_words.specs.IdText.{iri_number};

    ghost Value = { List ℕ };

    ghost view = { λ name. name.iri };

    ghost invariant = { λ name. IsTrue (is_none (iri_number name.iri)) };

    ghost inverse = { λ iri. record { iri = iri } };
}

impl Name {
    /// The name with an IRI that spells no identifier.
    fn of(alloc: Global, iri: &str) -> Result<Name, NoMemory>
        requires { IsTrue (is_none (iri_number iri.now)) }
        ensures { IfOk result (λ name. name ≡ iri.now) }
    {
        Ok(Name {
            iri: Word::of(alloc, iri)?,
        })
    }

    /// The IRI.
    pub fn iri(&self) -> &str
        ensures { result.now ≡ self.now }
    {
        self.iri.text()
    }

    /// Another of the same.
    fn copy(&self, alloc: Global) -> Result<Name, NoMemory>
        ensures { IfOk result (λ name. name ≡ self.now) }
    {
        Ok(Name {
            iri: self.iri.copy(alloc)?,
        })
    }
}

/// What a statement says that its subject's property is.
#[derive(Debug, Drop, PartialEq, Eq, PartialOrd, Ord)]
pub enum Object {
    /// Another subject, or what is none of the model's.
    Id(Id),
    /// An IRI that spells no identifier.
    Name(Name),
    /// The characters of a literal.
    Text(Word),
}

impl Object {
    ghost use Rattle.cim_words.specs.Held.{IsHeld};

    /// The object that an IRI names.
    pub fn of_iri(alloc: Global, text: &str) -> Result<Object, NoMemory>
        ensures names { IfOk result (λ object. object ≡ object_of text.now) }
        ensures proper { IfOk result (λ object. IsTrue (is_proper_object object)) }
        ensures held { IfOk result (λ object. IsHeld object) }
    {
        match Id::read_iri(text) {
            Ok(id) => Ok(Object::Id(id)),
            Err(_) => Ok(Object::Name(Name::of(alloc, text)?)),
        }
    }

    /// Another of the same.
    pub fn copy(&self, alloc: Global) -> Result<Object, NoMemory>
        ensures { IfOk result (λ object. object ≡ self.now) }
    {
        match self {
            Object::Id(id) => Ok(Object::Id(*id)),
            Object::Name(name) => Ok(Object::Name(name.copy(alloc)?)),
            Object::Text(word) => Ok(Object::Text(word.copy(alloc)?)),
        }
    }
}

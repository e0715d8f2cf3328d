//! The property of a statement.

ghost use Rattle.std.specs.Prelude.{◌≡◌, IfOk, IsTrue, is_none};
ghost use Rattle.std.specs.Str.{IsUtf8};
ghost use Rattle.cim_words.specs.KnownProp.{known_prop};
ghost use Rattle.cim_words.specs.Prop.{prop_of, prop_iri, is_proper_prop};

use crate::NoMemory;
use crate::known_prop::{KnownProp, known_with_iri};
use crate::table::Named;
use crate::word::Word;
use std::alloc::Global;
use std::marker::Model;

/// The IRI of a property that has no meaning here: never that of a known one.
#[derive(Debug, Drop, PartialEq, Eq, PartialOrd, Ord)]
pub struct OtherProp {
    iri: Word,
}

impl Model for OtherProp {
    ghost use Rattle.std.specs.Prelude.{ℕ, List, IsTrue, is_none};
    ghost use Rattle.cim_words.specs.KnownProp.{known_prop};

    ghost Value = { List ℕ };

    ghost view = { λ other. other.iri };

    ghost invariant = { λ other. IsTrue (is_none (known_prop other.iri)) };

    ghost inverse = { λ iri. record { iri = iri } };
}

impl OtherProp {
    /// The property with an IRI that is no known one's.
    fn of(alloc: Global, iri: &str) -> Result<OtherProp, NoMemory>
        requires { IsTrue (is_none (known_prop iri.now)) }
        ensures { IfOk result (λ other. other ≡ iri.now) }
    {
        Ok(OtherProp {
            iri: Word::of(alloc, iri)?,
        })
    }

    /// Its IRI.
    pub fn iri(&self) -> &str
        ensures { result.now ≡ self.now }
    {
        self.iri.text()
    }

    /// Another of the same.
    fn copy(&self, alloc: Global) -> Result<OtherProp, NoMemory>
        ensures { IfOk result (λ other. other ≡ self.now) }
    {
        Ok(OtherProp {
            iri: self.iri.copy(alloc)?,
        })
    }
}

/// What a statement says of its subject: a property with a meaning here, or any other.
#[derive(Debug, Drop, PartialEq, Eq, PartialOrd, Ord)]
pub enum Prop {
    Known(KnownProp),
    Other(OtherProp),
}

impl Prop {
    /// The property that an IRI names.
    pub fn of_iri(alloc: Global, text: &str) -> Result<Prop, NoMemory>
        ensures names { IfOk result (λ prop. prop ≡ prop_of text.now) }
        ensures proper { IfOk result (λ prop. IsTrue (is_proper_prop prop)) }
        ensures held { IfOk result (λ prop. IsUtf8 (prop_iri prop)) }
    {
        match known_with_iri(text) {
            Some(known) => Ok(Prop::Known(known)),
            None => Ok(Prop::Other(OtherProp::of(alloc, text)?)),
        }
    }

    /// Its IRI.
    pub fn iri(&self) -> &str
        ensures { result.now ≡ prop_iri self.now }
    {
        match self {
            Prop::Known(known) => known.iri(),
            Prop::Other(other) => other.iri(),
        }
    }

    /// Another of the same.
    pub fn copy(&self, alloc: Global) -> Result<Prop, NoMemory>
        ensures { IfOk result (λ prop. prop ≡ self.now) }
    {
        match self {
            Prop::Known(known) => Ok(Prop::Known(*known)),
            Prop::Other(other) => Ok(Prop::Other(other.copy(alloc)?)),
        }
    }
}

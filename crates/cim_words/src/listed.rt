//! Lists of values, and of statements above all.

ghost use Rattle.std.specs.Prelude.{◌≡◌, ◌<◌, length, ◌==◌, ◌++◌, ◌∷◌, [], slice_index_or, OnOk, IfErr};

use crate::NoMemory;
use crate::statement::Statement;
use std::alloc::Global;
use std::marker::Model;

/// A vector that contracts see as the list of its items.
#[derive(Drop)]
pub struct Listed<T> {
    items: Vec<T>,
}

/// A list of statements.
pub type Statements = Listed<Statement>;

impl<T> Model for Listed<T> {
    ghost use Rattle.std.specs.Prelude.{List};

    ghost Value = { List T };

    ghost view = { λ listed. listed.items.items };
}

impl<T> Listed<T> {
    /// The list without items.
    pub fn empty(alloc: Global) -> Self
        ensures { result ≡ [] }
    {
        Listed {
            items: Vec::new(alloc),
        }
    }

    /// The list of a vector's items.
    pub fn of(items: Vec<T>) -> Self
        ensures { result ≡ items.items }
    {
        Listed { items }
    }

    /// The vector of the items.
    pub fn into_vec(self) -> Vec<T>
        ensures { result.items ≡ self }
    {
        self.items
    }

    /// How many items there are.
    pub fn len(&self) -> usize
        ensures { result ≡ length self.now }
    {
        self.items.len()
    }

    /// Whether there are none.
    pub fn is_empty(&self) -> bool
        ensures { result ≡ (length self.now == 0) }
    {
        self.items.is_empty()
    }

    /// The item at an index.
    pub fn at(&self, index: usize) -> &T
        requires { index < length self.now }
        ensures { result.now ≡ slice_index_or self.now index result.now }
    {
        &self.items[index]
    }

    /// Appends an item, or hands it back.
    pub fn push(&mut self, item: T) -> Result<(), (NoMemory, T)>
        ensures ok { OnOk result (self.new ≡ self.old ++ item ∷ []) }
        ensures err { IfErr result (λ refused. (self.new ≡ self.old) × (refused.1 ≡ item)) }
    {
        match self.items.push(item) {
            Ok(()) => Ok(()),
            Err(refused) => Err((NoMemory, refused.value)),
        }
    }

    /// The items as a slice.
    pub fn as_slice(&self) -> &[T]
        ensures { result.now ≡ self.now }
    {
        &self.items
    }
}

//! What is gathered under identifiers.

ghost use Rattle.std.specs.Prelude.{◌≡◌, ◌==◌, ◌++◌, ◌∷◌, [], ℕ, OnOk, if◌then◌else◌};
ghost use Rattle.cim_records.specs.Found.{members};

use cim_words::{Id, Listed, NoMemory};
use indexmap::IndexMap;
use std::alloc::Global;
use std::marker::Model;

/// Lists of members, each found under an identifier.
#[derive(Drop)]
pub(crate) struct Groups<T> {
    lists: IndexMap<Id, Listed<T>>,
}

impl<T> Model for Groups<T> {
    ghost use Rattle.std.specs.Prelude.{List};
    ghost use Rattle.cim_words.specs.declared.identifier.Id.{Id};

    ghost Value = { List (Id × List T) };

    ghost view = { λ groups. groups.lists.entries };
}

impl<T: Copy> Groups<T> {
    /// No list.
    pub(crate) fn empty(alloc: Global) -> Self
        ensures { result ≡ [] }
    {
        Groups {
            lists: IndexMap::new(alloc),
        }
    }

    /// Appends a member to its list.
    pub(crate) fn add(&mut self, key: Id, member: T) -> Result<(), NoMemory>
        ensures { OnOk result ((x : ℕ) → members self.new x ≡ (if x == key.number then members self.old x ++ member ∷ [] else members self.old x)) }
    {
        if let Some(list) = self.lists.get_mut(&key) {
            return put(list, member);
        }
        let mut list = Listed::empty(*self.lists.allocator());
        put(&mut list, member)?;
        self.lists.insert(key, list)?;
        Ok(())
    }

    /// The members of a list, in the order in which they were added.
    pub(crate) fn members(&self, key: Id) -> &[T]
        ensures { result.now ≡ members self.now key.number }
    {
        match self.lists.get(&key) {
            Some(list) => list.as_slice(),
            None => &[],
        }
    }
}

/// Appends a member.
fn put<T: Copy>(list: &mut Listed<T>, member: T) -> Result<(), NoMemory>
    ensures { OnOk result (list.new ≡ list.old ++ member ∷ []) }
{
    match list.push(member) {
        Ok(()) => Ok(()),
        Err((failed, _)) => Err(failed),
    }
}

//! Texts that are noted in their order.

ghost use Rattle.std.specs.Prelude.{◌≡◌, [], ◌∷◌, ◌++◌, Some, IfSome, IfNone, IsSomeAnd, None};
ghost use Rattle.grid_out.specs.Notes.{Grows};

use std::alloc::Global;
use std::marker::Model;

/// Texts in the order in which they were noted. Once memory did not suffice for one, nothing is told of them any more.
#[derive(Drop)]
pub struct Notes {
    alloc: Global,
    notes: Option<Vec<Note>>,
}

/// One text.
#[derive(Drop)]
pub struct Note {
    bytes: Vec<u8>,
}

impl Model for Notes {
    ghost use Rattle.std.specs.Prelude.{ℕ, List, Option, option_map};

    ghost Value = { Option (List (List ℕ)) };

    ghost view = { λ notes. option_map (λ all. all.items) notes.notes };
}

impl Model for Note {
    ghost use Rattle.std.specs.Prelude.{ℕ, List};

    ghost Value = { List ℕ };

    ghost view = { λ note. note.bytes.items };
}

impl Note {
    /// The text's bytes.
    pub fn as_bytes(&self) -> &[u8]
        ensures { result.now ≡ self.now }
    {
        self.bytes.as_slice()
    }
}

impl Notes {
    /// No text yet. Takes no memory.
    pub(crate) fn new(alloc: Global) -> Notes
        ensures { result ≡ Some [] }
    {
        Notes {
            alloc,
            notes: Some(Vec::new(alloc)),
        }
    }

    /// Notes a text at the end.
    pub(crate) fn add(&mut self, text: &[u8])
        ensures { Grows self.old self.new (text.now ∷ []) }
    {
        self.notes = with_note(self.alloc, self.notes.take(), text);
    }

    /// The texts, as far as they are told.
    pub fn all(&self) -> Option<&[Note]>
        ensures told { IfSome result (λ notes. self.now ≡ Some notes.now) }
        ensures untold { IfNone result (self.now ≡ None) }
    {
        match &self.notes {
            Some(notes) => Some(notes.as_slice()),
            None => None,
        }
    }
}

/// These texts and one more, where memory suffices.
fn with_note(alloc: Global, notes: Option<Vec<Note>>, text: &[u8]) -> Option<Vec<Note>>
    ensures { IfSome result (λ all. IsSomeAnd notes (λ before. all.items ≡ before.items ++ text.now ∷ [])) }
{
    let mut notes = notes?;
    let bytes = Vec::from_slice(alloc, text).ok()?;
    notes.push(Note { bytes }).ok()?;
    Some(notes)
}

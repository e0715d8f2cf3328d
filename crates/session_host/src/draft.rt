//! The document that a session stages, as far as its lines have come.

ghost use Rattle.std.specs.Prelude.{◌≡◌, [], Some, IfOk, OnErr, IfSome, IfNone};
ghost use Rattle.session_host.specs.Told.{TakesLine};

use staging::Document;
use std::alloc::Global;
use std::marker::Model;

/// A document whose lines are taken one by one. Once memory does not suffice for one, it is dropped, and its lines are read on.
#[derive(Drop)]
pub(crate) struct Draft {
    kept: Option<Document>,
}

impl Model for Draft {
    ghost use Rattle.std.specs.Prelude.{ℕ, List, Option};

    ghost Value = { Option (Option (List ℕ)) };

    ghost view = { λ draft. draft.kept };
}

impl Draft {
    /// A document before its first line.
    pub(crate) fn new(alloc: Global) -> Draft
        ensures { result ≡ Some (Some []) }
    {
        Draft {
            kept: Some(Document::new(alloc)),
        }
    }

    /// Takes one more line.
    pub(crate) fn add(&mut self, line: &[u8])
        ensures { TakesLine self.old line.now self.new }
    {
        if let Some(document) = &mut self.kept {
            if document.add(line).is_err() {
                self.kept = None;
            }
        }
    }

    /// The document, unless it was dropped.
    pub(crate) fn document(&self) -> Option<&Document>
        ensures some { IfSome result (λ document. self.now ≡ Some document.now) }
        ensures none { IfNone result (self.now ≡ None) }
    {
        self.kept.as_ref()
    }
}

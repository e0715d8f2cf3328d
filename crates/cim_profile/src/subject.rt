//! One subject of a model.

ghost use Rattle.std.specs.Prelude.{◌≡◌, List};
ghost use Rattle.cim_words.specs.declared.statement.Statement.{Statement};
ghost use Rattle.cim_profile.specs.Facts.{kind_test};
ghost use Rattle.cim_model.specs.Model.{is_of};
ghost use Rattle.cim_profile.specs.Subject.{IsSubjectOf};

use crate::facts::names_any;
use crate::kind::Kind;
use crate::table::Row;
use cim_words::{Class, Id};
use statement_set::About;

/// A subject, the statements about it, and the classes that its type statements name.
#[derive(Drop)]
pub(crate) struct Subject<'a> {
    pub(crate) id: Id,
    pub(crate) statements: About<'a>,
    pub(crate) types: &'a [Row<Option<Class>>],
}

impl<'a> Subject<'a> {
    /// Whether the subject is of a kind.
    pub(crate) fn is_of(&self, kind: Kind) -> bool
        ensures { (m : List Statement) → IsSubjectOf m self.now → result ≡ is_of m (kind_test kind) self.now.id.number }
    {
        names_any(kind, self.types)
    }
}

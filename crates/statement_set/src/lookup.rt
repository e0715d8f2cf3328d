//! What a set of statements holds.

ghost use Rattle.std.specs.Prelude.{◌≡◌, ◌↔◌, ◌==◌, IsTrue, Contains};
ghost use Rattle.std.specs.List.{filter};
ghost use Rattle.cim_words.specs.declared.statement.Statement.{Statement};
ghost use Rattle.statement_set.specs.Set.{IsOrdered};

use crate::about::About;
use crate::set::StatementSet;
use crate::subjects::Subjects;
use cim_words::{Id, Statement, statements_are_ordered};

impl StatementSet {
    /// Whether the set holds a statement.
    pub fn contains(&self, statement: &Statement) -> bool
        ensures { IsTrue result ↔ Contains self.now statement.now }
    {
        is_among(statement, self.statements())
    }

    /// Goes over the statements, in order and each once.
    pub fn iter(&self) -> About<'_>
        ensures list { result ≡ self.now }
        ensures ordered { IsOrdered self.now }
    {
        About::of(self.statements())
    }

    /// Goes over the subjects, in order, each with the statements about it.
    pub fn subjects(&self) -> Subjects<'_>
        ensures list { result ≡ self.now }
        ensures ordered { IsOrdered self.now }
    {
        Subjects::of(self.statements())
    }

    /// Goes over the statements about a subject, in order.
    pub fn about(&self, subject: Id) -> About<'_>
        ensures { result ≡ filter (λ (s : Statement). s.subject.number == subject.number) self.now }
    {
        About::of(self.statements_about(subject))
    }

    /// The statements about a subject, in order.
    fn statements_about(&self, subject: Id) -> &[Statement]
        ensures { result.now ≡ filter (λ (s : Statement). s.subject.number == subject.number) self.now }
    {
        let statements = self.statements();
        let before = statements.partition_point(|s| s.subject.number < subject.number);
        let rest = &statements[before..];
        let within = rest.partition_point(|s| s.subject.number <= subject.number);
        &rest[..within]
    }
}

/// Whether an ordered list holds a statement.
pub(crate) fn is_among(statement: &Statement, ordered: &[Statement]) -> bool
    requires { IsOrdered ordered.now }
    ensures { IsTrue result ↔ Contains ordered.now statement.now }
{
    statements_are_ordered();
    ordered.binary_search(statement).is_ok()
}

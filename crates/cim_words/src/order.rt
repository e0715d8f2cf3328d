//! The order of statements.

ghost use Rattle.std.specs.Prelude.{◌≡◌};
ghost use Rattle.std.specs.Cmp.{IsTotalOrder};
ghost use Rattle.std.specs.declared.cmp.Ordering.TheVariants.{Equal};
ghost use Rattle.cim_words.specs.Order.{statement_order};
ghost use Rattle.cim_words.specs.declared.statement.Statement.{Statement};

use crate::statement::Statement;
use std::cmp::Ordering;

impl Statement {
    /// How a statement stands to another: by subject, then property, then object.
    pub fn order(&self, other: &Statement) -> Ordering
        ensures { result ≡ statement_order self.now other.now }
    {
        statements_are_ordered();
        self.cmp(other)
    }
}

/// The derived order of statements is the order by subject, then property, then object. It is total, and it tells
/// different statements apart.
pub fn statements_are_ordered()
    ensures derived { (s t : Statement) → ⟦<Statement as Ord>⟧.cmp s t ≡ statement_order s t }
    ensures total { IsTotalOrder statement_order }
    ensures apart { (s t : Statement) → statement_order s t ≡ Equal → s ≡ t }
{}

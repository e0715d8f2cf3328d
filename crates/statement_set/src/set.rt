//! Sets of statements.

ghost use Rattle.std.specs.Prelude.{◌≡◌, ◌↔◌, ◌≤◌, ◌<◌, ◌==◌, List, Contains, length, slice_index_or, IfOk, IsTrue};
ghost use Rattle.cim_words.specs.declared.statement.Statement.{Statement};
ghost use Rattle.statement_set.specs.Gives.{Gives};
ghost use Rattle.statement_set.specs.Set.{IsOrdered, most_statements};

use crate::once::order_once;
use crate::refusal::SetRefusal;
use cim_words::{NoMemory, Statement, Statements};
use std::alloc::Global;
use std::marker::Model;
use std::sync::Arc;

/// How many statements a set may have.
const MOST_STATEMENTS: usize = 1_000_000;

/// A set of statements: their list in order, each once, which is shared and does not change.
#[derive(Drop)]
pub struct StatementSet {
    shared: Arc<Vec<Statement>>,
}

impl Model for StatementSet {
    ghost use Rattle.std.specs.Prelude.{List, length, ◌≤◌};
    ghost use Rattle.std.specs.Arc.{arc_value};
    ghost use Rattle.cim_words.specs.declared.statement.Statement.{Statement};
    ghost use Rattle.statement_set.specs.Set.{IsOrdered, most_statements};

    ghost Value = { List Statement };

    ghost view = { λ set. (arc_value set.shared).items };

    ghost invariant = { λ set. IsOrdered (arc_value set.shared).items × (length (arc_value set.shared).items ≤ most_statements) };
}

impl StatementSet {
    /// The set of the statements in a list.
    pub fn from_list(alloc: Global, items: Statements) -> Result<StatementSet, SetRefusal>
        ensures { Gives (Contains items) result }
    {
        let mut statements = items.into_vec();
        order_once(&mut statements);
        StatementSet::of_ordered(alloc, statements)
    }

    /// The set of the statements of an ordered vector, unless they are too many.
    pub(crate) fn of_ordered(
        alloc: Global,
        statements: Vec<Statement>,
    ) -> Result<StatementSet, SetRefusal>
        requires { IsOrdered statements.items }
        ensures { Gives (Contains statements.items) result }
    {
        if statements.len() > MOST_STATEMENTS {
            return Err(SetRefusal::TooMany(statements.len() as u64));
        }
        match Arc::new(alloc, statements) {
            Ok(shared) => Ok(StatementSet { shared }),
            Err(_) => Err(SetRefusal::NoMemory),
        }
    }

    /// The same set once more.
    pub fn share(&self) -> Result<StatementSet, NoMemory>
        ensures { IfOk result (λ set. set ≡ self.now) }
    {
        Ok(StatementSet {
            shared: Arc::try_clone(&self.shared)?,
        })
    }

    /// The statements, in order and each once.
    pub(crate) fn statements(&self) -> &[Statement]
        ensures list { result.now ≡ self.now }
        ensures ordered { IsOrdered self.now }
        ensures small { length self.now ≤ most_statements }
    {
        self.shared.as_slice()
    }

    /// How many statements there are.
    pub fn len(&self) -> usize
        ensures count { result ≡ length self.now }
        ensures small { result ≤ most_statements }
    {
        self.statements().len()
    }

    /// Whether there are none.
    pub fn is_empty(&self) -> bool
        ensures { result ≡ (length self.now == 0) }
    {
        self.statements().is_empty()
    }

    /// The statement at an index.
    pub fn at(&self, index: usize) -> &Statement
        requires { index < length self.now }
        ensures { result.now ≡ slice_index_or self.now index result.now }
    {
        &self.statements()[index]
    }
}

/// Two ordered lists with the same members are one list.
pub fn one_set()
    ensures { (these those : List Statement) → IsOrdered these → IsOrdered those → ((s : Statement) → Contains these s ↔ Contains those s) → these ≡ those }
{}

//! Copies of statements.

ghost use Rattle.std.specs.Prelude.{◌≡◌, ◌≤◌, ◌++◌, length, IfOk, OnOk};
ghost use Rattle.statement_set.specs.Set.{IsOrdered, IsSetOf, IsInFirstAlone};

use crate::lookup::is_among;
use cim_words::{NoMemory, Statement};
use std::alloc::Global;

/// Appends copies of statements.
pub(crate) fn append_copies(
    statements: &[Statement],
    into: &mut Vec<Statement>,
) -> Result<(), NoMemory>
    ensures { OnOk result (into.new.items ≡ into.old.items ++ statements.now) }
{
    let alloc = *into.allocator();
    for statement in statements {
        into.push(statement.copy(alloc)?)?;
    }
    Ok(())
}

/// Copies of the statements of an ordered list that are not in another.
pub(crate) fn copies_apart(
    alloc: Global,
    statements: &[Statement],
    gone: &[Statement],
) -> Result<Vec<Statement>, NoMemory>
    requires ordered { IsOrdered statements.now }
    requires gone { IsOrdered gone.now }
    ensures apart { IfOk result (λ kept. IsSetOf (IsInFirstAlone statements.now gone.now) kept.items) }
    ensures few { IfOk result (λ kept. length kept.items ≤ length statements.now) }
{
    let mut kept = Vec::new(alloc);
    for statement in statements {
        if is_among(statement, gone) {
            continue;
        }
        kept.push(statement.copy(alloc)?)?;
    }
    Ok(kept)
}

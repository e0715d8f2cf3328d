//! Vectors in order.

ghost use Rattle.std.specs.Prelude.{◌≡◌, ◌↔◌, Contains};
ghost use Rattle.std.specs.List.Sorted.{IsStrictlySortedBy};
ghost use Rattle.statement_set.specs.Set.{IsSetOf};
ghost use Rattle.std.specs.declared.cmp.Ordering.TheVariants.{Equal};

use cim_words::{Statement, statements_are_ordered};

/// Puts statements in order and keeps each once.
pub(crate) fn order_once(statements: &mut Vec<Statement>)
    ensures { IsSetOf (Contains statements.old.items) statements.new.items }
{
    statements_are_ordered();
    sort_once(statements);
}

/// Puts a vector in order and keeps each item once. It takes no memory.
pub fn sort_once<T: Ord + Drop>(items: &mut Vec<T>)
    ensures ordered { IsStrictlySortedBy T.cmp items.new.items }
    ensures same { ((x y : T) → T.cmp x y ≡ Equal → x ≡ y) → (x : T) → Contains items.new.items x ↔ Contains items.old.items x }
{
    items.sort_unstable();
    items.dedup();
}

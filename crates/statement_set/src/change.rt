//! Sets made of others.

ghost use Rattle.std.specs.Prelude.{◌≡◌, IfErr};
ghost use Rattle.statement_set.specs.Gives.{Gives};
ghost use Rattle.statement_set.specs.Set.{IsInEither, IsInFirstAlone};
ghost use Rattle.statement_set.specs.declared.refusal.SetRefusal.TheVariants.{NoMemory as no_memory};

use crate::copies::{append_copies, copies_apart};
use crate::merge::merged;
use crate::once::order_once;
use crate::refusal::SetRefusal;
use crate::set::StatementSet;
use cim_words::Statements;
use std::alloc::Global;

impl StatementSet {
    /// The set of these statements and more.
    pub fn with(&self, alloc: Global, more: &Statements) -> Result<StatementSet, SetRefusal>
        ensures { Gives (IsInEither self.now more.now) result }
    {
        let mut new = Vec::new(alloc);
        append_copies(more.as_slice(), &mut new)?;
        order_once(&mut new);
        StatementSet::of_ordered(alloc, merged(alloc, self.statements(), &new)?)
    }

    /// The set of those of these statements that are not among others. They are never too many.
    pub fn without(&self, alloc: Global, less: &Statements) -> Result<StatementSet, SetRefusal>
        ensures set { Gives (IsInFirstAlone self.now less.now) result }
        ensures small { IfErr result (λ refusal. refusal ≡ no_memory) }
    {
        let mut gone = Vec::new(alloc);
        append_copies(less.as_slice(), &mut gone)?;
        order_once(&mut gone);
        StatementSet::of_ordered(alloc, copies_apart(alloc, self.statements(), &gone)?)
    }
}

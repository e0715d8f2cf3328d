//! What a difference asks of a model, and what it makes of it.

ghost use Rattle.std.specs.Prelude.{◌<◌, ◌^◌, length};
ghost use Rattle.difference.specs.Result.{IsFirstMissing, IsInResult};
ghost use Rattle.statement_set.specs.Gives.{Gives};

use cim_words::Statements;
use room_words::Difference;
use statement_set::{SetRefusal, StatementSet};
use std::alloc::Global;

/// The number of the first statement of a list that is not in a set, counted from 1.
pub fn first_missing(set: &StatementSet, list: &Statements) -> Option<u32>
    requires { length list.now < 2 ^ 32 }
    ensures { IsFirstMissing set.now list.now result }
{
    let place = list
        .as_slice()
        .iter()
        .position(|statement| !set.contains(statement))?;
    Some(place as u32 + 1)
}

/// The model without the reverse statements of a difference, and then with its forward statements.
pub fn apply(
    alloc: Global,
    set: &StatementSet,
    difference: &Difference,
) -> Result<StatementSet, SetRefusal>
    ensures { Gives (IsInResult set.now difference.now) result }
{
    set.without(alloc, difference.rev())?
        .with(alloc, difference.fwd())
}

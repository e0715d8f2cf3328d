//! A base from its bytes.

ghost use Rattle.std.specs.Prelude.{◌≡◌, ◌≤◌, length, IfOk, IfErr};
ghost use Rattle.room_base.specs.Base.{IsBase, RefusesBase, base_limit};
ghost use Rattle.room_base.specs.Refusal.{IfRefusal};

use crate::refusal::{BaseRefusal, Failure};
use cim_profile::{Break, first_break};
use nt_text::read_document;
use statement_set::StatementSet;
use std::alloc::Global;

/// The set of statements of a base, or why the bytes are none: too many different statements, a bad line or a broken rule of the
/// profile. Memory may not suffice.
pub fn read_base(alloc: Global, bytes: Vec<u8>) -> Result<StatementSet, Failure<BaseRefusal>>
    requires { length bytes.items ≤ base_limit }
    ensures base { IfOk result (IsBase bytes.items) }
    ensures refused { IfErr result (λ failure. IfRefusal failure (RefusesBase bytes.items)) }
{
    let statements = read_document(alloc, &bytes)?;
    // The bytes are let go before the statements are put in order.
    drop(bytes);
    let set = StatementSet::from_list(alloc, statements)?;
    match first_break(alloc, &set)? {
        None => Ok(set),
        Some(Break { rule, subject }) => {
            Err(Failure::Refusal(BaseRefusal::Profile { rule, subject }))
        }
    }
}

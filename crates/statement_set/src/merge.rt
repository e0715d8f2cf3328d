//! Ordered lists, merged.

ghost use Rattle.std.specs.Prelude.{IfOk};
ghost use Rattle.statement_set.specs.Set.{IsInEither, IsOrdered, IsSetOf};

use crate::copies::append_copies;
use cim_words::{NoMemory, Statement};
use std::alloc::Global;
use std::cmp::Ordering;

/// Copies of the statements of two ordered lists, in order and each once, in one pass over both.
pub(crate) fn merged(
    alloc: Global,
    these: &[Statement],
    those: &[Statement],
) -> Result<Vec<Statement>, NoMemory>
    requires these { IsOrdered these.now }
    requires those { IsOrdered those.now }
    ensures { IfOk result (λ merged. IsSetOf (IsInEither these.now those.now) merged.items) }
{
    let mut merged = Vec::new(alloc);
    let mut left = these;
    let mut right = those;
    while let [first, after_first @ ..] = left {
        let [other, after_other @ ..] = right else {
            break;
        };
        match first.order(other) {
            Ordering::Less => {
                merged.push(first.copy(alloc)?)?;
                left = after_first;
            }
            Ordering::Equal => {
                merged.push(first.copy(alloc)?)?;
                (left, right) = (after_first, after_other);
            }
            Ordering::Greater => {
                merged.push(other.copy(alloc)?)?;
                right = after_other;
            }
        }
    }
    append_copies(left, &mut merged)?;
    append_copies(right, &mut merged)?;
    Ok(merged)
}

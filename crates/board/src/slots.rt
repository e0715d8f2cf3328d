//! The slots of a new table.
ghost use Rattle.std.specs.Prelude.{◌≡◌, IfOk};
ghost use Rattle.board.specs.Laid.{laid};

use crate::NoMemory;
use crate::dated::Dated;
use std::alloc::Global;

/// Three slots for each console, with one copy of the version.
pub(crate) fn lay_slots<V: Dated + Send + Sync>(
    alloc: Global,
    version: &V,
    consoles: u8,
) -> Result<Vec<Option<V>>, NoMemory>
    ensures { IfOk result (λ slots. slots.items ≡ laid consoles version.now) }
{
    let mut slots = Vec::new(alloc);
    for made in 0..consoles {
        slots.push(None)?;
        slots.push(None)?;
        slots.push(Some(version.share()?))?;
    }
    Ok(slots)
}

//! The text of a check.

ghost use Rattle.std.specs.Prelude.{◌≡◌, IfOk};
ghost use Rattle.room_plain.specs.CheckText.{check_text};

use cim_words::NoMemory;
use std::alloc::Global;

/// The text of a check: `ok` and the number of different statements.
pub(crate) fn write_check(alloc: Global, count: usize) -> Result<Vec<u8>, NoMemory>
    ensures { IfOk result (λ text. text.items ≡ check_text count) }
{
    let mut text = Vec::from_slice(alloc, b"ok ")?;
    text.extend_from_slice(count.to_string(alloc)?.as_bytes())?;
    text.push(b'\n')?;
    Ok(text)
}

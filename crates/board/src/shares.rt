//! Several copies of one version.
ghost use Rattle.std.specs.Prelude.{◌≡◌, replicate, IfOk};

use crate::NoMemory;
use crate::dated::Dated;
use std::alloc::Global;

/// This many copies.
pub(crate) fn shares<V: Dated + Send + Sync>(
    alloc: Global,
    version: &V,
    count: u8,
) -> Result<Vec<V>, NoMemory>
    ensures { IfOk result (λ copies. copies.items ≡ replicate count version.now) }
{
    let mut copies = Vec::new(alloc);
    for made in 0..count {
        copies.push(version.share()?)?;
    }
    Ok(copies)
}

//! A version that is ready to be published.
ghost use Rattle.std.specs.Prelude.{◌≡◌, ◌<◌, ◌≤◌, IfOk};

use crate::advance::Advance;
use board::{Copies, NoMemory};
use room_words::Entry;
use std::alloc::Global;
use std::marker::Model;
use std::snapshot::Snapshot;

/// The version that an accepted entry makes, with a copy for each console: nothing is left to be taken for its commit.
#[derive(Drop)]
pub struct Prepared<V: Advance + Send + Sync> {
    pub(crate) copies: Copies<V>,
    pub(crate) entry: Snapshot<Entry>,
    pub(crate) console: u8,
    pub(crate) serial: u32,
    pub(crate) number: u32,
}

impl<V: Advance + Send + Sync> Model for Prepared<V> {
    ghost use Rattle.std.specs.Prelude.{◌≡◌, length};
    ghost use Rattle.desk.specs.Ends.{PreparedState};

    ghost Value = { PreparedState V };

    ghost view = { λ p. record { entry = p.entry.value; version = p.copies.version; consoles = p.copies.consoles } };

    ghost invariant = { λ p. (p.console ≡ p.entry.value.console) × (p.serial ≡ p.entry.value.serial) × (p.number ≡ length (V.log p.copies.version)) };
}

/// The version with its copies, for its entry.
pub(crate) fn make_copies<V: Advance + Send + Sync>(
    alloc: Global,
    entry: &Entry,
    version: V,
    consoles: u8,
) -> Result<Prepared<V>, NoMemory>
    requires { (0 < consoles) × (consoles ≤ 16) }
    ensures { IfOk result (λ prepared. prepared ≡ record { entry = entry.now; version = version; consoles = consoles }) }
{
    let number = version.number();
    match Copies::of(alloc, version, consoles) {
        Ok(copies) => Ok(Prepared {
            copies,
            entry: Snapshot::of(entry),
            console: entry.console,
            serial: entry.serial,
            number,
        }),
        Err((failed, _)) => Err(failed),
    }
}

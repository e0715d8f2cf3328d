//! A version with its copies.
ghost use Rattle.std.specs.Prelude.{◌≡◌, ◌<◌, ◌≤◌, IfOk, IfErr};

use crate::NoMemory;
use crate::dated::Dated;
use crate::shares::shares;
use std::alloc::Global;
use std::marker::Model;

/// A version to be published, with one copy of it for each console.
#[derive(Drop)]
pub struct Copies<V: Dated + Send + Sync> {
    pub(crate) version: V,
    pub(crate) shares: Vec<V>,
}

impl<V: Dated + Send + Sync> Model for Copies<V> {
    ghost use Rattle.std.specs.Prelude.{◌≡◌, length, replicate};
    ghost use Rattle.board.specs.Ends.{CopiesState, copies_code};

    ghost Value = { CopiesState V };

    ghost coded = { copies_code V.code };

    ghost view = { λ k. record { version = k.version; consoles = length k.shares.items } };

    ghost invariant = { λ k. k.shares.items ≡ replicate (length k.shares.items) k.version };
}

impl<V: Dated + Send + Sync> Copies<V> {
    /// The version and one copy for each console, of which there are 1 to 16. The version comes back where there is no memory.
    pub fn of(alloc: Global, version: V, consoles: u8) -> Result<Copies<V>, (NoMemory, V)>
        requires { (0 < consoles) × (consoles ≤ 16) }
        ensures ok { IfOk result (λ copies. copies ≡ record { version = version; consoles = consoles }) }
        ensures err { IfErr result (λ refused. refused.1 ≡ version) }
    {
        match shares(alloc, &version, consoles) {
            Ok(shares) => Ok(Copies { version, shares }),
            Err(failed) => Err((failed, version)),
        }
    }
}

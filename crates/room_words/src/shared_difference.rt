//! A difference that many holders have.

ghost use Rattle.std.specs.Prelude.{◌≡◌, IfOk};

use crate::difference::Difference;
use cim_words::NoMemory;
use shared_parts::Share;
use std::alloc::Global;
use std::marker::Model;
use std::sync::Arc;

/// A difference that many holders have, as the entries of many versions do. It does not change.
#[derive(Drop)]
pub struct SharedDifference {
    shared: Arc<Difference>,
}

impl Model for SharedDifference {
    ghost use Rattle.std.specs.Arc.{arc_value};
    ghost use Rattle.room_words.specs.Differences.{Changes};

    ghost Value = { Changes };

    ghost view = { λ d. arc_value d.shared };
}

impl SharedDifference {
    /// The difference, for many holders.
    pub fn of(alloc: Global, difference: Difference) -> Result<SharedDifference, NoMemory>
        ensures { IfOk result (λ shared. shared ≡ difference) }
    {
        match Arc::new(alloc, difference) {
            Ok(shared) => Ok(SharedDifference { shared }),
            Err(_) => Err(NoMemory),
        }
    }

    /// The difference.
    pub fn difference(&self) -> &Difference
        ensures { result.now ≡ self.now }
    {
        &self.shared
    }
}

impl Share for SharedDifference {
    fn share(&self) -> Result<SharedDifference, NoMemory> {
        Ok(SharedDifference {
            shared: Arc::try_clone(&self.shared)?,
        })
    }
}

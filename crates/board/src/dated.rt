//! A value with a log.
ghost use Rattle.std.specs.Prelude.{◌≡◌, List, length, IfOk};

use crate::NoMemory;

/// A version of something that only grows: contracts see of it a log, whose length is its number, and where it began.
pub trait Dated: Drop {
    /// What the log lists.
    type Item;

    /// What contracts see of where it began.
    type Origin;

    ghost log: { Self → List Self.Item };

    ghost origin: { Self → Self.Origin };

    /// How many items the log has.
    fn number(&self) -> u32
        ensures { result ≡ length (log self.now) };

    /// Another copy, unless there is no memory for it.
    fn share(&self) -> Result<Self, NoMemory>
        ensures { IfOk result (λ copy. copy ≡ self.now) };
}

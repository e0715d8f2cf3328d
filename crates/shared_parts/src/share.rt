//! Sharing a value.

ghost use Rattle.std.specs.Prelude.{◌≡◌, IfOk};

pub use std::alloc::AllocError as NoMemory;

/// A value that can be shared: another holder gets an equal one. A share that counts its holders can be refused.
pub trait Share: Sized {
    /// The same value for another holder.
    fn share(&self) -> Result<Self, NoMemory>
        ensures { IfOk result (λ share. share ≡ self.now) };
}

//! The two failures that every part of the program shares.

use thiserror::Error;

/// Want of memory, the same type in every crate.
pub use std::alloc::AllocError as NoMemory;

/// The outside failed: a fault of a file, a terminal or a connection, which is all that is told of it.
#[derive(Clone, Copy, Debug, PartialEq, Eq, Error)]
#[error("the outside failed")]
pub struct Failed;

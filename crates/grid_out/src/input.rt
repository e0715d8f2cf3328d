//! The bytes that a link in memory still gives.

ghost use Rattle.std.specs.Prelude.{◌≡◌, ◌<◌, ◌↔◌, [], ◌++◌, length, min, take, drop, IfOk};

use crate::failure::NoMemory;
use std::alloc::Global;
use std::marker::Model;

/// Bytes that are read from their front on.
#[derive(Drop)]
pub(crate) struct Input {
    bytes: Vec<u8>,
    taken: usize,
}

impl Model for Input {
    ghost use Rattle.std.specs.Prelude.{◌≤◌, ℕ, List, drop, vec_len};

    ghost Value = { List ℕ };

    ghost view = { λ input. drop input.taken input.bytes.items };

    ghost invariant = { λ input. input.taken ≤ vec_len input.bytes };
}

impl Input {
    /// These bytes, of which none was read.
    pub(crate) fn new(alloc: Global, bytes: &[u8]) -> Result<Input, NoMemory>
        ensures { IfOk result (λ input. input ≡ bytes.now) }
    {
        Ok(Input {
            bytes: Vec::from_slice(alloc, bytes)?,
            taken: 0,
        })
    }

    /// The bytes that are left.
    fn left(&self) -> &[u8]
        ensures { result.now ≡ self.now }
    {
        &self.bytes[self.taken..]
    }

    /// Reads as many as there are, and at most as many as `into` is long.
    pub(crate) fn read(&mut self, into: &mut [u8]) -> usize
        requires { 0 < length into.old }
        ensures length { length into.new ≡ length into.old }
        ensures count { result ≡ min (length into.old) (length self.old) }
        ensures ended { (result ≡ 0) ↔ (self.old ≡ []) }
        ensures taken { self.old ≡ take result into.new ++ self.new }
        ensures rest { self.new ≡ drop result self.old }
    {
        let count = copy_front(self.left(), into);
        self.taken += count;
        count
    }
}

/// Copies as many bytes as both hold, front to front, and gives their number.
fn copy_front(from: &[u8], into: &mut [u8]) -> usize
    ensures length { length into.new ≡ length into.old }
    ensures count { result ≡ min (length into.old) (length from.now) }
    ensures front { take result into.new ≡ take result from.now }
{
    let count = into.len().min(from.len());
    into[..count].copy_from_slice(&from[..count]);
    count
}

//! The bytes of one read.

ghost use Rattle.std.specs.Prelude.{◌≡◌, ◌<◌, ◌≤◌, length, take, IfOk, OnErr, is_err};
ghost use Rattle.grid_out.specs.Faults.{CountsFaults};
ghost use Rattle.grid_out.specs.Link.{EndsWhereNoneIsLeft, TakesOff};

use grid_out::{Failed, Link, NoMemory};
use std::alloc::Global;
use std::marker::Model;

/// How many bytes are read at once.
const MOST_READ: usize = 8192;

/// The bytes that the last read gave.
#[derive(Drop)]
pub(crate) struct Chunk {
    space: Vec<u8>,
    count: usize,
}

impl Model for Chunk {
    ghost use Rattle.std.specs.Prelude.{ℕ, ◌<◌, ◌≤◌, List, take, length};

    ghost Value = { List ℕ };

    ghost view = { λ chunk. take chunk.count chunk.space.items };

    ghost invariant = { λ chunk. (chunk.count ≤ length chunk.space.items) × (0 < length chunk.space.items) };
}

impl Chunk {
    /// No bytes. The memory for those of a read is taken now.
    pub(crate) fn new(alloc: Global) -> Result<Chunk, NoMemory> {
        Ok(Chunk {
            space: Vec::from_slice(alloc, &[0; MOST_READ])?,
            count: 0,
        })
    }

    /// The bytes.
    pub(crate) fn bytes(&self) -> &[u8]
        ensures { result.now ≡ self.now }
    {
        &self.space[..self.count]
    }

    /// Reads bytes in place of those that were here, at most so many, and gives their number.
    pub(crate) fn read<L: Link>(&mut self, link: &mut L, most: usize) -> Result<usize, Failed>
        requires { 0 < most }
        ensures count { IfOk result (λ n. n ≡ length self.new) }
        ensures within { IfOk result (λ n. n ≤ most) }
        ensures taken { IfOk result (λ _. TakesOff (L.left link.old) (L.left link.new) self.new) }
        ensures ended { IfOk result (EndsWhereNoneIsLeft (L.left link.old)) }
        ensures failed { OnErr result (L.left link.new ≡ L.left link.old) }
        ensures written { L.written link.new ≡ L.written link.old }
        ensures cause { CountsFaults (L.read_faults link.old) (L.read_faults link.new) (is_err result) }
        ensures other { L.write_faults link.new ≡ L.write_faults link.old }
    {
        self.count = 0;
        let count = read_front(link, &mut self.space, most)?;
        self.count = count;
        Ok(count)
    }
}

/// Reads to the front of a space, at most so many bytes.
fn read_front<L: Link>(link: &mut L, into: &mut [u8], most: usize) -> Result<usize, Failed>
    requires some { 0 < most }
    requires space { 0 < length into.old }
    ensures within { IfOk result (λ n. n ≤ length into.old) }
    ensures no_more { IfOk result (λ n. n ≤ most) }
    ensures taken { IfOk result (λ n. TakesOff (L.left link.old) (L.left link.new) (take n into.new)) }
    ensures ended { IfOk result (EndsWhereNoneIsLeft (L.left link.old)) }
    ensures failed { OnErr result (L.left link.new ≡ L.left link.old) }
    ensures written { L.written link.new ≡ L.written link.old }
    ensures cause { CountsFaults (L.read_faults link.old) (L.read_faults link.new) (is_err result) }
    ensures other { L.write_faults link.new ≡ L.write_faults link.old }
{
    let space = most.min(into.len());
    link.read(&mut into[..space])
}

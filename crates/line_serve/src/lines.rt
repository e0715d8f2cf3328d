//! The memory that sessions of lines are served with.

use crate::begun::Begun;
use crate::chunk::Chunk;
use grid_out::NoMemory;
use std::alloc::Global;
use std::marker::Model;

/// What is read into, the line that is begun, and the text of an answer. It serves any number of sessions, one after another.
#[derive(Drop)]
pub struct LineRoom {
    pub(crate) chunk: Chunk,
    pub(crate) begun: Begun,
    pub(crate) out: Vec<u8>,
}

impl Model for LineRoom {
    ghost Value = { Unit {0} };

    ghost view = { λ _. tt };
}

impl LineRoom {
    /// Takes the memory for what is read and for a line.
    pub fn new(alloc: Global) -> Result<LineRoom, NoMemory> {
        Ok(LineRoom {
            chunk: Chunk::new(alloc)?,
            begun: Begun::new(alloc)?,
            out: Vec::new(alloc),
        })
    }
}

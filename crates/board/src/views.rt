//! What a seat at the board's table knows. No value of these types is made.
use std::alloc::Global;
use std::collections::LinkedList;

/// A list that was joined in, and where it began.
pub struct Old<I, O> {
    pub list: LinkedList<I, Global>,
    pub origin: Option<O>,
}

/// What the writer knows of each console.
pub struct Sending {
    /// The number of the version that was sent there last.
    pub sent: LinkedList<u64, Global>,
    /// The slot, of the console's three, that the writer has.
    pub back: LinkedList<u64, Global>,
    /// At the consoles below it the writer has its slot.
    pub held: u64,
    /// The consoles below it have a reader.
    pub started: u64,
}

/// What a reader knows.
pub struct Watching {
    pub console: u64,
    /// For each look the number that was newest there.
    pub founds: LinkedList<u64, Global>,
    /// The slot, of the console's three, that the reader has.
    pub front: u64,
    /// The number of the version that it has.
    pub number: u64,
    /// It found a fresh version, and has not collected it.
    pub pending: bool,
    /// It has its slot.
    pub ready: bool,
}

pub enum Role {
    Spent,
    Note,
    Copy,
    Reader(Watching),
    Writer(Sending),
}

/// What a seat knows: a list, which was published, and what its role needs.
pub struct Knows<I, O> {
    pub role: Role,
    pub list: LinkedList<I, Global>,
    /// The lists that were joined in and are not compared with it yet.
    pub olds: LinkedList<Old<I, O>, Global>,
    /// Where the versions of the board began. A spent seat has none.
    pub origin: Option<O>,
}

//! What a version holds.

use crate::serials::Counts;
use cim_records::Index;
use graph_pages::Graph;
use room_words::{Entry, Overlay};
use shared_parts::SharedList;
use statement_set::StatementSet;

/// The base and the log, and the network that they make: its index, its overlay and its graph.
#[derive(Drop)]
pub(crate) struct Held {
    pub(crate) base: StatementSet,
    pub(crate) log: SharedList<Entry>,
    /// How many entries of the log each console has.
    pub(crate) counts: Counts,
    /// How many bytes the written forms of the log's differences have together.
    pub(crate) bytes: u64,
    pub(crate) index: Index,
    pub(crate) overlay: Overlay,
    pub(crate) graph: Graph,
}

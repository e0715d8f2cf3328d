//! The live network as a graph: two maps, from equipment and items to their stars, and from places to the terminals that stand there.
#![tactic(auto)]

mod bucket;
mod build;
mod counts;
mod edit;
mod entries;
mod fold;
mod gather;
mod graph;
mod keyed;
mod maps;
mod paged_map;
mod star;

pub use cim_words::NoMemory;
pub use edit::GraphEdit;
pub use graph::{Graph, Stars};
pub use room_words::{Members, Term, TermKey};
pub use star::{Pass, Sections, Spoke, SpokePhases, Spokes, Star};

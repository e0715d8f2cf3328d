//! Sessions of lines: each line that comes over a link is answered whole, in order.
#![tactic(auto)]

mod answerer;
mod answering;
mod begun;
mod chunk;
mod going;
mod lines;
mod serving;

pub use answerer::{Answerer, Next};
pub use lines::LineRoom;
pub use serving::{LinesEnd, serve_lines};

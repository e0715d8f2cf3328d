//! N-Triples lines (RDF 1.1 N-Triples): the one line that is written for a statement, read and written.
#![tactic(auto)]

mod characters;
mod cut;
mod ends;
mod lengths;
mod lines;
mod quotes;
mod reader;
mod reading;
mod refusal;
mod run;
mod spelling;
mod terms;
mod triple;
mod writing;

pub use cim_words::NoMemory;
pub use cut::cut_at;
pub use lengths::line_length;
pub use lines::Lines;
pub use reader::{LineReader, documents_have_one_reading, read_document};
pub use reading::{
    LINE_LIMIT, lines_have_one_reading, read_line, read_written, written_lines_are_read,
};
pub use refusal::{LineFault, LineRefusal, NtFault};
pub use writing::{lines_are_cut_apart, lines_are_whole, lines_differ, write_statement};

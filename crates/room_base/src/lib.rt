//! What the commands of the program share: a base from its bytes, files from a shelf, and why and how a run ends without an answer.
#![tactic(auto)]

mod base;
mod files;
mod laws;
mod refusal;
mod refusal_lines;
mod refusing;
mod status;

pub use base::read_base;
pub use files::{is_file_name, read_file};
pub use laws::bases_have_one_reading;
pub use refusal::{BaseRefusal, Failure, Refusal, TaskRefusal};
pub use refusal_lines::{RefusalLine, refusal_line};
pub use refusing::refuse;
pub use status::Status;

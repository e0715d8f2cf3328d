//! Requests, replies and entries of a history as text, of this project.
#![tactic(auto)]

mod entries;
mod fields;
mod laws;
mod refusal_words;
mod replies;
mod request;
mod request_word;
mod requests;
mod words;
mod written_words;

pub use cim_words::NoMemory;
pub use entries::write_entry;
pub use fields::read_number;
pub use laws::{a_stage_is_one_word, requests_have_one_reading, written_acts_are_read};
pub use replies::{REPLY_ROOM, write_reply};
pub use request::Request;
pub use requests::read_request;

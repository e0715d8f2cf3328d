//! The words of a control room: what stands on the permanent network for a time and where, what an operator orders, what the planning
//! office changes, and what a console is answered.
#![tactic(auto)]

mod act;
mod act_refusal;
mod anchor;
mod diff_refusal;
mod difference;
mod event;
mod fault;
mod heading;
mod items;
mod lost;
mod overlay;
mod receipt;
mod refused;
mod reply;
mod shared_difference;
mod stage_fault;
mod term;
mod trace_text;

pub use act::Act;
pub use act_refusal::ActRefusal;
pub use anchor::{Anchor, places_are_compared};
pub use cim_words::NoMemory;
pub use diff_refusal::DiffRefusal;
pub use difference::Difference;
pub use event::{Entry, Event};
pub use fault::Fault;
pub use heading::Heading;
pub use items::{Items, TempItem};
pub use lost::Lost;
pub use overlay::{Overlay, Position, Positions, copied};
pub use receipt::Receipt;
pub use refused::{Denied, LogFull, Refused, Why};
pub use reply::{Reply, TraceRows};
pub use shared_difference::SharedDifference;
pub use stage_fault::{StageFault, StageWord};
pub use term::{Members, Point, Term, TermKey, terms_are_compared, terms_are_ordered};
pub use trace_text::{write_trace_head, write_trace_row};

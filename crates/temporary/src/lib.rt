//! Whether what is temporary stands on a model.
#![tactic(auto)]

mod items;
mod marks;
mod overlays;
mod places;

pub use items::stands;
pub use marks::{has_at_most_marks, is_segment, mark_on};
pub use overlays::{first_lost, is_switch, overlay_stands};
pub use places::{has_at_most_terminals, is_place};

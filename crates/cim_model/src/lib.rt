//! What a model says: the network that its statements state, and the rules of the profile.
#![tactic(auto)]

mod items;
mod laws;
mod live_laws;
mod said;

pub use items::item_mark;
pub use laws::{
    marks_divide_segments, marks_stand_on_segments, one_trace, ordered_models_ascend,
    subjects_are_listed_once, subjects_have_one_class, terminals_belong_where_listed,
    terminals_join_equipment_to_nodes,
};
pub use live_laws::{
    marks_divide_live_segments, terminals_stand_where_listed, the_empty_overlay_stands,
    what_is_live,
};
pub use said::{
    class_of, code_of, id_of, is_by, kind_of, length_of, named_by, number_of, truth_of,
};

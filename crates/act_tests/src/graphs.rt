//! Graphs compared entry by entry.

use graph_pages::{Graph, Members, Pass, Star};
use room_words::Anchor;

/// Whether two graphs have the same stars, and the same members at some places.
pub(crate) fn are_same(one: &Graph, other: &Graph, places: &[Anchor]) -> bool {
    has_stars(one, other)
        && has_stars(other, one)
        && places.iter().all(|place| are_same_members(one.members(*place), other.members(*place)))
}

/// Whether each star of a graph stands in another one.
fn has_stars(one: &Graph, other: &Graph) -> bool {
    for star in one.stars() {
        match other.star(star.id) {
            Some(theirs) if is_same_star(star, theirs) => {}
            _ => return false,
        }
    }
    true
}

fn is_same_star(one: &Star, other: &Star) -> bool {
    one.id == other.id
        && one.class == other.class
        && one.on == other.on
        && one.spokes.as_slice() == other.spokes.as_slice()
        && is_same_pass(&one.pass, &other.pass)
}

fn is_same_pass(one: &Pass, other: &Pass) -> bool {
    match (one, other) {
        (Pass::Nothing, Pass::Nothing)
        | (Pass::Same, Pass::Same)
        | (Pass::Transformer, Pass::Transformer) => true,
        (Pass::Switch { is_open: one }, Pass::Switch { is_open: other }) => one == other,
        (
            Pass::Line {
                phases: one,
                sections: ours,
            },
            Pass::Line {
                phases: other,
                sections: theirs,
            },
        ) => one == other && are_same_sections(ours.as_slice(), theirs.as_slice()),
        _ => false,
    }
}

fn are_same_sections(ours: &[Members], theirs: &[Members]) -> bool {
    ours.len() == theirs.len()
        && ours
            .iter()
            .zip(theirs.iter())
            .all(|(one, other)| one.as_slice() == other.as_slice())
}

fn are_same_members(one: Option<&Members>, other: Option<&Members>) -> bool {
    match (one, other) {
        (Some(one), Some(other)) => one.as_slice() == other.as_slice(),
        (None, None) => true,
        _ => false,
    }
}

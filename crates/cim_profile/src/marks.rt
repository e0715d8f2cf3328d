//! The places of all cuts and clamps along their segments, gathered in order and searched by binary search.

ghost use Rattle.std.specs.Prelude.{◌≡◌, [], IfOk, OnOk, List, map, ◌++◌};
ghost use Rattle.std.specs.List.{list_any};
ghost use Rattle.cim_profile.specs.Places as spec;
ghost use Rattle.cim_profile.specs.Places.{HoldsMarks, HoldsPlaces};

use crate::facts::Facts;
use crate::mark_kind::MarkKind;
use cim_words::{Id, Length, NoMemory};
use std::alloc::Global;
use std::marker::Model;

/// One length along a segment at which a cut or a clamp stands.
#[derive(Clone, Copy, PartialEq, Eq, PartialOrd, Ord, Drop)]
pub(crate) struct Place {
    pub(crate) segment: Id,
    pub(crate) length: Length,
    pub(crate) mark: Id,
}

impl Place {
    /// Whether the place stands before this length along this segment.
    fn is_before(&self, segment: Id, length: Length) -> bool
        ensures { result ≡ spec.is_before segment.number length.mm self.now }
    {
        self.segment.number < segment.number
            || self.segment.number == segment.number && self.length.mm < length.mm
    }

    /// Whether another mark than this one stands here, and here is this length along this segment.
    fn is_beside(&self, segment: Id, length: Length, mark: Id) -> bool
        ensures { result ≡ spec.is_at segment.number (spec.is_other length.mm mark.number) self.now }
    {
        self.segment.number == segment.number
            && self.mark.number != mark.number
            && length.mm == self.length.mm
    }
}

/// The places of all cuts and clamps, in ascending order and each once.
#[derive(Drop)]
pub(crate) struct Places {
    places: Vec<Place>,
}

impl Model for Places {
    ghost use Rattle.std.specs.Prelude.{List};
    ghost use Rattle.std.specs.List.Sorted.{IsStrictlySortedBy};
    ghost use Rattle.cim_profile.specs.Places.{place_order};
    ghost use Rattle.cim_profile.specs.declared.marks.Place.{Place};

    ghost Value = { List Place };

    ghost view = { λ places. places.places.items };

    ghost invariant = { λ places. IsStrictlySortedBy place_order places.places.items };
}

impl Places {
    /// No places, while they are not known.
    pub(crate) fn unknown(alloc: Global) -> Places
        ensures { result ≡ [] }
    {
        Places {
            places: Vec::new(alloc),
        }
    }

    /// The places of the cuts and clamps of a model.
    pub(crate) fn of(alloc: Global, facts: &Facts<'_>) -> Result<Places, NoMemory>
        ensures { IfOk result (HoldsPlaces facts.now.statements.now) }
    {
        let mut places = places_of(alloc, facts, MarkKind::Cut)?;
        let clamps = places_of(alloc, facts, MarkKind::Clamp)?;
        places.extend_from_slice(&clamps)?;
        places.sort_unstable();
        places.dedup();
        Ok(Places { places })
    }

    /// Whether another mark than this one stands at this length along this segment.
    pub(crate) fn is_shared(&self, segment: Id, length: Length, mark: Id) -> bool
        ensures { result ≡ list_any (spec.is_at segment.number (spec.is_other length.mm mark.number)) self.now }
    {
        let places = self.places.as_slice();
        let start = places.partition_point(|place| place.is_before(segment, length));
        let rest = &places[start..];
        // Each mark stands at a place once, so of two there one is another.
        rest.iter()
            .take(2)
            .any(|place| place.is_beside(segment, length, mark))
    }
}

/// The places of all marks of a kind.
fn places_of(alloc: Global, facts: &Facts<'_>, kind: MarkKind) -> Result<Vec<Place>, NoMemory>
    ensures { IfOk result (λ places. HoldsMarks facts.now.statements.now kind places.items) }
{
    let mut places = Vec::new(alloc);
    for row in facts.marks(kind).rows() {
        if !facts.is_of(kind.class(), row.value) {
            continue;
        }
        let lengths = facts.mark_lengths(alloc, kind, row.value)?;
        add_places(&mut places, row.key, row.value, &lengths)?;
    }
    Ok(places)
}

/// Adds a mark of a segment at each of these lengths.
fn add_places(
    places: &mut Vec<Place>,
    segment: Id,
    mark: Id,
    lengths: &[Length],
) -> Result<(), NoMemory>
    ensures { OnOk result (places.new.items ≡ places.old.items ++ map (spec.place_at segment mark) lengths.now) }
{
    for length in lengths {
        places.push(Place {
            segment,
            length: *length,
            mark,
        })?;
    }
    Ok(())
}

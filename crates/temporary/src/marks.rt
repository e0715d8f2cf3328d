//! Temporary cuts and clamps among the marks of their segments.

ghost use Rattle.std.specs.Prelude.{◌≡◌, length, nat_le};
ghost use Rattle.std.specs.List.{filter, list_all};
ghost use Rattle.cim_model.specs.Marks as spec;
ghost use Rattle.cim_model.specs.Model.{is_of};
ghost use Rattle.cim_words.specs.Groups as groups;
ghost use Rattle.temporary.specs.Parts as parts;

use cim_model::item_mark;
use cim_records::Index;
use cim_words::{Id, Length, MOST_LENGTH, MOST_MARKS};
use room_words::{Overlay, TempItem};
use segment_cuts::Mark;

/// Whether this is a line segment that can have a mark at a length, and has not too many.
pub(crate) fn bears(index: &Index, overlay: &Overlay, segment: Id, at: Length) -> bool
    ensures { result ≡ parts.bears index.now overlay.now segment.number at.mm }
{
    is_segment(index, segment)
        && lies_on(index, segment, at)
        && has_at_most_marks(index, overlay, segment, MOST_MARKS)
}

/// Whether the identifier is that of a line segment.
pub fn is_segment(index: &Index, id: Id) -> bool
    ensures { result ≡ is_of index.now groups.is_segment id.number }
{
    match index.class_of(id) {
        Some(class) => class.is_segment(),
        None => false,
    }
}

/// Whether a length is within the limit, and within the segment's length where one is stated.
fn lies_on(index: &Index, segment: Id, at: Length) -> bool
    ensures { result ≡ parts.lies_on index.now segment.number at.mm }
{
    at.mm <= MOST_LENGTH
        && match index.length_of(segment) {
            Some(limit) => at.mm <= limit.mm,
            None => true,
        }
}

/// Whether a segment has no more than so many marks, those of the items among them.
pub fn has_at_most_marks(index: &Index, overlay: &Overlay, segment: Id, most: usize) -> bool
    ensures { result ≡ nat_le (length (spec.marks_on index.now overlay.now segment.number)) most }
{
    let of_model = index.marks_of(segment).len();
    let of_items = count_on(overlay.items.as_slice(), segment);
    of_model <= most && of_items <= most - of_model
}

/// How many of these items stand on a segment.
fn count_on(items: &[TempItem], segment: Id) -> usize
    ensures { result ≡ length (filter (spec.is_item_on segment.number) items.now) }
{
    items.iter().filter(|item| is_on(item, segment)).count()
}

/// Whether an item stands on a segment.
fn is_on(item: &TempItem, segment: Id) -> bool
    ensures { result ≡ spec.is_item_on segment.number item.now }
{
    match item.segment() {
        Some(on) => on.number == segment.number,
        None => false,
    }
}

/// An item as a mark of a segment, if it stands on it.
pub fn mark_on(item: &TempItem, segment: Id) -> Option<Mark>
    ensures { result ≡ parts.mark_on segment.number item.now }
{
    if is_on(item, segment) {
        item_mark(item)
    } else {
        None
    }
}

/// Whether an item is apart from the other marks of a segment. Another item is told by its identifier.
pub(crate) fn is_apart(index: &Index, overlay: &Overlay, segment: Id, item: &TempItem) -> bool
    ensures { result ≡ parts.is_apart index.now overlay.now segment.number item.now }
{
    match mark_on(item, segment) {
        Some(mark) => {
            is_beside_marks(index.marks_of(segment), mark)
                && is_beside_items(overlay.items.as_slice(), segment, mark)
        }
        None => true,
    }
}

/// Whether a mark may share a segment with each of these.
fn is_beside_marks(marks: &[Mark], mark: Mark) -> bool
    ensures { result ≡ list_all (parts.may_share mark) marks.now }
{
    marks.iter().all(|other| may_share(mark, *other))
}

/// Whether a mark may share a segment with each of these items that stands on it.
fn is_beside_items(items: &[TempItem], segment: Id, mark: Mark) -> bool
    ensures { result ≡ list_all (parts.is_beside segment.number mark) items.now }
{
    items.iter().all(|item| is_beside(item, segment, mark))
}

/// Whether an item stands elsewhere, is this mark, or may share the segment with it.
fn is_beside(item: &TempItem, segment: Id, mark: Mark) -> bool
    ensures { result ≡ parts.is_beside segment.number mark item.now }
{
    match mark_on(item, segment) {
        Some(other) => other.id.number == mark.id.number || may_share(mark, other),
        None => true,
    }
}

/// Whether two marks may stand on one segment: at different lengths, or neither is a cut.
fn may_share(mark: Mark, other: Mark) -> bool
    ensures { result ≡ parts.may_share mark other }
{
    mark.length.mm != other.length.mm || !mark.divides && !other.divides
}

//! Temporary cuts and clamps as marks of their segments.

ghost use Rattle.std.specs.Prelude.{◌≡◌};
ghost use Rattle.cim_model.specs.Marks as spec;

use room_words::TempItem;
use segment_cuts::Mark;

/// A temporary cut or clamp as a mark of its segment; a jumper and a ground are none.
pub fn item_mark(item: &TempItem) -> Option<Mark>
    ensures { result ≡ spec.item_mark item.now }
{
    match *item {
        TempItem::Cut { id, length, .. } => Some(Mark {
            id,
            length,
            divides: true,
        }),
        TempItem::Clamp { id, length, .. } => Some(Mark {
            id,
            length,
            divides: false,
        }),
        TempItem::Jumper { .. } | TempItem::Ground { .. } => None,
    }
}

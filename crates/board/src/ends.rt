//! The end of a board.
ghost use Rattle.std.specs.Prelude.{◌≡◌, All, Some, length};
ghost use Rattle.board.specs.Lists.{IsPrefix};

use crate::dated::Dated;
use crate::reader::Reader;
use crate::writer::Writer;

/// A board that has been closed.
#[derive(Drop)]
pub struct Closed<V: Dated + Send + Sync> {
    /// The version published last, or the first one.
    pub last: V,
}

/// Closes a board with all its readers: what each has seen was published.
pub fn close<V: Dated + Send + Sync>(
    mut writer: Writer<V>,
    mut readers: Vec<Reader<V>>,
) -> Closed<V>
    requires all { length readers.items ≡ writer.consoles }
    requires board { All (λ r. r.board ≡ writer.board) readers.items }
    ensures last { result.last ≡ writer.last }
    ensures began { writer.origin ≡ Some (V.origin result.last) }
    ensures seen { All (λ r. IsPrefix r.seen (V.log result.last)) readers.items }
    ensures origin { All (λ r. r.origin ≡ writer.origin) readers.items }
{
    while let Some(reader) = readers.pop() {
        writer.absorb(reader.leave());
    }
    Closed {
        last: writer.into_last(),
    }
}

//! One read and one whole write of a stream. What went through it is said over any stream that tells its bytes, as a socket does not.

ghost use Rattle.std.specs.Prelude.{◌≡◌, ◌≤◌, ℕ, length, take, IfOk, OnErr, OnOk};
ghost use Rattle.std.specs.Io.KnownBytes.{Appends, ReadConsumes};

use grid_out::Failed;
use std::io::{ErrorKind, Read, Write};

/// Reads once, to the front of `into`, and gives the number of bytes. A call that was interrupted is made again.
pub(crate) fn read_once<S: Read>(stream: &mut S, into: &mut [u8]) -> Result<usize, Failed>
    ensures length { length into.new ≡ length into.old }
    ensures within { IfOk result (λ n. n ≤ length into.old) }
    ensures bytes { ReadConsumes (S.remaining stream.old) (S.remaining stream.new) result into.new }
{
    for _ in 0..u64::MAX {
        match stream.read(into) {
            Ok(count) => return Ok(count),
            Err(error) if error.kind() == ErrorKind::Interrupted => continue,
            Err(_) => return Err(Failed),
        }
    }
    Err(Failed)
}

/// Writes the whole piece, in as many calls as the stream asks for. A call that was interrupted is made again,
/// and one that takes nothing is a failure, after which a front of the piece may be written.
pub(crate) fn write_whole<S: Write>(stream: &mut S, piece: &[u8]) -> Result<(), Failed>
    ensures whole { OnOk result (Appends (S.contents stream.old) (S.contents stream.new) piece.now) }
    ensures front { OnErr result ((n : ℕ) × Appends (S.contents stream.old) (S.contents stream.new) (take n piece.now)) }
{
    let mut rest = piece;
    for _ in 0..u64::MAX {
        if rest.is_empty() {
            return Ok(());
        }
        match stream.write(rest) {
            Ok(0) => return Err(Failed),
            Ok(count) => rest = &rest[count..],
            Err(error) if error.kind() == ErrorKind::Interrupted => continue,
            Err(_) => return Err(Failed),
        }
    }
    Err(Failed)
}

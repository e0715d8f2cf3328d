//! The standard output, as a sink. What reaches it is the outside's: this sink tells no bytes. What it does with an output is said
//! over any writer that tells its bytes.

ghost use Rattle.std.specs.Prelude.{ℕ, take, None, OnErr, OnOk, is_err};
ghost use Rattle.std.specs.Io.KnownBytes.{Appends};
ghost use Rattle.grid_out.specs.Faults.{CountsFaults};

use grid_out::{Failed, Sink};
use std::io::{self, Write};

/// The standard output.
#[derive(Drop)]
pub(crate) struct OutSink<'r, R> {
    rt: &'r R,
    faults: u64,
}

impl<'r, R: Print> OutSink<'r, R> {
    pub(crate) fn new(rt: &'r R) -> Self {
        OutSink { rt, faults: 0 }
    }
}

impl<'r, R: Print> Sink for OutSink<'r, R> {
    ghost faults = { λ sink. sink.faults };

    ghost written = { λ _. None };

    ghost handed = { λ _. None };

    fn write_all(&mut self, piece: &[u8]) -> Result<(), Failed> {
        write_piece(&mut io::writer(self.rt), piece, &mut self.faults)
    }
}

/// Writes the whole piece, and counts a fault.
fn write_piece<W: Write>(out: &mut W, piece: &[u8], faults: &mut u64) -> Result<(), Failed>
    ensures ok { OnOk result (Appends (W.contents out.old) (W.contents out.new) piece.now) }
    ensures failed { OnErr result ((n : ℕ) × Appends (W.contents out.old) (W.contents out.new) (take n piece.now)) }
    ensures cause { CountsFaults faults.old faults.new (is_err result) }
{
    let wrote = write_whole(out, piece);
    if wrote.is_err() {
        *faults = faults.saturating_add(1);
    }
    wrote
}

/// Writes the whole piece, or fails after a front of it.
fn write_whole<W: Write>(out: &mut W, piece: &[u8]) -> Result<(), Failed>
    ensures whole { OnOk result (Appends (W.contents out.old) (W.contents out.new) piece.now) }
    ensures front { OnErr result ((n : ℕ) × Appends (W.contents out.old) (W.contents out.new) (take n piece.now)) }
{
    let mut rest = piece;
    for _ in 0..u64::MAX {
        if rest.is_empty() {
            return Ok(());
        }
        match out.write(rest) {
            Ok(0) => return Err(Failed),
            Ok(count) => rest = &rest[count..],
            Err(error) if error.kind() == io::ErrorKind::Interrupted => continue,
            Err(_) => return Err(Failed),
        }
    }
    Err(Failed)
}

#[cfg(test)]
mod tests {
    use super::*;

    #[test]
    fn writes_up_to_the_room(rt: HostRuntime) {
        let mut room = [0; 5];
        let mut out = room.as_mut_slice();
        let mut faults = 0;
        let first = write_piece(&mut out, b"abc", &mut faults);
        assert!(rt; first == Ok(()) && faults == 0);
        let second = write_piece(&mut out, b"def", &mut faults);
        assert!(rt; second == Err(Failed) && faults == 1);
        assert!(rt; &room == b"abcde");
    }
}

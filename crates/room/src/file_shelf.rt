//! The real files, as a shelf. What they hold is the outside's: this shelf tells no content. What it does with a file that was opened
//! is said over any reader that tells its bytes.

ghost use Rattle.std.specs.Prelude.{◌≡◌, ◌≤◌, ◌<◌, [], length, None, Err, IfErr, IfSome, IsOkAnd, OnErr, OnOk, IsErrOf};
ghost use Rattle.grid_out.specs.Faults.{CountsFaults};
ghost use Rattle.grid_out.specs.Shelf.{is_failed};

use grid_out::{Shelf, ShelfFault};
use std::fs;
use std::io::{self, Read};
use std::rt::Files;

/// The files of the system.
#[derive(Drop)]
pub(crate) struct FileShelf<'r, R> {
    rt: &'r R,
    faults: u64,
}

impl<'r, R: Files> FileShelf<'r, R> {
    pub(crate) fn new(rt: &'r R) -> Self {
        FileShelf { rt, faults: 0 }
    }
}

impl<'r, R: Files> Shelf for FileShelf<'r, R> {
    ghost faults = { λ shelf. shelf.faults };

    ghost content = { λ _ _. None };

    ghost asked = { λ _. None };

    fn read_whole(&mut self, name: &str, cap: u64, into: &mut Vec<u8>) -> Result<(), ShelfFault> {
        read_opened(fs::open(self.rt, name), cap, into, &mut self.faults)
    }
}

/// How many bytes are asked of a file at once.
const PIECE: usize = 65_536;

/// Reads the whole of what was opened into `into`, whose old content is dropped first, and counts a fault.
fn read_opened<F: Read + Drop>(
    opened: io::Result<F>,
    cap: u64,
    into: &mut Vec<u8>,
    faults: &mut u64,
) -> Result<(), ShelfFault>
    ensures ok { OnOk result (IsOkAnd opened (λ file. IfSome (F.remaining file) (λ bytes. into.new.items ≡ bytes))) }
    ensures within_cap { OnOk result (IsOkAnd opened (λ file. IfSome (F.remaining file) (λ bytes. length bytes ≤ cap))) }
    ensures read_within { OnOk result (length into.new.items ≤ cap) }
    ensures longer { IsErrOf result ShelfFault.Longer → IsOkAnd opened (λ file. IfSome (F.remaining file) (λ bytes. cap < length bytes)) }
    ensures not_opened { IfErr opened (λ _. result ≡ Err ShelfFault.Failed) }
    ensures err { OnErr result (into.new.items ≡ []) }
    ensures cause { CountsFaults faults.old faults.new (is_failed result) }
{
    into.clear();
    let read = read_all(opened, cap, into);
    if read.is_err() {
        into.clear();
    }
    if let Err(ShelfFault::Failed) = read {
        *faults = faults.saturating_add(1);
    }
    read
}

/// Reads what was opened, if it was. After an `Err` a front of it may have been appended.
fn read_all<F: Read + Drop>(
    opened: io::Result<F>,
    cap: u64,
    into: &mut Vec<u8>,
) -> Result<(), ShelfFault>
    requires { into.old.items ≡ [] }
    ensures within { OnOk result (length into.new.items ≤ cap) }
    ensures not_opened { IfErr opened (λ _. result ≡ Err ShelfFault.Failed) }
    ensures whole { OnOk result (IsOkAnd opened (λ file. IfSome (F.remaining file) (λ bytes. into.new.items ≡ bytes))) }
    ensures longer { IsErrOf result ShelfFault.Longer → IsOkAnd opened (λ file. IfSome (F.remaining file) (λ bytes. cap < length bytes)) }
{
    let Ok(mut file) = opened else {
        return Err(ShelfFault::Failed);
    };
    read_rest(&mut file, cap, into)
}

/// Appends all that a reader has left, unless this is more than the cap. After an `Err` a front of it may have been appended.
fn read_rest<R: Read>(from: &mut R, cap: u64, into: &mut Vec<u8>) -> Result<(), ShelfFault>
    requires { into.old.items ≡ [] }
    ensures within { OnOk result (length into.new.items ≤ cap) }
    ensures whole { OnOk result (IfSome (R.remaining from.old) (λ bytes. into.new.items ≡ bytes)) }
    ensures longer { IsErrOf result ShelfFault.Longer → IfSome (R.remaining from.old) (λ bytes. cap < length bytes) }
{
    let mut piece = [0u8; PIECE];
    let mut left = cap;
    for _ in 0..u64::MAX {
        let count = match from.read(&mut piece) {
            Ok(0) => return Ok(()),
            Ok(count) => count,
            Err(error) if error.kind() == io::ErrorKind::Interrupted => continue,
            Err(_) => return Err(ShelfFault::Failed),
        };
        let Some(after) = left.checked_sub(count as u64) else {
            return Err(ShelfFault::Longer);
        };
        into.extend_from_slice(&piece[..count])?;
        left = after;
    }
    Err(ShelfFault::Failed)
}

#[cfg(test)]
mod tests {
    use super::*;
    use std::test::Fail;

    /// What was opened, the cap, the answer, what is read, and how many faults there were then.
    type Row = (
        Result<&'static [u8], io::ErrorKind>,
        u64,
        Result<(), ShelfFault>,
        &'static str,
        u64,
    );

    const ROWS: &[Row] = &[
        (Ok(b"abc"), 3, Ok(()), "abc", 0),
        (Ok(b"abc"), 2, Err(ShelfFault::Longer), "", 0),
        (
            Err(io::ErrorKind::NotFound),
            3,
            Err(ShelfFault::Failed),
            "",
            1,
        ),
        (Ok(b""), 0, Ok(()), "", 1),
    ];

    /// Whether what was opened is read so into what was read before.
    fn reads(into: &mut Vec<u8>, faults: &mut u64, row: &Row) -> bool {
        let (opened, cap, answer, bytes, count) = *row;
        let opened = opened.map_err(io::Error::from);
        read_opened(opened, cap, into, faults) == answer
            && into.as_slice() == bytes.as_bytes()
            && *faults == count
    }

    #[test]
    fn reads_what_was_opened(rt: HostRuntime) -> Result<(), Fail> {
        let mut into = Vec::from_slice(rt.alloc(), b"old")?;
        let mut faults = 0;
        for row in ROWS {
            assert!(rt; reads(&mut into, &mut faults, row));
        }
        Ok(())
    }
}

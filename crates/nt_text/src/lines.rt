//! The lines of a document that is held whole.

ghost use Rattle.std.specs.Prelude.{◌≡◌, ◌≤◌, ◌∷◌, [], length, IfNone, IfSome, ◌==◌, false};
ghost use Rattle.std.specs.Iterator.{YieldsFirstRef, item_count};
ghost use Rattle.cim_words.specs.Written.{carriage_return};
ghost use Rattle.nt_text.specs.Document.{feeds_after, lines_of};

use crate::reader::front_line;
use std::marker::Model;

/// Goes over the lines of a document, without their ends. Contracts see it as the list of the lines that are left.
///
/// A line ends at LF, CR LF or a CR that no LF follows. The last line may have no end.
#[derive(Drop)]
pub struct Lines<'a> {
    left: &'a [u8],
}

impl<'a> Model for Lines<'a> {
    ghost use Rattle.std.specs.Prelude.{List, ℕ};
    ghost use Rattle.nt_text.specs.Document.{lines_of};

    ghost Value = { List (List ℕ) };

    ghost view = { λ lines. lines_of lines.left.now };
}

impl<'a> Lines<'a> {
    /// Goes over the lines of these bytes.
    pub fn of(bytes: &'a [u8]) -> Lines<'a>
        ensures lines { result ≡ lines_of bytes.now }
        ensures few { length result ≤ length bytes.now }
    {
        Lines { left: bytes }
    }
}

impl<'a> Iterator for Lines<'a> {
    type Item = &'a [u8];

    ghost next_gives = { YieldsFirstRef (λ left. left) };

    ghost remaining = { item_count (λ left. left) };

    fn next(&mut self) -> Option<&'a [u8]> {
        let (line, left) = first_line(self.left)?;
        self.left = left;
        Some(line)
    }
}

/// The first line, and what follows its end.
fn first_line(bytes: &[u8]) -> Option<(&[u8], &[u8])>
    ensures found { IfSome result (λ parts. lines_of bytes.now ≡ parts.0.now ∷ lines_of parts.1.now) }
    ensures none { IfNone result (lines_of bytes.now ≡ []) }
{
    if bytes.is_empty() {
        return None;
    }
    match front_line(bytes) {
        Some((line, end, after)) => Some((line, behind_end(end, after))),
        None => Some((bytes, &bytes[bytes.len()..])),
    }
}

/// What follows the end of a line that this byte ends: an LF after a CR belongs to the end.
fn behind_end(end: u8, after: &[u8]) -> &[u8]
    ensures { feeds_after (end == carriage_return) after.now ≡ feeds_after false result.now }
{
    match after {
        [b'\n', rest @ ..] if end == b'\r' => rest,
        _ => after,
    }
}

//! The line that is begun: the bytes that were read of it so far.

ghost use Rattle.std.specs.Prelude.{◌≡◌, ◌+◌, ◌<◌, ◌≤◌, [], ◌∷◌, ◌++◌, length, IsTrue, IfOk, IfSome, IfNone, OnErr, true, false};
ghost use Rattle.cim_words.specs.Written.{line_feed};
ghost use Rattle.line_serve.specs.AnsweredLines.{is_one_line, most_line, without_return};
ghost use Rattle.line_serve.specs.Parts.{IsBegun, IsTooLong};

use grid_out::NoMemory;
use memchr::memchr;
use std::alloc::Global;
use std::marker::Model;

/// The most bytes of a line in front of its line feed.
const MOST_LINE: usize = 8192;

/// Says that a line has more bytes in front of its line feed than a line may have.
#[derive(Drop)]
pub(crate) struct TooLong;

/// The bytes that were read of a line.
#[derive(Drop)]
pub(crate) struct Begun {
    bytes: Vec<u8>,
}

impl Model for Begun {
    ghost use Rattle.std.specs.Prelude.{ℕ, ◌≤◌, List, vec_capacity};

    ghost Value = { List ℕ };

    ghost use Rattle.line_serve.specs.AnsweredLines.{most_line};
    ghost use Rattle.line_serve.specs.Parts.{IsBegun};

    ghost view = { λ begun. begun.bytes.items };

    // The memory for a whole line is taken beforehand.
    ghost invariant = { λ begun. IsBegun begun.bytes.items × (most_line ≤ vec_capacity begun.bytes) };
}

impl Begun {
    /// No line is begun. The memory for one is taken now.
    pub(crate) fn new(alloc: Global) -> Result<Begun, NoMemory>
        ensures { IfOk result (λ begun. begun ≡ []) }
    {
        Ok(Begun {
            bytes: Vec::with_capacity(alloc, MOST_LINE)?,
        })
    }

    /// Forgets the bytes.
    pub(crate) fn clear(&mut self)
        ensures { self.new ≡ [] }
    {
        self.bytes.clear();
    }

    /// The line, without one carriage return at its end.
    pub(crate) fn line(&self) -> &[u8]
        ensures { result.now ≡ without_return self.now }
    {
        let count = self.bytes.len();
        if count > 0 && self.bytes[count - 1] == b'\r' {
            return &self.bytes[..count - 1];
        }
        &self.bytes
    }

    /// Adds bytes that have no line feed among them, where the line is not too long with them.
    fn add(&mut self, piece: &[u8]) -> bool
        requires { IsTrue (is_one_line piece.now) }
        ensures fits { IsTrue result → self.new ≡ self.old ++ piece.now }
        ensures long { result ≡ false → IsTooLong (self.old ++ piece.now) }
        ensures begun { IsBegun self.new }
    {
        let _ = &self.bytes;
        if piece.len() > MOST_LINE - self.bytes.len() {
            return false;
        }
        self.bytes.extend_from_slice(piece).unwrap();
        true
    }

    /// Takes bytes up to the end of the line, and gives what stands behind that. Where the line does not end
    /// among them, it takes them all and gives none.
    pub(crate) fn take_line<'a>(&mut self, bytes: &'a [u8]) -> Result<Option<&'a [u8]>, TooLong>
        ensures line { IfOk result (λ taken. IfSome taken (λ behind.
            self.old ++ bytes.now ≡ self.new ++ line_feed ∷ behind.now)) }
        ensures shorter { IfOk result (λ taken. IfSome taken (λ behind. length behind.now < length bytes.now)) }
        ensures all { IfOk result (λ taken. IfNone taken (self.new ≡ self.old ++ bytes.now)) }
        ensures long { OnErr result (IsTooLong (self.old ++ bytes.now)) }
        ensures begun { IsBegun self.new }
    {
        let (piece, behind) = first_line(bytes);
        if !self.add(piece) {
            return Err(TooLong);
        }
        Ok(behind)
    }
}

/// The bytes in front of the first line feed, and what stands behind it. Where there is none, these are all the bytes.
fn first_line(bytes: &[u8]) -> (&[u8], Option<&[u8]>)
    ensures one_line { IsTrue (is_one_line result.0.now) }
    ensures line { IfSome result.1 (λ behind. bytes.now ≡ result.0.now ++ line_feed ∷ behind.now) }
    ensures all { IfNone result.1 (result.0.now ≡ bytes.now) }
{
    match memchr(b'\n', bytes) {
        Some(end) => (&bytes[..end], Some(&bytes[end + 1..])),
        None => (bytes, None),
    }
}

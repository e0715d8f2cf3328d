//! A document of N-Triples lines, piece by piece.

ghost use Rattle.std.specs.Prelude.{◌≡◌, ℕ, ◌+◌, ◌^◌, ◌<◌, ◌≤◌, List, [], ◌∷◌, ◌++◌, length, Bool, Option, Some, None, Result, Ok, Err, IfOk, OnOk, IfErr, IfSome, IfNone};
ghost use Rattle.std.specs.Result.{result_err};
ghost use Rattle.cim_words.specs.declared.statement.Statement.{Statement};
ghost use Rattle.nt_text.specs.Document.{IsDocument, IsBadDocument, AreRead};
ghost use Rattle.nt_text.specs.Reader.{IsAt, IsNew, IsFaultOf, Gained};
ghost use Rattle.nt_text.specs.ReaderSteps.{IsPlain, IsEnd, IsFrontLine, is_half, last_line, Steps, Fails, IsLineFault, IsKeepFault};
ghost use Rattle.nt_text.specs.declared.refusal.LineRefusal.{LineRefusal};
ghost use Rattle.nt_text.specs.declared.refusal.NtFault.{NtFault};

use crate::reading::{LINE_LIMIT, read_line};
use crate::refusal::{LineFault, LineRefusal, NtFault};
use cim_words::{Statement, Statements};
use memchr::memchr2;
use std::alloc::Global;
use std::marker::Model;

/// The first line that ends in the bytes, the byte that ends it, and what follows.
pub(crate) fn front_line(bytes: &[u8]) -> Option<(&[u8], u8, &[u8])>
    ensures found { IfSome result (λ front. IsFrontLine bytes.now front.0.now front.1 front.2.now) }
    ensures none { IfNone result (IsPlain bytes.now) }
{
    let end = memchr2(b'\n', b'\r', bytes)?;
    Some((&bytes[..end], bytes[end], &bytes[end + 1..]))
}

/// Whether an end of a line is the second half of CR LF.
fn is_second_half(after_return: bool, line: &[u8], end: u8) -> bool
    ensures { result ≡ is_half after_return line.now end }
{
    after_return && line.is_empty() && end == b'\n'
}

/// Adds a statement.
fn add(statement: Statement, into: &mut Statements) -> Result<(), NtFault>
    ensures ok { OnOk result (into.new ≡ into.old ++ statement ∷ []) }
    ensures err { IfErr result (λ f. (into.new ≡ into.old) × (f ≡ NtFault.NoMemory)) }
{
    match into.push(statement) {
        Ok(()) => Ok(()),
        Err(_) => Err(NtFault::NoMemory),
    }
}

/// Reads a whole line, and adds the statement that it holds.
fn read_into(alloc: Global, number: u32, line: &[u8], into: &mut Statements) -> Result<(), NtFault>
    ensures ok { OnOk result (Gained into.old into.new (λ more. AreRead (line.now ∷ []) more)) }
    ensures kept { IfErr result (λ _. into.new ≡ into.old) }
    ensures err { IfErr result (λ f. IsLineFault f number line.now) }
{
    match read_line(alloc, line) {
        Ok(None) => Ok(()),
        Ok(Some(statement)) => add(statement, into),
        Err(LineFault::Refusal(why)) => Err(NtFault::Line { line: number, why }),
        Err(LineFault::NoMemory) => Err(NtFault::NoMemory),
    }
}

/// Reads a document of N-Triples lines piece by piece, however its bytes are cut.
///
/// A line ends at LF, CR LF or a CR that no LF follows. The last line may have no end.
#[derive(Drop)]
pub struct LineReader {
    alloc: Global,
    fed: u32,
    ended: u32,
    rest: Vec<u8>,
    after_return: bool,
    fault: Option<NtFault>,
}

impl Model for LineReader {
    ghost use Rattle.std.specs.Prelude.{◌+◌, ◌≤◌, length};
    ghost use Rattle.nt_text.specs.Reader.{ReaderState};
    ghost use Rattle.cim_words.specs.Written.{line_limit};

    ghost Value = { ReaderState };

    ghost view = { λ reader. record { fed = reader.fed; ended = reader.ended; rest = reader.rest.items; after_return = reader.after_return; fault = reader.fault } };

    // Each line that has ended took a byte at least, and no more is kept than a line may have.
    ghost invariant = { λ reader. (reader.ended + length reader.rest.items ≤ reader.fed) × (length reader.rest.items ≤ line_limit) };
}

impl LineReader {
    ghost use Rattle.nt_text.specs.Reader.{ReaderState};

    /// A reader at the front of a document.
    pub fn new(alloc: Global) -> LineReader
        ensures { IsNew result }
    {
        LineReader {
            alloc,
            fed: 0,
            ended: 0,
            rest: Vec::new(alloc),
            after_return: false,
            fault: None,
        }
    }

    /// Takes the next piece, and adds the statements of the lines that it ends.
    ///
    /// A reader that has met a fault answers it again, and reads no more.
    pub fn feed(&mut self, piece: &[u8], into: &mut Statements) -> Result<(), NtFault>
        requires { self.old.fed + length piece.now < 2 ^ 32 }
        ensures reads { (bytes : List ℕ) (found : List Statement) → IsAt self.old bytes found
            → Gained into.old into.new (λ more. IsAt self.new (bytes ++ piece.now) (found ++ more)) }
        ensures fed { self.new.fed ≡ self.old.fed + length piece.now }
        ensures tells { self.new.fault ≡ result_err result }
        ensures again { (f : NtFault) → self.old.fault ≡ Some f
            → (result ≡ Err f) × (into.new ≡ into.old) × (self.new ≡ record self.old { fed = self.old.fed + length piece.now }) }
    {
        self.fed += piece.len() as u32;
        if let Some(fault) = self.fault {
            return Err(fault);
        }
        if let Err(fault) = self.take_piece(piece, into) {
            self.fault = Some(fault);
            return Err(fault);
        }
        Ok(())
    }

    /// Ends the document, and reads the last line if it has no end. After that the reader is as new.
    ///
    /// A reader that has met a fault answers it again.
    pub fn finish(&mut self, into: &mut Statements) -> Result<(), NtFault>
        ensures ok { (bytes : List ℕ) (found : List Statement) → IsAt self.old bytes found
            → OnOk result (Gained into.old into.new (λ more. IsDocument bytes (found ++ more))) }
        ensures err { (bytes : List ℕ) (found : List Statement) → IsAt self.old bytes found
            → IfErr result (λ f. Gained into.old into.new (λ more. IsFaultOf f bytes (found ++ more))) }
        ensures anew { OnOk result (IsNew self.new) }
        ensures failed { IfErr result (λ f. self.new ≡ record self.old { fault = Some f }) }
        ensures again { (f : NtFault) → self.old.fault ≡ Some f → (result ≡ Err f) × (into.new ≡ into.old) }
    {
        if let Some(fault) = self.fault {
            return Err(fault);
        }
        if let Err(fault) = self.read_last(into) {
            self.fault = Some(fault);
            return Err(fault);
        }
        self.fed = 0;
        self.ended = 0;
        self.rest.clear();
        self.after_return = false;
        Ok(())
    }

    /// Takes a piece where no fault was met.
    fn take_piece(&mut self, piece: &[u8], into: &mut Statements) -> Result<(), NtFault>
        requires { self.old.ended + length self.old.rest + length piece.now ≤ self.old.fed }
        ensures ok { OnOk result (Gained into.old into.new (Steps self.old piece.now self.new)) }
        ensures err { IfErr result (λ f. Gained into.old into.new (Fails self.old piece.now f)) }
        ensures fed { self.new.fed ≡ self.old.fed }
    {
        let mut left = piece;
        while let Some((line, end, after)) = front_line(left) {
            self.take_line(line, end, into)?;
            left = after;
        }
        self.keep_front(left)
    }

    /// Takes a line and the byte that ends it.
    fn take_line(&mut self, line: &[u8], end: u8, into: &mut Statements) -> Result<(), NtFault>
        requires room { self.old.ended + length self.old.rest + length line.now < self.old.fed }
        requires plain { IsPlain line.now }
        requires ends { IsEnd end }
        ensures ok { OnOk result (Gained into.old into.new (Steps self.old (line.now ++ end ∷ []) self.new)) }
        ensures counts { OnOk result (self.new.ended + length self.new.rest ≤ self.old.ended + length self.old.rest + length line.now + 1) }
        ensures err { IfErr result (λ f. Gained into.old into.new (Fails self.old (line.now ++ end ∷ []) f)) }
        ensures fed { self.new.fed ≡ self.old.fed }
    {
        let half = is_second_half(self.after_return, line, end);
        self.after_return = end == b'\r';
        if half {
            return Ok(());
        }
        self.end_line(line, into)
    }

    /// Reads the line that ends here: what was kept of it, and then these bytes.
    fn end_line(&mut self, line: &[u8], into: &mut Statements) -> Result<(), NtFault>
        requires { self.old.ended + length self.old.rest + length line.now < self.old.fed }
        ensures ok { OnOk result (Gained into.old into.new (AreRead ((self.old.rest ++ line.now) ∷ []))) }
        ensures ended { OnOk result (self.new ≡ record self.old { ended = self.old.ended + 1; rest = [] }) }
        ensures kept { IfErr result (λ _. into.new ≡ into.old) }
        ensures err { IfErr result (λ f. IsLineFault f (self.old.ended + 1) (self.old.rest ++ line.now)) }
        ensures fed { self.new.fed ≡ self.old.fed }
    {
        let number = self.ended + 1;
        if self.rest.is_empty() {
            read_into(self.alloc, number, line, into)?;
            self.ended = number;
            return Ok(());
        }
        self.keep(line)?;
        read_into(self.alloc, number, &self.rest, into)?;
        self.rest.clear();
        self.ended = number;
        Ok(())
    }

    /// Keeps the front of a line that has not ended.
    fn keep_front(&mut self, front: &[u8]) -> Result<(), NtFault>
        requires room { self.old.ended + length self.old.rest + length front.now ≤ self.old.fed }
        requires plain { IsPlain front.now }
        ensures ok { OnOk result (Steps self.old front.now self.new []) }
        ensures err { IfErr result (λ f. Fails self.old front.now f []) }
        ensures fed { self.new.fed ≡ self.old.fed }
    {
        if front.is_empty() {
            return Ok(());
        }
        self.after_return = false;
        self.keep(front)
    }

    /// Keeps bytes of a line, unless it is too long with them.
    fn keep(&mut self, bytes: &[u8]) -> Result<(), NtFault>
        requires { self.old.ended + length self.old.rest + length bytes.now ≤ self.old.fed }
        ensures ok { OnOk result (self.new ≡ record self.old { rest = self.old.rest ++ bytes.now }) }
        ensures kept { IfErr result (λ _. self.new ≡ self.old) }
        ensures err { IfErr result (λ f. IsKeepFault f (self.old.ended + 1) (self.old.rest ++ bytes.now)) }
    {
        if self.rest.len() + bytes.len() > LINE_LIMIT {
            return Err(NtFault::Line {
                line: self.ended + 1,
                why: LineRefusal::LineTooLong,
            });
        }
        self.rest.extend_from_slice(bytes)?;
        Ok(())
    }

    /// Reads the last line, if it has no end.
    fn read_last(&mut self, into: &mut Statements) -> Result<(), NtFault>
        ensures ok { OnOk result (Gained into.old into.new (AreRead (last_line self.old.rest))) }
        ensures kept { IfErr result (λ _. into.new ≡ into.old) }
        ensures err { IfErr result (λ f. (0 < length self.old.rest) × IsLineFault f (self.old.ended + 1) self.old.rest) }
        ensures same { self.new ≡ self.old }
    {
        if self.rest.is_empty() {
            return Ok(());
        }
        read_into(self.alloc, self.ended + 1, &self.rest, into)
    }
}

/// Reads a whole document.
pub fn read_document(alloc: Global, bytes: &[u8]) -> Result<Statements, NtFault>
    requires { length bytes.now < 2 ^ 32 }
    ensures ok { IfOk result (IsDocument bytes.now) }
    ensures err { IfErr result (λ f. (found : List Statement) × IsFaultOf f bytes.now found) }
{
    let mut statements = Statements::empty(alloc);
    let mut reader = LineReader::new(alloc);
    reader.feed(bytes, &mut statements)?;
    reader.finish(&mut statements)?;
    Ok(statements)
}

/// A document reads in one way: it has one list of statements, or one first bad line.
pub fn documents_have_one_reading()
    ensures statements { (bytes : List ℕ) (s t : List Statement) → IsDocument bytes s → IsDocument bytes t → s ≡ t }
    ensures bad_line { (bytes : List ℕ) (n m : ℕ) (why other : LineRefusal) (s t : List Statement) → IsBadDocument bytes n why s → IsBadDocument bytes m other t
        → (n ≡ m) × (why ≡ other) × (s ≡ t) }
    ensures either { (bytes : List ℕ) (s t : List Statement) (n : ℕ) (why : LineRefusal) → IsDocument bytes s → IsBadDocument bytes n why t → ⊥ }
{}

//! One line: what it holds, in any spelling that the grammar allows, and in the one that is written.

ghost use Rattle.std.specs.Prelude.{ℕ, List, ◌≡◌, ◌≢◌, ◌↔◌, ◌≤◌, ◌<◌, ◌^◌, length, IfOk, IfErr, IfSome, IfNone, IsTrue};
ghost use Rattle.cim_words.specs.Held.{IsStatement};
ghost use Rattle.cim_words.specs.Written.{line_limit, written_line};
ghost use Rattle.cim_words.specs.declared.statement.Statement.{Statement};
ghost use Rattle.nt_text.specs.Ends.{IsSayingFault, IsStatementFault, text_length};
ghost use Rattle.nt_text.specs.Reading.{Reading, holds, IsReading, Says, told};

use crate::refusal::{LineFault, LineRefusal};
use crate::run::is_empty_line;
use crate::triple::triple_of;
use crate::writing::line_of;
use cim_words::{Id, NoMemory, Object, Prop, Statement};
use std::alloc::Global;

/// The most bytes that a line may have without its end.
pub const LINE_LIMIT: usize = 8192;

/// So many bytes of texts never make a written line too long: each is spelled by six at most, and the rest takes 100.
const NARROW: usize = (LINE_LIMIT - 100) / 6;

fn text_length(object: &Object) -> usize
    ensures value { result ≡ text_length object.now }
    ensures small { result < 2 ^ 63 }
{
    match object {
        Object::Id(_) => 0,
        Object::Name(name) => name.iri().len(),
        Object::Text(word) => word.text().len(),
    }
}

/// Whether the written line of a statement is too long.
fn is_wide(alloc: Global, statement: &Statement) -> Result<bool, NoMemory>
    ensures { IfOk result (λ wide. IsTrue wide ↔ (line_limit < length (written_line statement.now))) }
{
    if statement.prop.iri().len() + text_length(&statement.object) <= NARROW {
        return Ok(false);
    }
    Ok(line_of(alloc, statement)?.len() > LINE_LIMIT)
}

/// The statement that a line says by its triple.
fn said_by(alloc: Global, line: &[u8]) -> Result<Statement, LineFault>
    ensures says { IfOk result (Says line.now) }
    ensures held { IfOk result IsStatement }
    ensures cause { IfErr result (IsSayingFault line.now) }
{
    let triple = triple_of(alloc, line)?;
    let Ok(subject) = Id::read_iri(triple.subject.as_str()) else {
        return Err(LineFault::Refusal(LineRefusal::Subject));
    };
    Ok(Statement {
        subject,
        prop: Prop::of_iri(alloc, triple.property.as_str())?,
        object: triple.object,
    })
}

/// The statement of a line that holds one.
fn statement_in(alloc: Global, line: &[u8]) -> Result<Statement, LineFault>
    ensures says { IfOk result (Says line.now) }
    ensures narrow { IfOk result (λ s. length (written_line s) ≤ line_limit) }
    ensures held { IfOk result IsStatement }
    ensures cause { IfErr result (IsStatementFault line.now) }
{
    let statement = said_by(alloc, line)?;
    if is_wide(alloc, &statement)? {
        return Err(LineFault::Refusal(LineRefusal::Wide));
    }
    Ok(statement)
}

/// Reads one line without its end: the statement that it holds, or none where it says nothing (RDF 1.1 N-Triples).
pub fn read_line(alloc: Global, line: &[u8]) -> Result<Option<Statement>, LineFault>
    // The line reads as this, and as nothing else.
    ensures reads { IfSome (told result) (IsReading line.now) }
    ensures only { (reading : Reading) → IsReading line.now reading → IfSome (told result) (λ t. t ≡ reading) }
    ensures held { IfOk result (λ o. IfSome o IsStatement) }
{
    if line.len() > LINE_LIMIT {
        return Err(LineFault::Refusal(LineRefusal::LineTooLong));
    }
    if str::from_utf8(line).is_err() {
        return Err(LineFault::Refusal(LineRefusal::Utf8));
    }
    if is_empty_line(line) {
        return Ok(None);
    }
    match statement_in(alloc, line) {
        Ok(statement) => Ok(Some(statement)),
        Err(fault) => Err(fault),
    }
}

/// The statement that a line says, or none where it says none.
fn said_alone(alloc: Global, line: &[u8]) -> Result<Option<Statement>, NoMemory>
    ensures held { IfOk result (λ o. IfSome o IsStatement) }
    ensures only { (s : Statement) → IsStatement s → line.now ≡ written_line s → IfOk result (λ o. o ≡ Some s) }
{
    match said_by(alloc, line) {
        Ok(statement) => Ok(Some(statement)),
        Err(LineFault::Refusal(_)) => Ok(None),
        Err(LineFault::NoMemory) => Err(NoMemory),
    }
}

/// Reads the statement of which the line, without its line feed, is the written form. No other spelling is read.
pub fn read_written(alloc: Global, line: &[u8]) -> Result<Option<Statement>, NoMemory>
    ensures found { IfOk result (λ o. IfSome o (λ s. line.now ≡ written_line s)) }
    ensures held { IfOk result (λ o. IfSome o IsStatement) }
    ensures only { (s : Statement) → IsStatement s → line.now ≡ written_line s → IfOk result (λ o. o ≡ Some s) }
    ensures none { IfOk result (λ o. IfNone o ((s : Statement) → IsStatement s → line.now ≢ written_line s)) }
{
    let Some(statement) = said_alone(alloc, line)? else {
        return Ok(None);
    };
    // There is one spelling: the line is right where writing the statement gives it back.
    if line_of(alloc, &statement)?.as_slice() == line {
        Ok(Some(statement))
    } else {
        Ok(None)
    }
}

/// A line reads in one way.
pub fn lines_have_one_reading()
    ensures { (line : List ℕ) (a b : Reading) → IsReading line a → IsReading line b → a ≡ b }
{}

/// The written line of a statement reads as that statement.
pub fn written_lines_are_read()
    ensures { (s : Statement) → IsStatement s → length (written_line s) ≤ line_limit → IsReading (written_line s) (holds s) }
{}

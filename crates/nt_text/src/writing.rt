//! Statements as lines.

ghost use Rattle.std.specs.Prelude.{◌≡◌, ℕ, List, [], ◌∷◌, ◌++◌, IfOk, OnOk, OnErr};
ghost use Rattle.cim_words.specs.Held.{IsStatement};
ghost use Rattle.cim_words.specs.Written as spec;
ghost use Rattle.cim_words.specs.declared.statement.Statement.{Statement};
ghost use Rattle.nt_text.specs.Cut.{IsFreeOf};
ghost use Rattle.nt_text.specs.Document.{lines_of};

use crate::spelling::{Coding, push_text};
use cim_words::{Id, NoMemory, Object, Statement};
use std::alloc::Global;

/// Appends the written form of a statement: its line and a line feed (RDF 1.1 N-Triples, section 2).
pub fn write_statement(statement: &Statement, into: &mut Vec<u8>) -> Result<(), NoMemory>
    ensures ok { OnOk result (into.new.items ≡ into.old.items ++ spec.written statement.now) }
    ensures err { OnErr result (into.new.items ≡ into.old.items) }
{
    let mut line = line_of(*into.allocator(), statement)?;
    line.push(b'\n')?;
    into.extend_from_slice(&line)?;
    Ok(())
}

/// The line of a statement, without its end.
#[tactic(auto, unfolding(cim_words::specs::Written::written_line))]
pub(crate) fn line_of(alloc: Global, statement: &Statement) -> Result<Vec<u8>, NoMemory>
    ensures { IfOk result (λ line. line.items ≡ spec.written_line statement.now) }
{
    let mut line = Vec::new(alloc);
    push_id(statement.subject, &mut line)?;
    line.push(b' ')?;
    push_iri(statement.prop.iri(), &mut line)?;
    line.push(b' ')?;
    push_object(&statement.object, &mut line)?;
    line.extend_from_slice(b" .")?;
    Ok(line)
}

#[tactic(auto, unfolding(cim_words::specs::IdText::id_iri))]
fn push_id(id: Id, into: &mut Vec<u8>) -> Result<(), NoMemory>
    ensures { OnOk result (into.new.items ≡ into.old.items ++ spec.written_id id.number) }
{
    into.extend_from_slice(b"<urn:uuid:")?;
    into.extend_from_slice(&id.text())?;
    into.push(b'>')?;
    Ok(())
}

fn push_iri(text: &str, into: &mut Vec<u8>) -> Result<(), NoMemory>
    ensures { OnOk result (into.new.items ≡ into.old.items ++ spec.written_iri text.now) }
{
    into.push(b'<')?;
    push_text(Coding::Iri, text.as_bytes(), into)?;
    into.push(b'>')?;
    Ok(())
}

fn push_literal(text: &str, into: &mut Vec<u8>) -> Result<(), NoMemory>
    ensures { OnOk result (into.new.items ≡ into.old.items ++ spec.written_literal text.now) }
{
    into.push(b'"')?;
    push_text(Coding::Literal, text.as_bytes(), into)?;
    into.push(b'"')?;
    Ok(())
}

fn push_object(object: &Object, into: &mut Vec<u8>) -> Result<(), NoMemory>
    ensures { OnOk result (into.new.items ≡ into.old.items ++ spec.written_object object.now) }
{
    match object {
        Object::Id(id) => push_id(*id, into),
        Object::Name(name) => push_iri(name.iri(), into),
        Object::Text(word) => push_literal(word.text(), into),
    }
}

/// The line of a statement is one line: it has no line feed, and no carriage return.
pub fn lines_are_whole()
    ensures no_feed { (s : Statement) → IsFreeOf spec.line_feed (spec.written_line s) }
    ensures no_return { (s : Statement) → IsFreeOf spec.carriage_return (spec.written_line s) }
{}

/// A document that begins with a line and a line feed has that line first, and then the lines of what follows.
pub fn lines_are_cut_apart()
    ensures none { lines_of [] ≡ [] }
    ensures first { (line rest : List ℕ) → IsFreeOf spec.line_feed line → IsFreeOf spec.carriage_return line → lines_of (line ++ spec.line_feed ∷ rest) ≡ line ∷ lines_of rest }
{}

/// A line is that of one statement.
pub fn lines_differ()
    ensures { (s t : Statement) → IsStatement s → IsStatement t → spec.written_line s ≡ spec.written_line t → s ≡ t }
{}

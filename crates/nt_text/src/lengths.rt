//! How long the written line of a statement is.

ghost use Rattle.std.specs.Prelude.{◌≡◌, ◌≤◌, length};
ghost use Rattle.std.specs.List.{flat_map};
ghost use Rattle.cim_words.specs.Written as written;
ghost use Rattle.cim_words.specs.Written.{line_limit};
ghost use Rattle.nt_text.specs.Spelling.{spelling_of};

use crate::spelling::{Coding, is_iri_character};
use cim_words::{Object, Statement};

/// How many bytes an identifier has with its brackets.
const ID_LENGTH: usize = 47;

/// How many bytes the written line of a statement has, if it is not too long.
pub fn line_length(statement: &Statement) -> usize
    requires { length (written.written_line statement.now) ≤ line_limit }
    ensures { result ≡ length (written.written_line statement.now) }
{
    // Beside the three terms there are two spaces, and a space and a point; and the property stands in brackets.
    let property = spelled_length(Coding::Iri, statement.prop.iri().as_bytes());
    ID_LENGTH + property + object_length(&statement.object) + 6
}

fn object_length(object: &Object) -> usize
    requires { length (written.written_object object.now) ≤ line_limit }
    ensures { result ≡ length (written.written_object object.now) }
{
    match object {
        Object::Id(_) => ID_LENGTH,
        Object::Name(name) => spelled_length(Coding::Iri, name.iri().as_bytes()) + 2,
        Object::Text(word) => spelled_length(Coding::Literal, word.text().as_bytes()) + 2,
    }
}

/// How many bytes the spelling of a text has.
fn spelled_length(coding: Coding, text: &[u8]) -> usize
    requires { length (flat_map (spelling_of coding) text.now) ≤ line_limit }
    ensures { result ≡ length (flat_map (spelling_of coding) text.now) }
{
    let mut count = 0;
    for &byte in text {
        count += byte_length(coding, byte);
    }
    count
}

fn byte_length(coding: Coding, byte: u8) -> usize
    ensures count { result ≡ length (spelling_of coding byte) }
    ensures few { result ≤ 6 }
{
    match coding {
        Coding::Iri => length_in_iri(byte),
        Coding::Literal => length_in_literal(byte),
    }
}

#[tactic(auto, unfolding(cim_words::specs::Written::iri_spelling))]
fn length_in_iri(byte: u8) -> usize
    ensures count { result ≡ length (written.iri_spelling byte) }
    ensures few { result ≤ 6 }
{
    if is_iri_character(byte) { 1 } else { 6 }
}

#[tactic(auto, unfolding(cim_words::specs::Written::literal_spelling))]
fn length_in_literal(byte: u8) -> usize
    ensures count { result ≡ length (written.literal_spelling byte) }
    ensures few { result ≤ 6 }
{
    match byte {
        b'"' | b'\\' | b'\n' | b'\r' => 2,
        _ => 1,
    }
}

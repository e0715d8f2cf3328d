//! The triple of a line, in any spelling that the grammar allows.

ghost use Rattle.std.specs.Prelude.{◌≡◌, IfOk, IfErr, IfSome, IsTrue, string_bytes};
ghost use Rattle.cim_words.specs.Held.{IsHeld};
ghost use Rattle.cim_words.specs.Object.{object_of, is_proper_object};
ghost use Rattle.cim_words.specs.declared.object.Object.{Object};
ghost use Rattle.nt_text.specs.Ends.{HasIriEnd, HasLiteralToEnd, HasObjectToEnd, IsTripleFault};
ghost use Rattle.nt_text.specs.Grammar.{IsTriple};

use crate::ends::is_literal_end;
use crate::refusal::{LineFault, LineRefusal};
use crate::run::{begins_blank_node, is_end};
use crate::terms::{characters_at, iri_at};
use cim_words::{NoMemory, Object, Word};
use std::alloc::Global;

/// The object that an IRI names up to the end of the triple.
fn named_to_end(alloc: Global, bytes: &[u8]) -> Result<Option<Object>, NoMemory>
    ensures found { IfOk result (λ o. IfSome o (λ object. (end : HasIriEnd bytes.now) × (object ≡ object_of end.text))) }
    ensures proper { IfOk result (λ o. IfSome o (λ object. IsTrue (is_proper_object object))) }
    ensures held { IfOk result (λ o. IfSome o IsHeld) }
    ensures only { (end : HasIriEnd bytes.now) → IfOk result (λ o. o ≡ Some (object_of end.text)) }
{
    let Some((text, rest)) = iri_at(alloc, bytes)? else {
        return Ok(None);
    };
    if !is_end(rest) {
        return Ok(None);
    }
    Ok(Some(Object::of_iri(alloc, text.as_str())?))
}

/// The literal that stands here up to the end of the triple.
fn literal_to_end(alloc: Global, bytes: &[u8]) -> Result<Option<Object>, NoMemory>
    ensures found { IfOk result (λ o. IfSome o (λ object. (end : HasLiteralToEnd bytes.now) × (object ≡ Object.Text end.text))) }
    ensures proper { IfOk result (λ o. IfSome o (λ object. IsTrue (is_proper_object object))) }
    ensures held { IfOk result (λ o. IfSome o IsHeld) }
    ensures only { (end : HasLiteralToEnd bytes.now) → IfOk result (λ o. o ≡ Some (Object.Text end.text)) }
{
    let Some((text, behind)) = characters_at(alloc, bytes)? else {
        return Ok(None);
    };
    if !is_literal_end(alloc, behind)? {
        return Ok(None);
    }
    Ok(Some(Object::Text(Word::of(alloc, text.as_str())?)))
}

/// The object that stands here up to the end of the triple.
fn object_to_end(alloc: Global, bytes: &[u8]) -> Result<Option<Object>, NoMemory>
    ensures found { IfOk result (λ o. IfSome o (λ object. HasObjectToEnd bytes.now object)) }
    ensures proper { IfOk result (λ o. IfSome o (λ object. IsTrue (is_proper_object object))) }
    ensures held { IfOk result (λ o. IfSome o IsHeld) }
    ensures only { (object : Object) → HasObjectToEnd bytes.now object → IfOk result (λ o. o ≡ Some object) }
{
    match named_to_end(alloc, bytes)? {
        Some(object) => Ok(Some(object)),
        None => literal_to_end(alloc, bytes),
    }
}

/// A triple as it is read.
#[derive(Drop)]
pub(crate) struct Triple {
    /// The text of the first IRI.
    pub(crate) subject: String,
    /// The text of the second IRI.
    pub(crate) property: String,
    /// The object.
    pub(crate) object: Object,
}

/// The triple of a line, where it is one.
pub(crate) fn triple_of(alloc: Global, line: &[u8]) -> Result<Triple, LineFault>
    ensures found { IfOk result (λ triple. IsTriple line.now (string_bytes triple.subject) (string_bytes triple.property) triple.object) }
    ensures proper { IfOk result (λ triple. IsTrue (is_proper_object triple.object)) }
    ensures held { IfOk result (λ triple. IsHeld triple.object) }
    ensures cause { IfErr result (IsTripleFault line.now) }
{
    if begins_blank_node(line) {
        return Err(LineFault::Refusal(LineRefusal::Blank));
    }
    let Some((subject, behind)) = iri_at(alloc, line)? else {
        return Err(LineFault::Refusal(LineRefusal::Syntax));
    };
    let Some((property, behind)) = iri_at(alloc, behind)? else {
        return Err(LineFault::Refusal(LineRefusal::Syntax));
    };
    if begins_blank_node(behind) {
        return Err(LineFault::Refusal(LineRefusal::Blank));
    }
    let Some(object) = object_to_end(alloc, behind)? else {
        return Err(LineFault::Refusal(LineRefusal::Syntax));
    };
    Ok(Triple {
        subject,
        property,
        object,
    })
}

//! The end of a triple after its object.

ghost use Rattle.std.specs.Prelude.{◌≡◌, ◌↔◌, ◌<◌, ℕ, List, ◌++◌, length, IfOk, IfSome, IfNone, IsSomeAnd, IsTrue, codes};
ghost use Rattle.std.specs.List.{AllPass};
ghost use Rattle.nt_text.specs.Ends.{HasIriEnd, HasSubtags, HasTag, HasTagEnd, HasLiteralEnd, stops_tag};
ghost use Rattle.nt_text.specs.Run.{is_of_kind, behind_run};

use crate::run::{ByteKind, after_mark, after_run, is_end};
use crate::terms::iri_at;
use cim_words::NoMemory;
use std::alloc::Global;

/// What stands after one or more bytes of a kind at the front.
fn after_some(kind: ByteKind, bytes: &[u8]) -> Option<&[u8]>
    ensures found { IfSome result (λ rest. (run : List ℕ) × (0 < length run) × AllPass (is_of_kind kind) run × (bytes.now ≡ run ++ rest.now)) }
    ensures longest { IfSome result (λ rest. rest.now ≡ behind_run (is_of_kind kind) bytes.now) }
    ensures none { IfNone result (behind_run (is_of_kind kind) bytes.now ≡ bytes.now) }
{
    let rest = after_run(kind, bytes);
    if rest.len() < bytes.len() {
        Some(rest)
    } else {
        None
    }
}

fn after_hyphen(bytes: &[u8]) -> Option<&[u8]>
    ensures found { IfSome result (λ rest. bytes.now ≡ codes "-" ++ rest.now) }
    ensures only { (rest : List ℕ) → bytes.now ≡ codes "-" ++ rest → IsSomeAnd result (λ found. found.now ≡ rest) }
{
    bytes.strip_prefix(b"-")
}

/// What follows the subtags at the front.
fn after_subtags(bytes: &[u8]) -> Option<&[u8]>
    ensures found { IfSome result (λ rest. HasSubtags bytes.now rest.now) }
    ensures only { (rest : List ℕ) → IsTrue (stops_tag rest) → HasSubtags bytes.now rest → IsSomeAnd result (λ found. found.now ≡ rest) }
{
    let mut rest = bytes;
    while let Some(subtag) = after_hyphen(rest) {
        rest = after_some(ByteKind::LetterOrDigit, subtag)?;
    }
    Some(rest)
}

/// What follows the language tag at the front.
fn after_tag(bytes: &[u8]) -> Option<&[u8]>
    ensures found { IfSome result (λ rest. HasTag bytes.now rest.now) }
    ensures only { (rest : List ℕ) → IsTrue (stops_tag rest) → HasTag bytes.now rest → IsSomeAnd result (λ found. found.now ≡ rest) }
{
    after_subtags(after_some(ByteKind::Letter, bytes)?)
}

/// Whether a language tag and the end of the triple stand here.
fn is_tag_end(bytes: &[u8]) -> bool
    ensures { IsTrue result ↔ HasTagEnd bytes.now }
{
    match after_tag(bytes) {
        Some(rest) => is_end(rest),
        None => false,
    }
}

/// Whether an IRI and the end of the triple stand here.
fn is_iri_end(alloc: Global, bytes: &[u8]) -> Result<bool, NoMemory>
    ensures { IfOk result (λ is. IsTrue is ↔ HasIriEnd bytes.now) }
{
    let Some((_, rest)) = iri_at(alloc, bytes)? else {
        return Ok(false);
    };
    Ok(is_end(rest))
}

/// Whether the triple ends after a literal's characters, with a datatype or a language tag or neither.
pub(crate) fn is_literal_end(alloc: Global, bytes: &[u8]) -> Result<bool, NoMemory>
    ensures { IfOk result (λ is. IsTrue is ↔ HasLiteralEnd bytes.now) }
{
    if let Some(datatype) = after_mark(b"^^", bytes) {
        return is_iri_end(alloc, datatype);
    }
    match after_mark(b"@", bytes) {
        Some(tag) => Ok(is_tag_end(tag)),
        None => Ok(is_end(bytes)),
    }
}

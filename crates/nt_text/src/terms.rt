//! IRIs and the characters of literals at the front of a line.

ghost use Rattle.std.specs.Prelude.{◌≡◌, ℕ, List, ◌∷◌, ◌++◌, length, Some, false, IfOk, IfSome, IsSomeAnd, codes, string_bytes};
ghost use Rattle.cim_words.specs.Written.{quote};
ghost use Rattle.nt_text.specs.Cut.{IsFreeOf};
ghost use Rattle.nt_text.specs.Grammar.{is_blank, HasIri, HasCharacters};
ghost use Rattle.nt_text.specs.Quotes.{closing_at};
ghost use Rattle.nt_text.specs.Run.{behind_run};
ghost use Rattle.nt_text.specs.Spelling.{closing};

use crate::characters::text_of;
use crate::cut::cut_at;
use crate::quotes::cut_at_quote;
use crate::run::after_mark;
use crate::spelling::Coding;
use cim_words::NoMemory;
use std::alloc::Global;

/// The inside of the IRI after a gap, and what follows it.
fn iri_inside(bytes: &[u8]) -> Option<(&[u8], &[u8])>
    ensures found { IfSome result (λ x. behind_run is_blank bytes.now ≡ codes "<" ++ (x.0.now ++ closing ∷ x.1.now)) }
    ensures only { (inside rest : List ℕ) → IsFreeOf closing inside → behind_run is_blank bytes.now ≡ codes "<" ++ (inside ++ closing ∷ rest)
        → IsSomeAnd result (λ x. (x.0.now ≡ inside) × (x.1.now ≡ rest)) }
{
    cut_at(b'>', after_mark(b"<", bytes)?)
}

/// The inside of the literal after a gap, and what follows it.
fn literal_inside(bytes: &[u8]) -> Option<(&[u8], &[u8])>
    ensures found { IfSome result (λ x. behind_run is_blank bytes.now ≡ codes "\"" ++ (x.0.now ++ quote ∷ x.1.now)) }
    ensures only { (inside rest : List ℕ) → closing_at false (inside ++ quote ∷ rest) ≡ Some (length inside)
        → behind_run is_blank bytes.now ≡ codes "\"" ++ (inside ++ quote ∷ rest) → IsSomeAnd result (λ x. (x.0.now ≡ inside) × (x.1.now ≡ rest)) }
{
    cut_at_quote(after_mark(b"\"", bytes)?)
}

/// The text of the IRI after a gap, and what follows it.
pub(crate) fn iri_at(alloc: Global, bytes: &[u8]) -> Result<Option<(String, &[u8])>, NoMemory>
    ensures found { IfOk result (λ o. IfSome o (λ x. HasIri bytes.now (string_bytes x.0) x.1.now)) }
    ensures only { (text rest : List ℕ) → HasIri bytes.now text rest → IfOk result (λ o. IsSomeAnd o (λ x. (string_bytes x.0 ≡ text) × (x.1.now ≡ rest))) }
{
    let Some((inside, rest)) = iri_inside(bytes) else {
        return Ok(None);
    };
    match text_of(alloc, Coding::Iri, inside)? {
        Some(text) => Ok(Some((text, rest))),
        None => Ok(None),
    }
}

/// The characters of the literal after a gap, and what follows them.
pub(crate) fn characters_at(
    alloc: Global,
    bytes: &[u8],
) -> Result<Option<(String, &[u8])>, NoMemory>
    ensures found { IfOk result (λ o. IfSome o (λ x. HasCharacters bytes.now (string_bytes x.0) x.1.now)) }
    ensures only { (text rest : List ℕ) → HasCharacters bytes.now text rest → IfOk result (λ o. IsSomeAnd o (λ x. (string_bytes x.0 ≡ text) × (x.1.now ≡ rest))) }
{
    let Some((inside, rest)) = literal_inside(bytes) else {
        return Ok(None);
    };
    match text_of(alloc, Coding::Literal, inside)? {
        Some(text) => Ok(Some((text, rest))),
        None => Ok(None),
    }
}

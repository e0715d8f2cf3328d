//! Texts from their characters as they are spelled.

ghost use Rattle.std.specs.Prelude.{◌≡◌, ◌≤◌, ◌<◌, ℕ, List, ◌∷◌, ◌++◌, length, IfOk, IfSome, IsSome, IsSomeAnd, IsTrue, SomeIff, string_bytes, true};
ghost use Rattle.std.specs.Char.{IsScalar, encode_utf8};
ghost use Rattle.std.specs.List.{list_all};
ghost use Rattle.std.specs.Str.{IsUtf8};
ghost use Rattle.cim_words.specs.Written.{backslash};
ghost use Rattle.nt_text.specs.Parts as spec;
ghost use Rattle.nt_text.specs.Parts.{Part, IsPart, part_spelling, part_text, are_hex, named_character, named, Spells};

use crate::cut::cut_at;
use crate::spelling::{Coding, is_iri_character};
use cim_words::NoMemory;
use std::alloc::Global;

/// Whether a byte stands for itself.
fn is_raw(coding: Coding, byte: u8) -> bool
    ensures { result ≡ spec.is_raw coding byte }
{
    match coding {
        Coding::Iri => is_iri_character(byte),
        Coding::Literal => !matches!(byte, b'"' | b'\\' | b'\n' | b'\r'),
    }
}

/// Whether all bytes stand for themselves.
fn are_raw(coding: Coding, bytes: &[u8]) -> bool
    ensures { result ≡ list_all (spec.is_raw coding) bytes.now }
{
    // Without a way out in between, many bytes are tested at once.
    let mut raw = true;
    for &byte in bytes {
        raw &= is_raw(coding, byte);
    }
    raw
}

/// The text whose characters all stand for themselves.
fn raw_text(coding: Coding, bytes: &[u8]) -> Option<&str>
    ensures found { IfSome result (λ text. text.now ≡ bytes.now) }
    ensures utf8 { IfSome result (λ _. IsUtf8 bytes.now) }
    ensures raw { IfSome result (λ _. list_all (spec.is_raw coding) bytes.now ≡ true) }
    ensures only { IsUtf8 bytes.now → list_all (spec.is_raw coding) bytes.now ≡ true → IsSome result }
{
    if are_raw(coding, bytes) {
        str::from_utf8(bytes).ok()
    } else {
        None
    }
}

/// The number that up to eight hexadecimal digits spell, in either case.
fn hex_number(digits: &[u8]) -> Option<u32>
    requires { length digits.now ≤ 8 }
    ensures { SomeIff result (IsTrue (are_hex digits.now)) (spec.hex_number digits.now) }
{
    let mut number = 0;
    for &digit in digits {
        number = number * 16 + char::from(digit).to_digit(16)?;
    }
    Some(number)
}

/// The character whose number so many digits at the front spell, and what follows them.
fn numbered(count: usize, bytes: &[u8]) -> Option<(char, &[u8])>
    requires { count ≤ 8 }
    ensures found { IfSome result (λ x. (digits : List ℕ) × (length digits ≡ count) × IsTrue (are_hex digits) × IsScalar (spec.hex_number digits)
        × (x.0 ≡ spec.hex_number digits) × (bytes.now ≡ digits ++ x.1.now)) }
    ensures only { (digits rest : List ℕ) → length digits ≡ count → IsTrue (are_hex digits) → IsScalar (spec.hex_number digits) → bytes.now ≡ digits ++ rest
        → IsSomeAnd result (λ x. (x.0 ≡ spec.hex_number digits) × (x.1.now ≡ rest)) }
{
    let (digits, rest) = bytes.split_at_checked(count)?;
    Some((char::from_u32(hex_number(digits)?)?, rest))
}

/// The character that a letter stands for after a backslash.
fn named(coding: Coding, letter: u8) -> Option<char>
    ensures found { IfSome result (λ character. IsPart coding (named letter) × (character ≡ named_character letter)) }
    ensures only { IsPart coding (named letter) → IsSomeAnd result (λ character. character ≡ named_character letter) }
{
    if let Coding::Iri = coding {
        return None;
    }
    match letter {
        b't' => Some('\t'),
        b'b' => Some('\u{8}'),
        b'n' => Some('\n'),
        b'r' => Some('\r'),
        b'f' => Some('\u{c}'),
        b'"' | b'\'' | b'\\' => Some(char::from(letter)),
        _ => None,
    }
}

/// The character that a mark after a backslash stands for, and what follows the escape.
fn marked(coding: Coding, mark: u8, after: &[u8]) -> Option<(char, &[u8])>
    ensures found { IfSome result (λ x. (part : Part) × IsPart coding part × (part_text part ≡ encode_utf8 x.0)
        × (backslash ∷ (mark ∷ after.now) ≡ part_spelling part ++ x.1.now)) }
    ensures only { (part : Part) (rest : List ℕ) → IsPart coding part → backslash ∷ (mark ∷ after.now) ≡ part_spelling part ++ rest
        → IsSomeAnd result (λ x. (part_text part ≡ encode_utf8 x.0) × (x.1.now ≡ rest)) }
{
    match mark {
        b'u' => numbered(4, after),
        b'U' => numbered(8, after),
        letter => Some((named(coding, letter)?, after)),
    }
}

/// The character that the escape after a backslash stands for, and what follows the escape.
fn escaped(coding: Coding, behind: &[u8]) -> Option<(char, &[u8])>
    ensures found { IfSome result (λ x. (part : Part) × IsPart coding part × (part_text part ≡ encode_utf8 x.0)
        × (backslash ∷ behind.now ≡ part_spelling part ++ x.1.now)) }
    ensures only { (part : Part) (rest : List ℕ) → IsPart coding part → backslash ∷ behind.now ≡ part_spelling part ++ rest
        → IsSomeAnd result (λ x. (part_text part ≡ encode_utf8 x.0) × (x.1.now ≡ rest)) }
{
    let [mark, after @ ..] = behind else {
        return None;
    };
    marked(coding, *mark, after)
}

/// The text that is spelled so.
pub(crate) fn text_of(
    alloc: Global,
    coding: Coding,
    spelled: &[u8],
) -> Result<Option<String>, NoMemory>
    ensures found { IfOk result (λ o. IfSome o (λ text. Spells coding spelled.now (string_bytes text))) }
    ensures only { (text : List ℕ) → Spells coding spelled.now text → IfOk result (λ o. IsSomeAnd o (λ found. string_bytes found ≡ text)) }
{
    let mut text = String::with_capacity(alloc, spelled.len())?;
    let mut rest = spelled;
    while let Some((front, behind)) = cut_at(b'\\', rest) {
        let Some(plain) = raw_text(coding, front) else {
            return Ok(None);
        };
        let Some((character, after)) = escaped(coding, behind) else {
            return Ok(None);
        };
        text.push_str(plain)?;
        text.push(character)?;
        rest = after;
    }
    let Some(plain) = raw_text(coding, rest) else {
        return Ok(None);
    };
    text.push_str(plain)?;
    Ok(Some(text))
}

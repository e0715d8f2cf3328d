//! How the bytes of a text are spelled between the marks of an IRI or a literal.

ghost use Rattle.std.specs.Prelude.{◌≡◌, ◌++◌, IfOk, OnOk};
ghost use Rattle.std.specs.List.{flat_map};
ghost use Rattle.cim_words.specs.Written as written;
ghost use Rattle.nt_text.specs.Spelling.{spelling_of};

use cim_words::NoMemory;

/// The two ways in which a text is spelled.
#[derive(Clone, Copy)]
pub(crate) enum Coding {
    /// Between `<` and `>`.
    Iri,
    /// Between quotes.
    Literal,
}

const HEX_DIGITS: &[u8; 16] = b"0123456789ABCDEF";

/// Appends the spelling of a text.
pub(crate) fn push_text(coding: Coding, text: &[u8], into: &mut Vec<u8>) -> Result<(), NoMemory>
    ensures { OnOk result (into.new.items ≡ into.old.items ++ flat_map (spelling_of coding) text.now) }
{
    for &byte in text {
        push_byte(coding, byte, into)?;
    }
    Ok(())
}

fn push_byte(coding: Coding, byte: u8, into: &mut Vec<u8>) -> Result<(), NoMemory>
    ensures { OnOk result (into.new.items ≡ into.old.items ++ spelling_of coding byte) }
{
    match coding {
        Coding::Iri => push_in_iri(byte, into),
        Coding::Literal => push_in_literal(byte, into),
    }
}

/// Whether a byte may stand in an IRI as it is.
#[tactic(auto, unfolding(cim_words::specs::Written::is_iri_character))]
pub(crate) fn is_iri_character(byte: u8) -> bool
    ensures { result ≡ written.is_iri_character byte }
{
    byte > b' '
        && !matches!(
            byte,
            b'<' | b'>' | b'"' | b'{' | b'}' | b'|' | b'^' | b'`' | b'\\'
        )
}

#[tactic(auto, unfolding(cim_words::specs::Written::iri_spelling))]
fn push_in_iri(byte: u8, into: &mut Vec<u8>) -> Result<(), NoMemory>
    ensures { OnOk result (into.new.items ≡ into.old.items ++ written.iri_spelling byte) }
{
    if is_iri_character(byte) {
        into.push(byte)?;
    } else {
        let high = HEX_DIGITS[usize::from(byte / 16)];
        let low = HEX_DIGITS[usize::from(byte % 16)];
        into.extend_from_slice(&[b'\\', b'u', b'0', b'0', high, low])?;
    }
    Ok(())
}

#[tactic(auto, unfolding(cim_words::specs::Written::literal_spelling))]
fn push_in_literal(byte: u8, into: &mut Vec<u8>) -> Result<(), NoMemory>
    ensures { OnOk result (into.new.items ≡ into.old.items ++ written.literal_spelling byte) }
{
    match byte {
        b'"' => into.extend_from_slice(b"\\\"")?,
        b'\\' => into.extend_from_slice(b"\\\\")?,
        b'\n' => into.extend_from_slice(b"\\n")?,
        b'\r' => into.extend_from_slice(b"\\r")?,
        _ => into.push(byte)?,
    }
    Ok(())
}

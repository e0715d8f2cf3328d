//! The quote that ends a literal's characters.

ghost use Rattle.std.specs.Prelude.{◌≡◌, ◌<◌, List, ◌∷◌, ◌++◌, length, Some, IfSome, IfNone, OnSome, None, false, not, ◌&&◌, ◌==◌};
ghost use Rattle.cim_words.specs.Written.{quote, backslash};
ghost use Rattle.nt_text.specs.Quotes.{closing_at};

/// Whether a byte ends the characters.
fn closes(escaped: bool, byte: u8) -> bool
    ensures { result ≡ (not escaped && byte == quote) }
{
    !escaped && byte == b'"'
}

/// Whether a byte escapes the next one.
fn escapes(escaped: bool, byte: u8) -> bool
    ensures { result ≡ (not escaped && byte == backslash) }
{
    !escaped && byte == b'\\'
}

/// Where the first quote stands that no backslash escapes.
fn closing_quote(bytes: &[u8]) -> Option<usize>
    ensures place { result ≡ closing_at false bytes.now }
    ensures within { IfSome result (λ end. end < length bytes.now) }
{
    let mut escaped = false;
    for (index, byte) in bytes.iter().enumerate() {
        if closes(escaped, *byte) {
            return Some(index);
        }
        escaped = escapes(escaped, *byte);
    }
    None
}

/// What stands before the first quote that no backslash escapes, and what follows it.
pub(crate) fn cut_at_quote(bytes: &[u8]) -> Option<(&[u8], &[u8])>
    ensures found { IfSome result (λ parts. bytes.now ≡ parts.0.now ++ quote ∷ parts.1.now) }
    ensures first { IfSome result (λ parts. closing_at false bytes.now ≡ Some (length parts.0.now)) }
    ensures none { IfNone result (closing_at false bytes.now ≡ None) }
{
    let end = closing_quote(bytes)?;
    Some((&bytes[..end], &bytes[end + 1..]))
}

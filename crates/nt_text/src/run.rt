//! Runs of bytes of one kind, and what stands after a gap.

ghost use Rattle.std.specs.Prelude.{◌≡◌, ◌↔◌, ℕ, List, ◌++◌, IsTrue, IfSome, IsSomeAnd};
ghost use Rattle.nt_text.specs.Grammar.{is_blank, BeginsBlankNode, IsEmptyLine, IsEnd};
ghost use Rattle.nt_text.specs.Run.{is_of_kind, behind_run, begins_no_term};

/// A kind of byte.
#[derive(Clone, Copy)]
pub(crate) enum ByteKind {
    /// A space or a tab.
    Blank,
    /// A letter of ASCII.
    Letter,
    /// A letter or a digit of ASCII.
    LetterOrDigit,
}

impl ByteKind {
    fn has(self, byte: u8) -> bool
        ensures { result ≡ is_of_kind self byte }
    {
        match self {
            ByteKind::Blank => byte == b' ' || byte == b'\t',
            ByteKind::Letter => byte.is_ascii_alphabetic(),
            ByteKind::LetterOrDigit => byte.is_ascii_alphanumeric(),
        }
    }
}

/// What stands after the bytes of a kind at the front.
pub(crate) fn after_run(kind: ByteKind, bytes: &[u8]) -> &[u8]
    ensures { result.now ≡ behind_run (is_of_kind kind) bytes.now }
{
    let mut rest = bytes;
    while let [byte, after @ ..] = rest {
        if !kind.has(*byte) {
            break;
        }
        rest = after;
    }
    rest
}

/// What stands after a mark that stands at the front after a gap.
pub(crate) fn after_mark<'a>(mark: &[u8], bytes: &'a [u8]) -> Option<&'a [u8]>
    ensures found { IfSome result (λ rest. behind_run is_blank bytes.now ≡ mark.now ++ rest.now) }
    ensures only { (rest : List ℕ) → behind_run is_blank bytes.now ≡ mark.now ++ rest → IsSomeAnd result (λ found. found.now ≡ rest) }
{
    after_run(ByteKind::Blank, bytes).strip_prefix(mark)
}

fn is_comment(rest: &[u8]) -> bool
    ensures { result ≡ begins_no_term rest.now }
{
    match rest {
        [] => true,
        [byte, ..] => *byte == b'#',
    }
}

/// Whether the bytes are a gap and at most a comment.
pub(crate) fn is_empty_line(bytes: &[u8]) -> bool
    ensures { IsTrue result ↔ IsEmptyLine bytes.now }
{
    is_comment(after_run(ByteKind::Blank, bytes))
}

/// Whether the bytes are the end of a triple.
pub(crate) fn is_end(bytes: &[u8]) -> bool
    ensures { IsTrue result ↔ IsEnd bytes.now }
{
    match after_mark(b".", bytes) {
        Some(after) => is_empty_line(after),
        None => false,
    }
}

/// Whether a blank node begins after a gap.
pub(crate) fn begins_blank_node(bytes: &[u8]) -> bool
    ensures { IsTrue result ↔ BeginsBlankNode bytes.now }
{
    after_mark(b"_:", bytes).is_some()
}

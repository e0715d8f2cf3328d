//! Identifiers: numbers that are written as UUIDs (RFC 9562).

ghost use Rattle.std.specs.Prelude.{◌≡◌, ◌<◌, ◌^◌, ℕ, Some, None, MatchOption, MatchResult};
ghost use Rattle.cim_words.specs.IdText as spec;
ghost use Rattle.cim_words.specs.IdText.{plain_number, iri_number, id_text, id_iri};

use thiserror::Error;
use uuid::Uuid;

/// How many bytes a plain identifier has.
const PLAIN_LENGTH: usize = 36;

/// An identifier: the number of the 32 hexadecimal digits of a UUID (RFC 9562), whatever version or variant they name.
#[derive(Clone, Copy, Debug, PartialEq, Eq, PartialOrd, Ord, Hash)]
pub struct Id {
    /// The number, with the first digit as its highest.
    pub number: u128,
}

/// A text that spells no identifier.
#[derive(Clone, Copy, Debug, PartialEq, Eq, Error)]
#[error("not an identifier")]
pub struct BadId;

impl Id {
    /// The identifier of a number.
    pub fn of(number: u128) -> Id
        ensures { result.number ≡ number }
    {
        Id { number }
    }

    /// Reads a plain identifier: 8, 4, 4, 4 and 12 hexadecimal digits in either case with `-` between, and nothing else.
    pub fn read_plain(text: &str) -> Result<Id, BadId>
        ensures { MatchResult result (λ id. plain_number text.now ≡ Some id.number) (λ _. plain_number text.now ≡ None) }
    {
        plain_id(text.as_bytes()).ok_or(BadId)
    }

    /// Reads an IRI that is `urn:uuid:` and a plain identifier, or that ends in `#_` and a plain identifier.
    pub fn read_iri(text: &str) -> Result<Id, BadId>
        ensures { MatchResult result (λ id. iri_number text.now ≡ Some id.number) (λ _. iri_number text.now ≡ None) }
    {
        iri_id(text.as_bytes()).ok_or(BadId)
    }

    /// The plain identifier, in lower case.
    pub fn text(&self) -> [u8; 36]
        ensures { result ≡ id_text self.now.number }
    {
        let mut buffer = Uuid::encode_buffer();
        let written = Uuid::from_u128(self.number)
            .hyphenated()
            .encode_lower(&mut buffer);
        let mut text = [0; PLAIN_LENGTH];
        text.copy_from_slice(written.as_bytes());
        text
    }
}

// The plain identifier that these bytes spell.
fn plain_id(text: &[u8]) -> Option<Id>
    ensures { MatchOption result (plain_number text.now ≡ None) (λ id. plain_number text.now ≡ Some id.number) }
{
    if text.len() != PLAIN_LENGTH {
        return None;
    }
    match Uuid::try_parse_ascii(text) {
        Ok(uuid) => Some(Id::of(uuid.as_u128())),
        Err(_) => None,
    }
}

// The plain identifier at the end of an IRI that names one.
fn iri_id(text: &[u8]) -> Option<Id>
    ensures { MatchOption result (iri_number text.now ≡ None) (λ id. iri_number text.now ≡ Some id.number) }
{
    if text.len() < PLAIN_LENGTH {
        return None;
    }
    let (head, plain) = text.split_at(text.len() - PLAIN_LENGTH);
    if is_iri_head(head) {
        plain_id(plain)
    } else {
        None
    }
}

// Whether these bytes may stand before the plain identifier of an IRI.
fn is_iri_head(head: &[u8]) -> bool
    ensures { result ≡ spec.is_iri_head head.now }
{
    head == b"urn:uuid:".as_slice() || head.ends_with(b"#_")
}

/// What is written of an identifier is read as that identifier, as a plain text and as an IRI.
pub fn ids_are_read_back()
    ensures plain { (number : ℕ) → number < 2 ^ 128 → plain_number (id_text number) ≡ Some number }
    ensures iri { (number : ℕ) → number < 2 ^ 128 → iri_number (id_iri number) ≡ Some number }
{}

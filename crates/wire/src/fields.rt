//! The fields of requests, read from single words.

ghost use Rattle.std.specs.Prelude.{◌≡◌, ◌<◌, ◌^◌, ◌++◌, ℕ, List, false, IfOk, IfErr, OnOk, IfSome, IfNone, IsSomeAnd, MatchOption};
ghost use Rattle.std.specs.Fmt.{decimal};
ghost use Rattle.std.specs.Str.{IsUtf8};
ghost use Rattle.cim_words.specs.IdText.{plain_number};
ghost use Rattle.cim_words.specs.Phases.{phase_text};
ghost use Rattle.cim_words.specs.declared.phases.PhaseSet.{PhaseSet};
ghost use Rattle.room_words.specs.declared.anchor.Anchor.{Anchor};
ghost use Rattle.wire.specs.Reading as reading;
ghost use Rattle.wire.specs.Values.{IsOf, SpellsAnchor, SpellsId, SpellsNumber, a_length, a_phase_set, a_prefix, an_anchor, an_id, most_entries, most_millimetres};

use cim_words::{Id, Length, PhaseSet};
use room_words::{Anchor, Fault};

/// The greatest number of 13 digits.
const MOST_MILLIMETRES: u64 = 9_999_999_999_999;

/// The most entries that a history has.
const MOST_ENTRIES: u64 = 1_048_576;

/// The identifier that the word with a number spells.
pub(crate) fn id_at(place: u8, word: &[u8]) -> Result<Id, Fault>
    ensures ok { IfOk result (λ id. SpellsId id word.now) }
    ensures form { OnOk result (IsOf an_id word.now) }
    ensures fault { IfErr result (λ fault. (fault ≡ Fault.Field place) × (IsOf an_id word.now → ⊥)) }
{
    match read_id(word) {
        Some(id) => Ok(id),
        None => Err(Fault::Field(place)),
    }
}

/// The length that the word with a number spells.
pub(crate) fn length_at(place: u8, word: &[u8]) -> Result<Length, Fault>
    ensures ok { IfOk result (λ far. SpellsNumber most_millimetres far.mm word.now) }
    ensures form { OnOk result (IsOf a_length word.now) }
    ensures fault { IfErr result (λ fault. (fault ≡ Fault.Field place) × (IsOf a_length word.now → ⊥)) }
{
    match read_number(word, MOST_MILLIMETRES) {
        Some(mm) => Ok(Length { mm }),
        None => Err(Fault::Field(place)),
    }
}

/// How many entries the prefix has that the word with a number names.
pub(crate) fn prefix_at(place: u8, word: &[u8]) -> Result<u32, Fault>
    ensures ok { IfOk result (λ count. SpellsNumber most_entries count word.now) }
    ensures fault { IfErr result (λ fault. (fault ≡ Fault.Field place) × (IsOf a_prefix word.now → ⊥)) }
{
    match read_number(word, MOST_ENTRIES) {
        Some(count) => Ok(count as u32),
        None => Err(Fault::Field(place)),
    }
}

/// The phases that the word with a number spells.
pub(crate) fn phases_at(place: u8, word: &[u8]) -> Result<PhaseSet, Fault>
    ensures ok { IfOk result (λ set. word.now ≡ phase_text set) }
    ensures form { OnOk result (IsOf a_phase_set word.now) }
    ensures fault { IfErr result (λ fault. (fault ≡ Fault.Field place) × (IsOf a_phase_set word.now → ⊥)) }
{
    match read_phases(word) {
        Some(set) => Ok(set),
        None => Err(Fault::Field(place)),
    }
}

/// The place that the word with a number spells.
pub(crate) fn anchor_at(place: u8, word: &[u8]) -> Result<Anchor, Fault>
    ensures ok { IfOk result (λ at. SpellsAnchor at word.now) }
    ensures form { OnOk result (IsOf an_anchor word.now) }
    ensures fault { IfErr result (λ fault. (fault ≡ Fault.Field place) × (IsOf an_anchor word.now → ⊥)) }
{
    match read_anchor(word) {
        Some(at) => Ok(at),
        None => Err(Fault::Field(place)),
    }
}

/// A word as text, where it is UTF-8.
fn text_of(word: &[u8]) -> Option<&str>
    ensures { MatchOption result (IsUtf8 word.now → ⊥) (λ text. text.now ≡ word.now) }
{
    match str::from_utf8(word) {
        Ok(text) => Some(text),
        Err(_) => None,
    }
}

/// The identifier that a word spells.
#[tactic(auto, using(crate::proofs::Utf8::no_id))]
fn read_id(word: &[u8]) -> Option<Id>
    ensures { MatchOption result (plain_number word.now ≡ None) (λ id. SpellsId id word.now) }
{
    match text_of(word) {
        Some(text) => Id::read_plain(text).ok(),
        None => None,
    }
}

/// The phases that a word spells.
#[tactic(auto, using(crate::proofs::Utf8::no_phases))]
fn read_phases(word: &[u8]) -> Option<PhaseSet>
    ensures found { IfSome result (λ set. word.now ≡ phase_text set) }
    ensures none { IfNone result ((set : PhaseSet) → word.now ≡ phase_text set → ⊥) }
{
    match text_of(word) {
        Some(text) => PhaseSet::read_text(text).ok(),
        None => None,
    }
}

/// The number that a word spells in decimal, without leading zeros, up to the greatest one that it may be. Any other word is none.
pub fn read_number(word: &[u8], most: u64) -> Option<u64>
    ensures found { IfSome result (λ number. SpellsNumber most number word.now) }
    ensures none { IfNone result ((number : ℕ) → SpellsNumber most number word.now → ⊥) }
{
    if is_padded(word) {
        return None;
    }
    let number = parsed(word)?;
    if number <= most { Some(number) } else { None }
}

/// The number that a word without sign and leading zeros spells.
#[tactic(auto, using(crate::proofs::Utf8::no_number))]
fn parsed(word: &[u8]) -> Option<u64>
    requires { reading.is_padded word.now ≡ false }
    ensures found { IfSome result (λ number. word.now ≡ decimal number) }
    ensures only { (number : ℕ) → number < 2 ^ 64 → word.now ≡ decimal number → result ≡ Some number }
{
    match text_of(word) {
        Some(text) => parsed_text(text),
        None => None,
    }
}

/// The same of a text.
fn parsed_text(text: &str) -> Option<u64>
    requires { reading.is_padded text.now ≡ false }
    ensures found { IfSome result (λ number. text.now ≡ decimal number) }
    ensures only { (number : ℕ) → number < 2 ^ 64 → text.now ≡ decimal number → result ≡ Some number }
{
    match text.parse::<u64>() {
        Ok(number) => Some(number),
        Err(_) => None,
    }
}

/// Whether a word begins with a plus, or with a zero that is not all of it.
fn is_padded(word: &[u8]) -> bool
    ensures { result ≡ reading.is_padded word.now }
{
    match word {
        [b'+', ..] => true,
        [b'0', _, ..] => true,
        _ => false,
    }
}

/// The place that a word spells: `n:` and a node, or `s:`, an item, and `:1` or `:2`.
fn read_anchor(word: &[u8]) -> Option<Anchor>
    ensures found { IfSome result (λ at. SpellsAnchor at word.now) }
    ensures none { IfNone result ((at : Anchor) → SpellsAnchor at word.now → ⊥) }
{
    if let Some(node) = behind(b"n:", word) {
        return Some(Anchor::Node(read_id(node)?));
    }
    let side = behind(b"s:", word)?;
    if let Some(item) = before(b":1", side) {
        return Some(Anchor::Side(read_id(item)?, 1));
    }
    let item = before(b":2", side)?;
    Some(Anchor::Side(read_id(item)?, 2))
}

/// What follows a mark at the front of a word.
fn behind<'a>(mark: &[u8], word: &'a [u8]) -> Option<&'a [u8]>
    ensures found { IfSome result (λ rest. word.now ≡ mark.now ++ rest.now) }
    ensures only { (rest : List ℕ) → word.now ≡ mark.now ++ rest → IsSomeAnd result (λ found. found.now ≡ rest) }
{
    word.strip_prefix(mark)
}

/// What stands before a mark at the end of a word.
fn before<'a>(mark: &[u8], word: &'a [u8]) -> Option<&'a [u8]>
    ensures found { IfSome result (λ front. word.now ≡ front.now ++ mark.now) }
    ensures only { (front : List ℕ) → word.now ≡ front ++ mark.now → IsSomeAnd result (λ found. found.now ≡ front) }
{
    word.strip_suffix(mark)
}

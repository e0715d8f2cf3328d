//! The texts of sets of phases.

ghost use Rattle.std.specs.Prelude.{◌≡◌, ◌↔◌, ◌++◌, [], ◌∷◌, Ok, IsTrue, IfOk, OnOk, OnErr, length, take};
ghost use Rattle.cim_words.specs.PhaseParts.{StripsLetter, StripsSecondaries, IsWhole};
ghost use Rattle.cim_words.specs.Phases.{phase_text, text_if, secondary_text};

use crate::{NoMemory, PhaseSet};
use thiserror::Error;

/// A text that spells no set of phases.
#[derive(Clone, Copy, Debug, PartialEq, Eq, Error)]
#[error("not a set of phases")]
pub struct BadPhase;

impl PhaseSet {
    /// Reads the text that `write_text` writes, and no other.
    pub fn read_text(text: &str) -> Result<PhaseSet, BadPhase>
        ensures read { IfOk result (λ set. text.now ≡ phase_text set) }
        ensures only { (set : PhaseSet) → text.now ≡ phase_text set → result ≡ Ok set }
    {
        let (a, rest) = strip_letter(text.as_bytes(), b'A');
        let (b, rest) = strip_letter(rest, b'B');
        let (c, rest) = strip_letter(rest, b'C');
        let (s1, s2, rest) = strip_secondaries(rest);
        let (n, rest) = strip_letter(rest, b'N');
        let (dash, rest) = strip_letter(rest, b'-');
        let set = PhaseSet { a, b, c, n, s1, s2 };
        if is_whole(set, dash, rest) {
            Ok(set)
        } else {
            Err(BadPhase)
        }
    }

    /// Appends the letters of its phases among A, B and C, then `s1`, `s2` or `s12`, then `N`; for the empty set `-`.
    /// After want of memory nothing is appended.
    pub fn write_text(self, into: &mut Vec<u8>) -> Result<(), NoMemory>
        ensures ok { OnOk result (into.new.items ≡ into.old.items ++ phase_text self) }
        ensures err { OnErr result (into.new.items ≡ into.old.items) }
    {
        let before = into.len();
        let written = append_text(self, into);
        if written.is_err() {
            into.truncate(before);
        }
        written
    }
}

// Appends the text of a set, or a part of it.
fn append_text(set: PhaseSet, into: &mut Vec<u8>) -> Result<(), NoMemory>
    ensures ok { OnOk result (into.new.items ≡ into.old.items ++ phase_text set) }
    ensures err { OnErr result (take (length into.old.items) into.new.items ≡ into.old.items) }
{
    append_if(set.a, b"A", into)?;
    append_if(set.b, b"B", into)?;
    append_if(set.c, b"C", into)?;
    into.extend_from_slice(secondaries(set))?;
    append_if(set.n, b"N", into)?;
    append_if(set.is_empty(), b"-", into)
}

// Appends a part of a text where it is wanted.
fn append_if(wanted: bool, part: &[u8], into: &mut Vec<u8>) -> Result<(), NoMemory>
    ensures ok { OnOk result (into.new.items ≡ into.old.items ++ text_if wanted part.now) }
    ensures err { OnErr result (into.new.items ≡ into.old.items) }
{
    if wanted {
        into.extend_from_slice(part)
    } else {
        Ok(())
    }
}

// The secondary phases of a set as text.
fn secondaries(set: PhaseSet) -> &'static [u8]
    ensures { result.now ≡ secondary_text set.s1 set.s2 }
{
    match (set.s1, set.s2) {
        (true, true) => b"s12",
        (true, false) => b"s1",
        (false, true) => b"s2",
        (false, false) => b"",
    }
}

// Whether a text begins with this letter, and what follows it.
fn strip_letter(text: &[u8], letter: u8) -> (bool, &[u8])
    ensures { StripsLetter letter text.now result.0 result.1.now }
{
    match text {
        [first, rest @ ..] if *first == letter => (true, rest),
        _ => (false, text),
    }
}

// The secondary phases that a text begins with, and what follows them.
fn strip_secondaries(text: &[u8]) -> (bool, bool, &[u8])
    ensures { StripsSecondaries text.now result.0 result.1 result.2.now }
{
    match text {
        [b's', b'1', b'2', rest @ ..] => (true, true, rest),
        [b's', b'1', rest @ ..] => (true, false, rest),
        [b's', b'2', rest @ ..] => (false, true, rest),
        _ => (false, false, text),
    }
}

// Whether nothing is left of a text, and a dash stands in it exactly where the set is empty.
fn is_whole(set: PhaseSet, dash: bool, rest: &[u8]) -> bool
    ensures { IsTrue result ↔ IsWhole set dash rest.now }
{
    rest.is_empty() && dash == set.is_empty()
}

//! The words by which refusals and faults are told.

ghost use Rattle.std.specs.Prelude.{◌≡◌, ◌+◌, ◌≤◌, ◌++◌, [], ◌∷◌, length, take, OnOk, OnErr};
ghost use Rattle.std.specs.Fmt.{decimal};
ghost use Rattle.cim_words.specs.IdText.{id_text};
ghost use Rattle.wire.specs.Replies.{act_words, diff_words, fault_words, stage_word, why_words};
ghost use Rattle.wire.specs.Room.{Fits};
ghost use Rattle.wire.specs.Words.{spaced};

use crate::written_words::{write_id, write_number, write_word};
use cim_words::{Id, NoMemory};
use room_words::{ActRefusal, DiffRefusal, Fault, StageWord, Why};

/// Appends the words of a refusal of an event, each after a space, or a part of that.
pub(crate) fn write_why(why: &Why, into: &mut Vec<u8>) -> Result<(), NoMemory>
    ensures ok { OnOk result (into.new.items ≡ into.old.items ++ spaced (why_words why.now)) }
    ensures err { OnErr result (take (length into.old.items) into.new.items ≡ into.old.items) }
    ensures room { Fits 70 into.old into.new result }
{
    match *why {
        Why::Act(refusal) => write_act_refusal(refusal, into),
        Why::Diff(refusal) => write_diff_refusal(refusal, into),
        Why::Log(full) => write_numbers("LogFull", u64::from(full.entries), full.bytes, into),
    }
}

/// Appends the words of a refusal of an act.
fn write_act_refusal(refusal: ActRefusal, into: &mut Vec<u8>) -> Result<(), NoMemory>
    ensures ok { OnOk result (into.new.items ≡ into.old.items ++ spaced (act_words refusal)) }
    ensures err { OnErr result (take (length into.old.items) into.new.items ≡ into.old.items) }
    ensures room { Fits 50 into.old into.new result }
{
    match refusal {
        ActRefusal::Unknown(id) => write_named("Unknown", id, into),
        ActRefusal::Taken(id) => write_named("Taken", id, into),
        ActRefusal::Kind(id) => write_named("Kind", id, into),
        ActRefusal::Permanent(id) => write_named("Permanent", id, into),
        ActRefusal::Already => write_word(b"Already", into),
        ActRefusal::NotHeld => write_word(b"NotHeld", into),
        ActRefusal::Length => write_word(b"Length", into),
        ActRefusal::SamePlace(id) => write_named("SamePlace", id, into),
        ActRefusal::NoAnchor(place) => write_counted("NoAnchor", u64::from(place), into),
        ActRefusal::SameAnchor => write_word(b"SameAnchor", into),
        ActRefusal::Phases => write_word(b"Phases", into),
        ActRefusal::Crowded(id) => write_named("Crowded", id, into),
        ActRefusal::InUse(id) => write_named("InUse", id, into),
        ActRefusal::Full => write_word(b"Full", into),
    }
}

/// Appends the words of a refusal of a difference.
fn write_diff_refusal(refusal: DiffRefusal, into: &mut Vec<u8>) -> Result<(), NoMemory>
    ensures ok { OnOk result (into.new.items ≡ into.old.items ++ spaced (diff_words refusal)) }
    ensures err { OnErr result (take (length into.old.items) into.new.items ≡ into.old.items) }
    ensures room { Fits 70 into.old into.new result }
{
    match refusal {
        DiffRefusal::Precondition(place) => {
            write_counted("Precondition", u64::from(place), into)
        }
        DiffRefusal::Reverse(place) => write_counted("Reverse", u64::from(place), into),
        DiffRefusal::TooMany(count) => write_counted("TooMany", count, into),
        DiffRefusal::Profile(rule, subject) => {
            write_counted("Profile", u64::from(rule), into)?;
            write_id(subject, into)
        }
        DiffRefusal::Place(id) => write_named("Place", id, into),
    }
}

/// Appends the words of a fault, each after a space, or a part of that.
pub(crate) fn write_fault(fault: Fault, into: &mut Vec<u8>) -> Result<(), NoMemory>
    ensures ok { OnOk result (into.new.items ≡ into.old.items ++ spaced (fault_words fault)) }
    ensures err { OnErr result (take (length into.old.items) into.new.items ≡ into.old.items) }
    ensures room { Fits 40 into.old into.new result }
{
    match fault {
        Fault::Word => write_word(b"Word", into),
        Fault::Count => write_word(b"Count", into),
        Fault::Field(place) => write_counted("Field", u64::from(place), into),
        Fault::Staged => write_word(b"Staged", into),
        Fault::Prefix => write_word(b"Prefix", into),
        Fault::Console => write_word(b"Console", into),
        Fault::Long => write_word(b"Long", into),
        Fault::Stage(bad) => {
            write_counted("Stage", u64::from(bad.line), into)?;
            write_word(name_of(bad.word).as_bytes(), into)
        }
    }
}

/// The name of what is wrong with a staged document.
fn name_of(word: StageWord) -> &'static str
    ensures text { result.now ≡ stage_word word }
    ensures short { length result.now ≤ 11 }
{
    match word {
        StageWord::TooLong => "TooLong",
        StageWord::LineTooLong => "LineTooLong",
        StageWord::Utf8 => "Utf8",
        StageWord::Blank => "Blank",
        StageWord::Syntax => "Syntax",
        StageWord::Subject => "Subject",
        StageWord::Wide => "Wide",
        StageWord::Heading => "Heading",
        StageWord::TooMany => "TooMany",
        StageWord::NoEnd => "NoEnd",
    }
}

/// Appends a name and an identifier, each after a space, or a part of that.
fn write_named(name: &str, id: Id, into: &mut Vec<u8>) -> Result<(), NoMemory>
    ensures ok { OnOk result (into.new.items ≡ into.old.items ++ spaced (name.now ∷ id_text id.number ∷ [])) }
    ensures err { OnErr result (take (length into.old.items) into.new.items ≡ into.old.items) }
    ensures room { Fits (length name.now + 38) into.old into.new result }
{
    write_word(name.as_bytes(), into)?;
    write_id(id, into)
}

/// Appends a name and a number, each after a space, or a part of that.
fn write_counted(name: &str, number: u64, into: &mut Vec<u8>) -> Result<(), NoMemory>
    ensures ok { OnOk result (into.new.items ≡ into.old.items ++ spaced (name.now ∷ decimal number ∷ [])) }
    ensures err { OnErr result (take (length into.old.items) into.new.items ≡ into.old.items) }
    ensures room { Fits (length name.now + 22) into.old into.new result }
{
    write_word(name.as_bytes(), into)?;
    write_number(number, into)
}

/// Appends a name and two numbers, each after a space, or a part of that.
fn write_numbers(name: &str, one: u64, other: u64, into: &mut Vec<u8>) -> Result<(), NoMemory>
    ensures ok { OnOk result (into.new.items ≡ into.old.items ++ spaced (name.now ∷ decimal one ∷ decimal other ∷ [])) }
    ensures err { OnErr result (take (length into.old.items) into.new.items ≡ into.old.items) }
    ensures room { Fits (length name.now + 43) into.old into.new result }
{
    write_counted(name, one, into)?;
    write_number(other, into)
}

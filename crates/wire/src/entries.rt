//! Entries of a history, written.

ghost use Rattle.std.specs.Prelude.{◌≡◌, ◌++◌, ◌∷◌, [], map, length, take, codes, OnOk, OnErr};
ghost use Rattle.std.specs.Fmt.{decimal};
ghost use Rattle.wire.specs.Entries.{entry_text, event_text, place_text};
ghost use Rattle.wire.specs.Requests.{act_text, request_word};
ghost use Rattle.wire.specs.Values.{anchor_text, value_text, named, long, anchored, phased};
ghost use Rattle.wire.specs.Words.{space, spaced, words_text};

use crate::request_word::RequestWord;
use crate::written_words::{write_id, write_number};
use cim_words::{Id, Length, NoMemory, PhaseSet};
use difference::write;
use room_words::{Act, Anchor, Entry, Event};

/// Appends the text of the entry with this number in the history. After want of memory nothing is appended.
pub fn write_entry(number: u32, entry: &Entry, into: &mut Vec<u8>) -> Result<(), NoMemory>
    ensures ok { OnOk result (into.new.items ≡ into.old.items ++ entry_text number entry.now) }
    ensures err { OnErr result (into.new.items ≡ into.old.items) }
{
    let before = into.len();
    let written = write_parts(number, entry, into);
    if written.is_err() {
        into.truncate(before);
    }
    written
}

/// Appends the text of an entry, or a part of it.
fn write_parts(number: u32, entry: &Entry, into: &mut Vec<u8>) -> Result<(), NoMemory>
    ensures ok { OnOk result (into.new.items ≡ into.old.items ++ entry_text number entry.now) }
    ensures err { OnErr result (take (length into.old.items) into.new.items ≡ into.old.items) }
{
    write_place(number, entry, into)?;
    write_event(&entry.event, into)
}

/// Appends the number of an entry, its console and its serial, each with a space after it, or a part of that.
fn write_place(number: u32, entry: &Entry, into: &mut Vec<u8>) -> Result<(), NoMemory>
    ensures ok { OnOk result (into.new.items ≡ into.old.items ++ place_text number entry.now) }
    ensures err { OnErr result (take (length into.old.items) into.new.items ≡ into.old.items) }
{
    write_head(number, entry.console, into)?;
    write_number(u64::from(entry.serial), into)?;
    into.push(b' ')?;
    Ok(())
}

/// Appends the number of an entry, a space, `c` and a console, or a part of that.
fn write_head(number: u32, console: u8, into: &mut Vec<u8>) -> Result<(), NoMemory>
    ensures ok { OnOk result (into.new.items ≡ into.old.items ++ (decimal number ++ codes " c" ++ decimal console)) }
    ensures err { OnErr result (take (length into.old.items) into.new.items ≡ into.old.items) }
{
    let alloc = *into.allocator();
    into.extend_from_slice(number.to_string(alloc)?.as_bytes())?;
    into.extend_from_slice(b" c")?;
    into.extend_from_slice(console.to_string(alloc)?.as_bytes())?;
    Ok(())
}

/// Appends the text of an event, or a part of it.
fn write_event(event: &Event, into: &mut Vec<u8>) -> Result<(), NoMemory>
    ensures ok { OnOk result (into.new.items ≡ into.old.items ++ event_text event.now) }
    ensures err { OnErr result (take (length into.old.items) into.new.items ≡ into.old.items) }
{
    match event {
        Event::Act(act) => {
            write_act(act, into)?;
            into.push(b'\n')?;
            Ok(())
        }
        Event::Cutover(difference) => {
            into.extend_from_slice(b"cutover\n")?;
            write(difference.difference(), into)
        }
    }
}

/// Appends an act as a request, or a part of it.
fn write_act(act: &Act, into: &mut Vec<u8>) -> Result<(), NoMemory>
    ensures ok { OnOk result (into.new.items ≡ into.old.items ++ act_text act.now) }
    ensures err { OnErr result (take (length into.old.items) into.new.items ≡ into.old.items) }
{
    match *act {
        Act::OpenSwitch(id) => write_first(RequestWord::Open, id, into),
        Act::CloseSwitch(id) => write_first(RequestWord::Close, id, into),
        Act::Release(id) => write_first(RequestWord::Release, id, into),
        Act::Remove(id) => write_first(RequestWord::Remove, id, into),
        Act::Cut {
            new_id,
            segment,
            length,
        } => {
            write_first(RequestWord::Cut, new_id, into)?;
            write_mark(segment, length, into)
        }
        Act::Clamp {
            new_id,
            segment,
            length,
        } => {
            write_first(RequestWord::Clamp, new_id, into)?;
            write_mark(segment, length, into)
        }
        Act::Jumper {
            new_id,
            first,
            second,
            phases,
        } => {
            write_first(RequestWord::Jumper, new_id, into)?;
            write_anchor(first, into)?;
            write_anchored(second, phases, into)
        }
        Act::Ground { new_id, at, phases } => {
            write_first(RequestWord::Ground, new_id, into)?;
            write_anchored(at, phases, into)
        }
    }
}

/// Appends the word of a request and its first field, an identifier, or a part of that.
fn write_first(word: RequestWord, id: Id, into: &mut Vec<u8>) -> Result<(), NoMemory>
    ensures ok { OnOk result (into.new.items ≡ into.old.items ++ words_text (request_word word) (map value_text (named id ∷ []))) }
    ensures err { OnErr result (take (length into.old.items) into.new.items ≡ into.old.items) }
{
    into.extend_from_slice(word.word().as_bytes())?;
    write_id(id, into)
}

/// Appends the segment and the length of a mark, each after a space, or a part of that.
fn write_mark(segment: Id, far: Length, into: &mut Vec<u8>) -> Result<(), NoMemory>
    ensures ok { OnOk result (into.new.items ≡ into.old.items ++ spaced (map value_text (named segment ∷ long far ∷ []))) }
    ensures err { OnErr result (take (length into.old.items) into.new.items ≡ into.old.items) }
{
    write_id(segment, into)?;
    write_number(far.mm, into)
}

/// Appends a place and phases, each after a space, or a part of that.
fn write_anchored(at: Anchor, phases: PhaseSet, into: &mut Vec<u8>) -> Result<(), NoMemory>
    ensures ok { OnOk result (into.new.items ≡ into.old.items ++ spaced (map value_text (anchored at ∷ phased phases ∷ []))) }
    ensures err { OnErr result (take (length into.old.items) into.new.items ≡ into.old.items) }
{
    write_anchor(at, into)?;
    into.push(b' ')?;
    phases.write_text(into)
}

/// Appends a space and a place, or a part of that.
fn write_anchor(at: Anchor, into: &mut Vec<u8>) -> Result<(), NoMemory>
    ensures ok { OnOk result (into.new.items ≡ into.old.items ++ space ∷ anchor_text at) }
    ensures err { OnErr result (take (length into.old.items) into.new.items ≡ into.old.items) }
{
    match at {
        Anchor::Node(id) => {
            into.extend_from_slice(b" n:")?;
            into.extend_from_slice(&id.text())?;
            Ok(())
        }
        Anchor::Side(id, side) => write_side(id, side, into),
    }
}

/// Appends a space and a side of an item, or a part of that.
fn write_side(id: Id, side: u8, into: &mut Vec<u8>) -> Result<(), NoMemory>
    ensures ok { OnOk result (into.new.items ≡ into.old.items ++ space ∷ anchor_text (Anchor.Side id side)) }
    ensures err { OnErr result (take (length into.old.items) into.new.items ≡ into.old.items) }
{
    let alloc = *into.allocator();
    into.extend_from_slice(b" s:")?;
    into.extend_from_slice(&id.text())?;
    into.push(b':')?;
    into.extend_from_slice(side.to_string(alloc)?.as_bytes())?;
    Ok(())
}

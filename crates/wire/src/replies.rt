//! Replies, written.

ghost use Rattle.std.specs.Prelude.{◌≡◌, ◌+◌, ◌≤◌, ◌++◌, [], ◌∷◌, length, take, codes, vec_capacity, vec_len, IfOk, IsOk, OnOk, OnErr};
ghost use Rattle.std.specs.Fmt.{decimal};
ghost use Rattle.room_words.specs.TraceText.{trace_text};
ghost use Rattle.wire.specs.Replies.{IsBrief, fault_words, reply_room, reply_text, why_words};
ghost use Rattle.wire.specs.Room.{Fits};
ghost use Rattle.wire.specs.Words.{spaced, words_line};

use crate::refusal_words::{write_fault, write_why};
use crate::written_words::{write_number, write_word};
use cim_words::NoMemory;
use room_words::{Fault, Refused, Reply, TraceRows, write_trace_head, write_trace_row};
use std::alloc::Global;

/// How many bytes of room suffice for every reply of one line: all but a trace.
pub const REPLY_ROOM: usize = 128;

/// Appends the text of a reply. After want of memory nothing is appended. A reply of one line needs none where there is room for
/// `REPLY_ROOM` bytes.
pub fn write_reply(reply: &Reply, into: &mut Vec<u8>) -> Result<(), NoMemory>
    ensures ok { OnOk result (into.new.items ≡ into.old.items ++ reply_text reply.now) }
    ensures err { OnErr result (into.new.items ≡ into.old.items) }

    // A reply of one line needs no memory where there is room for it, and what room there is stays.
    ensures fits { IsBrief reply.now → vec_len into.old + reply_room ≤ vec_capacity into.old → IsOk result }
    ensures capacity { vec_capacity into.old ≤ vec_capacity into.new }
{
    let before = into.len();
    let written = write_any(reply, into);
    if written.is_err() {
        into.truncate(before);
    }
    written
}

/// Appends the text of a reply, or a part of it.
fn write_any(reply: &Reply, into: &mut Vec<u8>) -> Result<(), NoMemory>
    ensures ok { OnOk result (into.new.items ≡ into.old.items ++ reply_text reply.now) }
    ensures err { OnErr result (take (length into.old.items) into.new.items ≡ into.old.items) }
    ensures capacity { vec_capacity into.old ≤ vec_capacity into.new }
    ensures brief { IsBrief reply.now → Fits reply_room into.old into.new result }
{
    match reply {
        Reply::Ok(number) => write_counted(b"ok", *number, into),
        Reply::No(refused) => write_no(refused, into),
        Reply::NoSuch(at) => write_no_such(*at, into),
        Reply::Seen(at) => write_counted(b"seen", *at, into),
        Reply::Trace { at, rows } => write_trace(*at, rows, into),
        Reply::Staged { pre, rev, fwd } => write_staged(*pre, *rev, *fwd, into),
        Reply::Fault(fault) => write_fault_line(*fault, into),
        Reply::Memory => into.extend_from_slice(b"memory\n"),
        Reply::Bye => into.extend_from_slice(b"bye\n"),
    }
}

/// Appends the line of a word and a number, or a part of it.
fn write_counted(word: &[u8], number: u32, into: &mut Vec<u8>) -> Result<(), NoMemory>
    ensures ok { OnOk result (into.new.items ≡ into.old.items ++ words_line word.now (decimal number ∷ [])) }
    ensures err { OnErr result (take (length into.old.items) into.new.items ≡ into.old.items) }
    ensures room { Fits (length word.now + 22) into.old into.new result }
{
    into.extend_from_slice(word)?;
    write_number(u64::from(number), into)?;
    into.push(b'\n')?;
    Ok(())
}

/// Appends the line of a refused event, or a part of it.
fn write_no(refused: &Refused, into: &mut Vec<u8>) -> Result<(), NoMemory>
    ensures ok { OnOk result (into.new.items ≡ into.old.items ++ words_line (codes "no") (decimal refused.now.at ∷ why_words refused.now.why)) }
    ensures err { OnErr result (take (length into.old.items) into.new.items ≡ into.old.items) }
    ensures room { Fits 100 into.old into.new result }
{
    into.extend_from_slice(b"no")?;
    write_number(u64::from(refused.at), into)?;
    write_why(&refused.why, into)?;
    into.push(b'\n')?;
    Ok(())
}

/// Appends the line of a trace of what is not there, or a part of it.
fn write_no_such(at: u32, into: &mut Vec<u8>) -> Result<(), NoMemory>
    ensures ok { OnOk result (into.new.items ≡ into.old.items ++ words_line (codes "no") (decimal at ∷ codes "NoSuch" ∷ [])) }
    ensures err { OnErr result (take (length into.old.items) into.new.items ≡ into.old.items) }
    ensures room { Fits 40 into.old into.new result }
{
    into.extend_from_slice(b"no")?;
    write_number(u64::from(at), into)?;
    write_word(b"NoSuch", into)?;
    into.push(b'\n')?;
    Ok(())
}

/// Appends the line of a difference that was read, or a part of it.
fn write_staged(pre: u32, rev: u32, fwd: u32, into: &mut Vec<u8>) -> Result<(), NoMemory>
    ensures ok { OnOk result (into.new.items ≡ into.old.items ++ words_line (codes "staged") (decimal pre ∷ decimal rev ∷ decimal fwd ∷ [])) }
    ensures err { OnErr result (take (length into.old.items) into.new.items ≡ into.old.items) }
    ensures room { Fits 80 into.old into.new result }
{
    into.extend_from_slice(b"staged")?;
    write_numbers(pre, rev, fwd, into)?;
    into.push(b'\n')?;
    Ok(())
}

/// Appends three numbers in decimal, each after a space, or a part of that.
fn write_numbers(first: u32, second: u32, third: u32, into: &mut Vec<u8>) -> Result<(), NoMemory>
    ensures ok { OnOk result (into.new.items ≡ into.old.items ++ spaced (decimal first ∷ decimal second ∷ decimal third ∷ [])) }
    ensures err { OnErr result (take (length into.old.items) into.new.items ≡ into.old.items) }
    ensures room { Fits 63 into.old into.new result }
{
    write_number(u64::from(first), into)?;
    write_number(u64::from(second), into)?;
    write_number(u64::from(third), into)
}

/// Appends the line of a fault, or a part of it.
fn write_fault_line(fault: Fault, into: &mut Vec<u8>) -> Result<(), NoMemory>
    ensures ok { OnOk result (into.new.items ≡ into.old.items ++ words_line (codes "fault") (fault_words fault)) }
    ensures err { OnErr result (take (length into.old.items) into.new.items ≡ into.old.items) }
    ensures room { Fits 50 into.old into.new result }
{
    into.extend_from_slice(b"fault")?;
    write_fault(fault, into)?;
    into.push(b'\n')?;
    Ok(())
}

/// Appends the lines of a trace, or nothing.
fn write_trace(at: u32, rows: &TraceRows, into: &mut Vec<u8>) -> Result<(), NoMemory>
    ensures ok { OnOk result (into.new.items ≡ into.old.items ++ trace_text at rows.now) }
    ensures err { OnErr result (into.new.items ≡ into.old.items) }
    ensures capacity { vec_capacity into.old ≤ vec_capacity into.new }
{
    let text = trace_lines(*into.allocator(), at, rows)?;
    into.extend_from_slice(&text)
}

/// The lines of a trace.
#[tactic(auto, unfolding(room_words::specs::TraceText::trace_text))]
fn trace_lines(alloc: Global, at: u32, rows: &TraceRows) -> Result<Vec<u8>, NoMemory>
    ensures { IfOk result (λ text. text.items ≡ trace_text at rows.now) }
{
    let mut text = Vec::new(alloc);
    write_trace_head(at, rows.len(), &mut text)?;
    for row in rows.as_slice() {
        write_trace_row(*row, &mut text)?;
    }
    Ok(text)
}

//! A difference, written.

ghost use Rattle.std.specs.Prelude.{◌≡◌, ◌++◌, length, take, OnOk, OnErr};
ghost use Rattle.difference.specs.Document.{IsDocument};
ghost use Rattle.room_words.specs.Differences.{Changes, IsDifference, written_difference, written_under};

use cim_words::{NoMemory, Statement};
use nt_text::{lines_are_cut_apart, lines_are_whole, write_statement, written_lines_are_read};
use room_words::{Difference, Heading};

/// Appends the written form of a difference: all five headings, and the statements under the first four, each on a line.
///
/// After want of memory nothing is appended.
pub fn write(difference: &Difference, into: &mut Vec<u8>) -> Result<(), NoMemory>
    ensures ok { OnOk result (into.new.items ≡ into.old.items ++ written_difference difference.now) }
    ensures err { OnErr result (into.new.items ≡ into.old.items) }
{
    let before = into.len();
    let written = write_parts(difference, into);
    if written.is_err() {
        into.truncate(before);
    }
    written
}

/// Appends the written form of a difference, or a part of it.
#[tactic(auto, unfolding(room_words::specs::Differences::written_difference))]
fn write_parts(difference: &Difference, into: &mut Vec<u8>) -> Result<(), NoMemory>
    ensures ok { OnOk result (into.new.items ≡ into.old.items ++ written_difference difference.now) }
    ensures err { OnErr result (take (length into.old.items) into.new.items ≡ into.old.items) }
{
    write_under(Heading::Header, difference.header().as_slice(), into)?;
    write_under(Heading::Preconditions, difference.pre().as_slice(), into)?;
    write_under(Heading::Reverse, difference.rev().as_slice(), into)?;
    write_under(Heading::Forward, difference.fwd().as_slice(), into)?;
    write_under(Heading::End, &[], into)?;
    Ok(())
}

/// Appends a heading and the statements under it, each on a line, or a part of that.
fn write_under(
    heading: Heading,
    statements: &[Statement],
    into: &mut Vec<u8>,
) -> Result<(), NoMemory>
    ensures ok { OnOk result (into.new.items ≡ into.old.items ++ written_under heading statements.now) }
    ensures err { OnErr result (take (length into.old.items) into.new.items ≡ into.old.items) }
{
    into.extend_from_slice(heading.text().as_bytes())?;
    into.push(b'\n')?;
    for statement in statements {
        write_statement(statement, into)?;
    }
    Ok(())
}

/// What is written is a document, and says that difference.
pub fn written_differences_are_read()
    ensures { (d : Changes) → IsDifference d → IsDocument (written_difference d) d }
{
    lines_are_cut_apart();
    lines_are_whole();
    written_lines_are_read();
}

//! Words that are written after others, each after a space.

ghost use Rattle.std.specs.Prelude.{◌≡◌, ◌+◌, ◌++◌, ◌∷◌, length, take, OnOk, OnErr};
ghost use Rattle.std.specs.Fmt.{decimal};
ghost use Rattle.cim_words.specs.IdText.{id_text};
ghost use Rattle.wire.specs.Room.{Fits};
ghost use Rattle.wire.specs.Words.{space};

use cim_words::{Id, NoMemory};
use itoa::Buffer;

/// Appends a space and a word, or a part of that.
pub(crate) fn write_word(word: &[u8], into: &mut Vec<u8>) -> Result<(), NoMemory>
    ensures ok { OnOk result (into.new.items ≡ into.old.items ++ space ∷ word.now) }
    ensures err { OnErr result (take (length into.old.items) into.new.items ≡ into.old.items) }
    ensures room { Fits (length word.now + 1) into.old into.new result }
{
    into.push(b' ')?;
    into.extend_from_slice(word)?;
    Ok(())
}

/// Appends a space and a number in decimal, or a part of that.
pub(crate) fn write_number(number: u64, into: &mut Vec<u8>) -> Result<(), NoMemory>
    ensures ok { OnOk result (into.new.items ≡ into.old.items ++ space ∷ decimal number) }
    ensures err { OnErr result (take (length into.old.items) into.new.items ≡ into.old.items) }
    ensures room { Fits 21 into.old into.new result }
{
    write_word(Buffer::new().format(number).as_bytes(), into)
}

/// Appends a space and an identifier in lower case, or a part of that.
pub(crate) fn write_id(id: Id, into: &mut Vec<u8>) -> Result<(), NoMemory>
    ensures ok { OnOk result (into.new.items ≡ into.old.items ++ space ∷ id_text id.number) }
    ensures err { OnErr result (take (length into.old.items) into.new.items ≡ into.old.items) }
    ensures room { Fits 37 into.old into.new result }
{
    write_word(&id.text(), into)
}

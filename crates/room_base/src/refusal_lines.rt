//! The lines by which refusals are told.

ghost use Rattle.std.specs.Prelude.{◌≡◌, ◌≢◌, IfOk, OnErr};
ghost use Rattle.room_base.specs.RefusalLine.{line_bytes};
ghost use Rattle.room_base.specs.Status.{base_line, document_line, line_of, profile_line};

use crate::refusal::{BaseRefusal, Refusal, TaskRefusal};
use cim_words::{Id, NoMemory};
use nt_text::LineRefusal;
use std::alloc::Global;

/// A line that tells of a refusal.
#[derive(Drop)]
pub enum RefusalLine {
    /// The same at each time.
    Fixed(&'static str),
    /// One with numbers and words of its own.
    Made(Vec<u8>),
}

impl RefusalLine {
    /// The line's bytes.
    pub fn as_bytes(&self) -> &[u8]
        ensures { result.now ≡ line_bytes self.now }
    {
        match self {
            RefusalLine::Fixed(text) => text.as_bytes(),
            RefusalLine::Made(bytes) => bytes,
        }
    }
}

/// The line that tells of a refusal. Memory may not suffice for it; the line of a fault of reading takes none.
pub fn refusal_line(alloc: Global, refusal: Refusal) -> Result<RefusalLine, NoMemory>
    ensures line { IfOk result (λ line. line_bytes line ≡ line_of refusal) }
    ensures needy { OnErr result (refusal ≢ Refusal.ReadFault) }
{
    match refusal {
        Refusal::Usage => Ok(RefusalLine::Fixed("usage\n")),
        Refusal::Doors => Ok(RefusalLine::Fixed("doors\n")),
        Refusal::ReadFault => Ok(RefusalLine::Fixed("read fault\n")),
        Refusal::Base(why) => base_line(alloc, why),
        Refusal::Task(TaskRefusal::Asked) => Ok(RefusalLine::Fixed("asked\n")),
    }
}

/// The line that tells why bytes are no base.
fn base_line(alloc: Global, refusal: BaseRefusal) -> Result<RefusalLine, NoMemory>
    ensures { IfOk result (λ line. line_bytes line ≡ base_line refusal) }
{
    match refusal {
        BaseRefusal::Limit => Ok(RefusalLine::Fixed("limit\n")),
        BaseRefusal::Document { line, why } => Ok(RefusalLine::Made(bad_line(alloc, line, why)?)),
        BaseRefusal::Profile { rule, subject } => Ok(RefusalLine::Made(broken_rule(
            alloc, rule, subject,
        )?)),
    }
}

/// The line that tells of a bad line.
fn bad_line(alloc: Global, line: u32, why: LineRefusal) -> Result<Vec<u8>, NoMemory>
    ensures { IfOk result (λ text. text.items ≡ document_line line why) }
{
    let mut text = Vec::from_slice(alloc, b"document ")?;
    text.extend_from_slice(line.to_string(alloc)?.as_bytes())?;
    text.push(b' ')?;
    text.extend_from_slice(why.word().as_bytes())?;
    text.push(b'\n')?;
    Ok(text)
}

/// The line that tells of a broken rule.
fn broken_rule(alloc: Global, rule: u8, subject: Id) -> Result<Vec<u8>, NoMemory>
    ensures { IfOk result (λ text. text.items ≡ profile_line rule subject.number) }
{
    let mut text = Vec::from_slice(alloc, b"profile ")?;
    text.extend_from_slice(rule.to_string(alloc)?.as_bytes())?;
    text.push(b' ')?;
    text.extend_from_slice(&subject.text())?;
    text.push(b'\n')?;
    Ok(text)
}

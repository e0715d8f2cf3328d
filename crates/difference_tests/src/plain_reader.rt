//! A plain program of the format: the lines one after another, and what each says.

use cim_words::{NoMemory, Statement};
use nt_text::{LineFault, LineRefusal, read_line, write_statement};
use room_words::{StageFault, StageWord};
use std::alloc::Global;
use std::mem;

const HEADINGS: [&str; 5] = ["%header", "%preconditions", "%reverse", "%forward", "%end"];

/// What stands in the four lists, and the number of the heading that came last, from 1 to 5, or 0.
#[derive(Drop)]
pub(crate) struct Plain {
    pub(crate) header: Vec<Statement>,
    pub(crate) pre: Vec<Statement>,
    pub(crate) rev: Vec<Statement>,
    pub(crate) fwd: Vec<Statement>,
    under: usize,
}

/// The lines of a text, which end at LF, at CR LF and at CR.
fn lines_of(alloc: Global, text: &[u8]) -> Result<Vec<Vec<u8>>, NoMemory> {
    let mut lines = Vec::new(alloc);
    let mut line = Vec::new(alloc);
    let mut before = b' ';
    for byte in text {
        let is_end = *byte == b'\r' || *byte == b'\n';
        if is_end && (before != b'\r' || *byte == b'\r') {
            lines.push(mem::replace(&mut line, Vec::new(alloc)))?;
        } else if !is_end {
            line.push(*byte)?;
        }
        before = *byte;
    }
    if !line.is_empty() {
        lines.push(line)?;
    }
    Ok(lines)
}

/// The number of the heading that a line is, from 1 to 5.
fn heading_of(line: &[u8]) -> Option<usize> {
    for (number, text) in HEADINGS.iter().enumerate() {
        if let Some(rest) = line.strip_prefix(text.as_bytes())
            && rest.iter().all(|byte| *byte == b' ' || *byte == b'\t')
        {
            return Some(number + 1);
        }
    }
    None
}

fn word_of(why: LineRefusal) -> StageWord {
    match why {
        LineRefusal::LineTooLong => StageWord::LineTooLong,
        LineRefusal::Utf8 => StageWord::Utf8,
        LineRefusal::Blank => StageWord::Blank,
        LineRefusal::Syntax => StageWord::Syntax,
        LineRefusal::Subject => StageWord::Subject,
        LineRefusal::Wide => StageWord::Wide,
    }
}

impl Plain {
    fn new(alloc: Global) -> Plain {
        Plain {
            header: Vec::new(alloc),
            pre: Vec::new(alloc),
            rev: Vec::new(alloc),
            fwd: Vec::new(alloc),
            under: 0,
        }
    }

    /// Puts a statement under the heading that came last, or tells what is wrong with that.
    fn add(&mut self, statement: Statement) -> Result<Option<StageWord>, NoMemory> {
        match self.under {
            1 => self.header.push(statement)?,
            2 => self.pre.push(statement)?,
            3 => self.rev.push(statement)?,
            4 => self.fwd.push(statement)?,
            _ => return Ok(Some(StageWord::Heading)),
        }
        Ok(None)
    }

    /// Looks at a line, and tells what is wrong with it.
    fn look(&mut self, alloc: Global, line: &[u8]) -> Result<Option<StageWord>, NoMemory> {
        if line.starts_with(b"%") {
            let Some(number) = heading_of(line).filter(|number| *number > self.under) else {
                return Ok(Some(StageWord::Heading));
            };
            self.under = number;
            return Ok(None);
        }
        match read_line(alloc, line) {
            Ok(Some(statement)) => self.add(statement),
            Ok(None) => Ok(None),
            Err(LineFault::Refusal(why)) => Ok(Some(word_of(why))),
            Err(LineFault::NoMemory) => Err(NoMemory),
        }
    }

    /// The text of what the lists hold.
    pub(crate) fn text(&self, alloc: Global) -> Result<Vec<u8>, NoMemory> {
        let mut text = Vec::new(alloc);
        let none = Vec::new(alloc);
        let lists = [&self.header, &self.pre, &self.rev, &self.fwd, &none];
        for (heading, list) in HEADINGS.iter().zip(&lists) {
            text.extend_from_slice(heading.as_bytes())?;
            text.push(b'\n')?;
            append(&mut text, list)?;
        }
        Ok(text)
    }
}

fn append(text: &mut Vec<u8>, list: &[Statement]) -> Result<(), NoMemory> {
    for statement in list {
        write_statement(statement, text)?;
    }
    Ok(())
}

/// What a document says, or its fault.
pub(crate) fn read_plainly(
    alloc: Global,
    document: &[u8],
) -> Result<Result<Plain, StageFault>, NoMemory> {
    let mut plain = Plain::new(alloc);
    let mut line = 0_u32;
    for bytes in &lines_of(alloc, document)? {
        line = line.saturating_add(1);
        if let Some(word) = plain.look(alloc, bytes)? {
            return Ok(Err(StageFault { line, word }));
        }
    }
    if plain.under == 5 {
        return Ok(Ok(plain));
    }
    let word = StageWord::NoEnd;
    Ok(Err(StageFault { line, word }))
}

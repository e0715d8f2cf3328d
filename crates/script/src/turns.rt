//! The lines of a script, one after the other.

ghost use Rattle.std.specs.Prelude.{◌≡◌, ◌++◌, [], ℕ, List, IfOk, OnOk};
ghost use Rattle.desk.specs.Consoles.{IsConsole};
ghost use Rattle.script.specs.Answers.{AnswersConsole, told_to_none};
ghost use Rattle.script.specs.Lines.{behind_console};
ghost use Rattle.script.specs.Staging.{Begins, Ends, GoesOn, Hears, StagesKept, Takes};

use crate::line::{asked, is_skipped, write_console};
use crate::open_document::Staging;
use crate::rehearsal::Rehearsal;
use cim_words::NoMemory;
use nt_text::LINE_LIMIT;
use room_words::{Fault, Reply};
use staging::ends_document;
use std::sync::ledger::Ledger;
use wire::{read_request, write_reply};

impl<L: Ledger> Rehearsal<L> {
    /// Takes the next line, which may stand within a document.
    pub(crate) fn take(
        &mut self,
        document: Option<Staging>,
        line: &[u8],
        into: &mut Vec<u8>,
    ) -> Result<Option<Staging>, NoMemory>
        ensures { IfOk result (λ next. (text : List ℕ) × (into.new.items ≡ into.old.items ++ text) × Takes self.old document line.now text self.new next) }
    {
        match document {
            Some(staging) => self.go_on(staging, line, into),
            None => self.begin(line, into),
        }
    }

    /// Answers a line outside a document, or begins the document that a console stages by it.
    fn begin(&mut self, line: &[u8], into: &mut Vec<u8>) -> Result<Option<Staging>, NoMemory>
        ensures { IfOk result (λ next. (text : List ℕ) × (into.new.items ≡ into.old.items ++ text) × Begins self.old line.now text self.new next) }
    {
        if is_skipped(line) {
            return Ok(None);
        }
        if line.len() > LINE_LIMIT {
            tell_none(Fault::Long, into)?;
            return Ok(None);
        }
        let Some((console, request)) = asked(line) else {
            tell_none(Fault::Console, into)?;
            return Ok(None);
        };
        self.hear(console, request, into)
    }

    /// Answers what a console asks, or begins the document that it stages.
    fn hear(
        &mut self,
        console: u8,
        request: &[u8],
        into: &mut Vec<u8>,
    ) -> Result<Option<Staging>, NoMemory>
        requires { IsConsole console }
        ensures { IfOk result (λ next. (text : List ℕ) × (into.new.items ≡ into.old.items ++ text) × Hears self.old console request.now text self.new next) }
    {
        if request == b"stage".as_slice() {
            return Ok(Some(Staging::of(self.alloc, console)));
        }
        write_console(console, into)?;
        self.reply(console, request, into)?;
        Ok(None)
    }

    /// Replies to what a console asks, where that stages no document.
    fn reply(&mut self, console: u8, asked: &[u8], into: &mut Vec<u8>) -> Result<(), NoMemory>
        requires { IsConsole console }
        ensures { OnOk result ((told : List ℕ) × (into.new.items ≡ into.old.items ++ told) × AnswersConsole self.old console [] asked.now told self.new) }
    {
        match read_request(asked, true) {
            Ok(request) => self.answer(console, request, into),
            Err(fault) => write_reply(&Reply::Fault(fault), into),
        }
    }

    /// Takes a line of a document, and answers the document where it ends.
    fn go_on(
        &mut self,
        staging: Staging,
        line: &[u8],
        into: &mut Vec<u8>,
    ) -> Result<Option<Staging>, NoMemory>
        ensures { IfOk result (λ next. (text : List ℕ) × (into.new.items ≡ into.old.items ++ text) × GoesOn self.old staging line.now text self.new next) }
    {
        let mut staging = staging;
        staging.add(line)?;
        if !ends_document(line) {
            return Ok(Some(staging));
        }
        self.close(staging, into)?;
        Ok(None)
    }

    /// Answers the document that no line has ended, where there is one.
    pub(crate) fn end(
        &mut self,
        document: Option<Staging>,
        into: &mut Vec<u8>,
    ) -> Result<(), NoMemory>
        ensures { OnOk result ((text : List ℕ) × (into.new.items ≡ into.old.items ++ text) × Ends self.old document text self.new) }
    {
        match document {
            Some(staging) => self.close(staging, into),
            None => Ok(()),
        }
    }

    /// Answers a document that has ended, behind its console.
    fn close(&mut self, staging: Staging, into: &mut Vec<u8>) -> Result<(), NoMemory>
        ensures { OnOk result ((told : List ℕ) × (into.new.items ≡ into.old.items ++ behind_console staging.console told) × StagesKept self.old staging told self.new) }
    {
        write_console(staging.console(), into)?;
        self.stage(staging, into)
    }
}

/// Appends the reply to a line of no console.
fn tell_none(fault: Fault, into: &mut Vec<u8>) -> Result<(), NoMemory>
    ensures { OnOk result (into.new.items ≡ into.old.items ++ told_to_none fault) }
{
    into.extend_from_slice(b"- ")?;
    write_reply(&Reply::Fault(fault), into)
}

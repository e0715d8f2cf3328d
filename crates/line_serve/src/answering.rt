//! One line, and what is written for it.

ghost use Rattle.std.specs.Prelude.{◌≡◌, ℕ, ◌+◌, ◌<◌, ◌≤◌, length, Some, None, IfOk, OnOk, OnErr, is_err};
ghost use Rattle.grid_out.specs.Faults.{CountsFaults};
ghost use Rattle.grid_out.specs.Sink.{Gains, GainsPrefix};
ghost use Rattle.line_serve.specs.AnsweredLines.{Answer};
ghost use Rattle.line_serve.specs.Parts.{IsAnswered};

use crate::answerer::{Answerer, Next};
use grid_out::{Failed, Link, NoMemory};
use std::alloc::Global;
use std::sync::Wait;

/// What is written where memory did not suffice.
const MEMORY: &[u8; 7] = b"memory\n";

/// Asks for the answer to a line. Its text then stands in `out`, alone.
fn ask<R: Wait, A: Answerer>(
    rt: &R,
    alloc: Global,
    answerer: &mut A,
    line: &[u8],
    out: &mut Vec<u8>,
) -> Result<Next, NoMemory>
    requires { 0 < A.patience answerer.old }
    ensures ok { IfOk result (λ next. A.answers answerer.old line.now (Some (next, out.new.items)) answerer.new) }
    ensures refused { OnErr result (A.answers answerer.old line.now None answerer.new) }
    ensures patient { A.patience answerer.old ≤ A.patience answerer.new + 1 }
{
    out.clear();
    answerer.line(rt, alloc, line, out)
}

/// Writes a text by one call, and nothing at all where it is empty.
fn write_text<L: Link>(link: &mut L, text: &[u8]) -> Result<(), Failed>
    ensures ok { OnOk result (Gains (L.written link.old) (L.written link.new) text.now) }
    ensures failed { OnErr result (GainsPrefix (L.written link.old) (L.written link.new) text.now) }
    ensures some { OnErr result (0 < length text.now) }
    ensures left { L.left link.new ≡ L.left link.old }
    ensures cause { CountsFaults (L.write_faults link.old) (L.write_faults link.new) (is_err result) }
    ensures other { L.read_faults link.new ≡ L.read_faults link.old }
{
    if text.is_empty() {
        return Ok(());
    }
    link.write(text)
}

/// Answers a line, and writes the answer.
pub(crate) fn answer_line<R: Wait, L: Link, A: Answerer>(
    rt: &R,
    alloc: Global,
    link: &mut L,
    answerer: &mut A,
    line: &[u8],
    out: &mut Vec<u8>,
) -> Result<Next, Failed>
    requires { 0 < A.patience answerer.old }
    ensures answered { IsAnswered A.answers answerer.old line.now result answerer.new (L.written link.old) (L.written link.new) }
    ensures left { L.left link.new ≡ L.left link.old }
    ensures cause { CountsFaults (L.write_faults link.old) (L.write_faults link.new) (is_err result) }
    ensures other { L.read_faults link.new ≡ L.read_faults link.old }
    ensures patient { A.patience answerer.old ≤ A.patience answerer.new + 1 }
{
    match ask(rt, alloc, answerer, line, out) {
        Ok(next) => {
            write_text(link, out)?;
            Ok(next)
        }
        Err(_) => {
            write_text(link, MEMORY)?;
            Ok(Next::Go)
        }
    }
}

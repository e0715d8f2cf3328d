//! One session over a link, from its first line to its end.

ghost use Rattle.std.specs.Prelude.{◌+◌, ◌≤◌};
ghost use Rattle.grid_out.specs.Faults.{CountsFaults};
ghost use Rattle.line_serve.specs.AnsweredLines.{most_input};
ghost use Rattle.line_serve.specs.Served.{IsServed, LeavesNothing, is_read_fault, is_write_fault};

use crate::answerer::Answerer;
use crate::going::serve_bytes;
use crate::lines::LineRoom;
use grid_out::{Failed, Link};
use std::alloc::Global;
use std::sync::Wait;

/// The most bytes that are read in one session.
const MOST_INPUT: usize = 1_073_741_824;

/// How a session ended.
#[derive(Clone, Copy, Debug, PartialEq, Eq, Drop)]
pub enum LinesEnd {
    /// The answerer ended it, and the link took that answer.
    Bye,
    /// The input ended.
    Ended,
    /// Reading failed.
    ReadFault,
    /// Writing failed.
    WriteFault,
    /// A line had more than 8,192 bytes in front of its line feed.
    LongLine,
    /// 1,073,741,824 bytes were read, and the session had not ended.
    Spent,
}

/// Answers each line that comes over the link, in order, until the session ends. A line ends at its line feed,
/// and one carriage return in front of that is dropped. Each answer is written whole before the next line is answered;
/// where memory does not suffice for one, the line `memory` is written in its place.
pub fn serve_lines<R: Wait, L: Link, A: Answerer>(
    rt: &R,
    alloc: Global,
    link: &mut L,
    answerer: &mut A,
    lines: &mut LineRoom,
) -> LinesEnd
    requires { most_input ≤ A.patience answerer.old }
    ensures served { IsServed A.answers answerer.old result answerer.new
        (L.left link.old) (L.left link.new) (L.written link.old) (L.written link.new) }
    ensures nothing_left { LeavesNothing result (L.left link.old) (L.left link.new) }
    ensures read_cause { CountsFaults (L.read_faults link.old) (L.read_faults link.new) (is_read_fault result) }
    ensures write_cause { CountsFaults (L.write_faults link.old) (L.write_faults link.new) (is_write_fault result) }
    ensures patient { A.patience answerer.old ≤ A.patience answerer.new + most_input }
{
    lines.begun.clear();
    let mut taken = 0;
    while taken < MOST_INPUT {
        match lines.chunk.read(link, MOST_INPUT - taken) {
            Ok(0) => return LinesEnd::Ended,
            Ok(count) => taken += count,
            Err(Failed) => return LinesEnd::ReadFault,
        }
        let bytes = lines.chunk.bytes();
        if let Err(ended) = serve_bytes(
            rt,
            alloc,
            link,
            answerer,
            &mut lines.begun,
            &mut lines.out,
            bytes,
        ) {
            return ended;
        }
    }
    LinesEnd::Spent
}

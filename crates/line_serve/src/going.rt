//! The lines of a piece of the input, one after another.

ghost use Rattle.std.specs.Prelude.{◌≡◌, ℕ, ◌+◌, ◌<◌, ◌≤◌, [], ◌++◌, length, IfOk, OnOk, IfErr, OnErr, IfSome, IfNone};
ghost use Rattle.grid_out.specs.Faults.{CountsFaults};
ghost use Rattle.line_serve.specs.Parts.{GoesOn, IsBegun, Stops};
ghost use Rattle.line_serve.specs.Served.{is_write_fault};

use crate::answerer::{Answerer, Next};
use crate::answering::answer_line;
use crate::begun::{Begun, TooLong};
use crate::serving::LinesEnd;
use grid_out::{Failed, Link};
use std::alloc::Global;
use std::sync::Wait;

/// Answers the line that ends first among the bytes, and gives what stands behind it. Where none ends there, the bytes
/// are of the line that is begun.
fn serve_line<'a, R: Wait, L: Link, A: Answerer>(
    rt: &R,
    alloc: Global,
    link: &mut L,
    answerer: &mut A,
    begun: &mut Begun,
    out: &mut Vec<u8>,
    bytes: &'a [u8],
) -> Result<Option<&'a [u8]>, LinesEnd>
    requires { length (begun.old ++ bytes.now) ≤ A.patience answerer.old }
    ensures line { IfOk result (λ next. IfSome next (λ behind. GoesOn A.answers answerer.old answerer.new
        (begun.old ++ bytes.now) (begun.new ++ behind.now) (L.written link.old) (L.written link.new))) }
    ensures shorter { IfOk result (λ next. IfSome next (λ behind. length behind.now < length bytes.now)) }
    ensures patient { IfOk result (λ next. IfSome next (λ behind.
        A.patience answerer.old + length (begun.new ++ behind.now) ≤ A.patience answerer.new + length (begun.old ++ bytes.now))) }
    ensures all { IfOk result (λ next. IfNone next (begun.new ≡ begun.old ++ bytes.now)) }
    ensures same { IfOk result (λ next. IfNone next (answerer.new ≡ answerer.old)) }
    ensures silent { IfOk result (λ next. IfNone next (L.written link.new ≡ L.written link.old)) }
    ensures stops { IfErr result (λ ended. Stops A.answers answerer.old ended answerer.new
        (begun.old ++ bytes.now) (L.written link.old) (L.written link.new)) }
    ensures patient_end { OnErr result (A.patience answerer.old ≤ A.patience answerer.new + length (begun.old ++ bytes.now)) }
    ensures begun { IsBegun begun.new }
    ensures left { L.left link.new ≡ L.left link.old }
    ensures other { L.read_faults link.new ≡ L.read_faults link.old }
    ensures sound { OnOk result (L.write_faults link.new ≡ L.write_faults link.old) }
    ensures cause { IfErr result (λ ended. CountsFaults (L.write_faults link.old) (L.write_faults link.new) (is_write_fault ended)) }
{
    let behind = match begun.take_line(bytes) {
        Ok(Some(behind)) => behind,
        Ok(None) => return Ok(None),
        Err(TooLong) => return Err(LinesEnd::LongLine),
    };
    match answer_line(rt, alloc, link, answerer, begun.line(), out) {
        Ok(Next::Go) => {}
        Ok(Next::Bye) => return Err(LinesEnd::Bye),
        Err(Failed) => return Err(LinesEnd::WriteFault),
    }
    begun.clear();
    Ok(Some(behind))
}

/// Answers the lines that end among the bytes, one after another, until one ends the session. What is left behind
/// them is of the line that is begun.
pub(crate) fn serve_bytes<R: Wait, L: Link, A: Answerer>(
    rt: &R,
    alloc: Global,
    link: &mut L,
    answerer: &mut A,
    begun: &mut Begun,
    out: &mut Vec<u8>,
    bytes: &[u8],
) -> Result<(), LinesEnd>
    requires { length (begun.old ++ bytes.now) ≤ A.patience answerer.old }
    ensures goes_on { OnOk result (GoesOn A.answers answerer.old answerer.new
        (begun.old ++ bytes.now) begun.new (L.written link.old) (L.written link.new)) }
    ensures patient { OnOk result
        (A.patience answerer.old + length begun.new ≤ A.patience answerer.new + length (begun.old ++ bytes.now)) }
    ensures stops { IfErr result (λ ended. Stops A.answers answerer.old ended answerer.new
        (begun.old ++ bytes.now) (L.written link.old) (L.written link.new)) }
    ensures patient_end { OnErr result (A.patience answerer.old ≤ A.patience answerer.new + length (begun.old ++ bytes.now)) }
    ensures begun { IsBegun begun.new }
    ensures left { L.left link.new ≡ L.left link.old }
    ensures other { L.read_faults link.new ≡ L.read_faults link.old }
    ensures sound { OnOk result (L.write_faults link.new ≡ L.write_faults link.old) }
    ensures cause { IfErr result (λ ended. CountsFaults (L.write_faults link.old) (L.write_faults link.new) (is_write_fault ended)) }
{
    let mut rest = bytes;
    while let Some(behind) = serve_line(rt, alloc, link, answerer, begun, out, rest)? {
        rest = behind;
    }
    Ok(())
}

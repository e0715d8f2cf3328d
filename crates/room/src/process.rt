//! The program as a process: from its arguments to the code with which it exits.

ghost use Rattle.std.specs.Prelude.{◌≡◌, ◌⊎◌, ℕ, List, [], map, drop, string_bytes, IfOk, MatchResult};
ghost use Rattle.std.specs.Vec.Iter.{into_iter_items};
ghost use Rattle.grid_out.specs.Faults.{CountsFaults};
ghost use Rattle.grid_out.specs.Shelf.{AsksFor};
ghost use Rattle.room_base.specs.declared.status.Status.{Status};
ghost use Rattle.room_base.specs.Status.{is_read_fault, status_code};
ghost use Rattle.room_plain.specs.Run.{Answers, AreNames, IsHanded, Writes};

use cim_words::NoMemory;
use grid_out::{Shelf, Sink};
use room_plain::{Status, run_plain};
use std::alloc::Global;
use std::env::Args;
use std::io;

/// Does what the arguments say, and gives the code with which the process exits. Arguments that are no text are no command.
pub fn run_code<F: Shelf, K: Sink>(
    alloc: Global,
    args: io::Result<Args>,
    shelf: &mut F,
    out: &mut K,
) -> u8
    // The code is that of the status with which the run over the arguments after the program's name ends. Where memory does not
    // suffice for these words, nothing is asked for.
    ensures { (words : List (List ℕ)) × MatchResult args (λ all. words ≡ map string_bytes (drop 1 (into_iter_items all))) (λ _. words ≡ [])
        × (status : Status) × (result ≡ status_code status)
        × ((text : List ℕ) × Answers (F.content shelf.old) words status text
        × Writes status (K.written out.old) (K.written out.new) (K.faults out.old) (K.faults out.new) text
        × IsHanded words status text (K.handed out.old) (K.handed out.new))
        × ((names : List (List ℕ)) × (AreNames words status names ⊎ ((status ≡ Status.NoMemory) × (names ≡ [])))
        × AsksFor (F.asked shelf.old) (F.asked shelf.new) names)
        × CountsFaults (F.faults shelf.old) (F.faults shelf.new) (is_read_fault status) }
{
    match words_of(alloc, args) {
        Ok(words) => run_plain(alloc, &words, shelf, out).code(),
        Err(_) => Status::NoMemory.code(),
    }
}

/// The arguments after the program's name, and none where they are no text.
fn words_of(alloc: Global, args: io::Result<Args>) -> Result<Vec<String>, NoMemory>
    ensures { IfOk result (λ words. MatchResult args (λ all. words.items ≡ drop 1 (into_iter_items all)) (λ _. words.items ≡ [])) }
{
    match args {
        Ok(all) => after_name(alloc, all),
        Err(error) if error.kind() == io::ErrorKind::OutOfMemory => Err(NoMemory),
        Err(_) => Ok(Vec::new(alloc)),
    }
}

/// All arguments but the first.
fn after_name(alloc: Global, args: Args) -> Result<Vec<String>, NoMemory>
    ensures { IfOk result (λ words. words.items ≡ drop 1 (into_iter_items args)) }
{
    let mut rest = args;
    rest.next();
    let mut words = Vec::new(alloc);
    for word in rest {
        words.push(word)?;
    }
    Ok(words)
}

#[cfg(test)]
mod tests {
    use super::*;
    use grid_out::{Files, MemShelf, MemSink};
    use std::test::Fail;

    /// The arguments in a line, or why there are none; with which code the process ends, and what is written.
    const RUNS: &[(Result<&str, io::ErrorKind>, u8, &str)] = &[
        (Ok("room check empty"), 0, "ok 0\n"),
        (Ok("room check other"), 1, "read fault\n"),
        (Ok("room"), 2, "usage\n"),
        (Err(io::ErrorKind::InvalidData), 2, "usage\n"),
        (Err(io::ErrorKind::OutOfMemory), 6, ""),
    ];

    fn args(alloc: Global, line: &str) -> Result<Args, NoMemory> {
        let mut args = Vec::new(alloc);
        for arg in line.split(' ') {
            args.push(String::from_str(alloc, arg)?)?;
        }
        Ok(args.into_iter())
    }

    fn given(
        alloc: Global,
        line: Result<&str, io::ErrorKind>,
    ) -> Result<io::Result<Args>, NoMemory> {
        match line {
            Ok(line) => Ok(Ok(args(alloc, line)?)),
            Err(kind) => Ok(Err(io::Error::from(kind))),
        }
    }

    /// Whether a process with these arguments ends with this code and writes this, over one file, which is empty.
    fn exits(
        alloc: Global,
        args: io::Result<Args>,
        code: u8,
        text: &str,
    ) -> Result<bool, NoMemory> {
        let mut files = Files::empty(alloc);
        files.add("empty", b"")?;
        let mut shelf = MemShelf::new(alloc, files, &[])?;
        let mut out = MemSink::new(alloc, 100, &[])?;
        let given = run_code(alloc, args, &mut shelf, &mut out);
        Ok(given == code && out.written() == text.as_bytes())
    }

    #[test]
    fn exits_with_the_code(rt: HostRuntime) -> Result<(), Fail> {
        for (line, code, text) in RUNS {
            let args = given(rt.alloc(), *line)?;
            assert!(rt; exits(rt.alloc(), args, *code, text)?);
        }
        Ok(())
    }
}

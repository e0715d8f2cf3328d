//! The lines of a script, outside documents and inside one.

ghost use Rattle.std.specs.Prelude.{◌≡◌, ◌++◌, [], ℕ, List, IfSome, IfNone, OnOk};
ghost use Rattle.desk.specs.Consoles.{IsConsole};
ghost use Rattle.script.specs.Lines.{behind_console};
ghost use Rattle.script.specs.Turns.{is_skipped};

use cim_words::NoMemory;
use desk::MOST_CONSOLES;

/// Whether a line says nothing.
pub(crate) fn is_skipped(line: &[u8]) -> bool
    ensures { result ≡ is_skipped line.now }
{
    match line {
        [] => true,
        [first, ..] => *first == b'#',
    }
}

/// The console that a line names, and what it asks.
pub(crate) fn asked(line: &[u8]) -> Option<(u8, &[u8])>
    ensures found { IfSome result (λ x. IsConsole x.0 × (line.now ≡ behind_console x.0 x.1.now)) }
    ensures none { IfNone result ((console : ℕ) (request : List ℕ) → IsConsole console → line.now ≡ behind_console console request → ⊥) }
{
    for index in 0..MOST_CONSOLES {
        if let Some(request) = behind(index + 1, line) {
            return Some((index + 1, request));
        }
    }
    None
}

/// What a line asks of a console, where it names that one.
fn behind(console: u8, line: &[u8]) -> Option<&[u8]>
    requires { IsConsole console }
    ensures found { IfSome result (λ request. line.now ≡ behind_console console request.now) }
    ensures none { IfNone result ((request : List ℕ) → line.now ≡ behind_console console request → ⊥) }
{
    line.strip_prefix(mark(console).as_bytes())
}

/// What stands before the requests of a console.
fn mark(console: u8) -> &'static str
    requires { IsConsole console }
    ensures { result.now ≡ behind_console console [] }
{
    match console {
        1 => "c1 ",
        2 => "c2 ",
        3 => "c3 ",
        4 => "c4 ",
        5 => "c5 ",
        6 => "c6 ",
        7 => "c7 ",
        8 => "c8 ",
        9 => "c9 ",
        10 => "c10 ",
        11 => "c11 ",
        12 => "c12 ",
        13 => "c13 ",
        14 => "c14 ",
        15 => "c15 ",
        16 => "c16 ",
        _ => unreachable!(),
    }
}

/// Appends the mark of a console, which stands before its replies.
pub(crate) fn write_console(console: u8, into: &mut Vec<u8>) -> Result<(), NoMemory>
    requires { IsConsole console }
    ensures { OnOk result ((told : List ℕ) → into.new.items ++ told ≡ into.old.items ++ behind_console console told) }
{
    into.extend_from_slice(mark(console).as_bytes())
}

//! Who answers the lines of a session.

ghost use Rattle.std.specs.Prelude.{◌≡◌, ℕ, ◌+◌, ◌<◌, ◌≤◌, List, ◌++◌, Some, None, IfOk, OnErr};
ghost use Rattle.line_serve.specs.AnsweredLines.{Answer};

use grid_out::NoMemory;
use std::alloc::Global;
use std::sync::Wait;

/// Whether a session goes on after an answer.
#[derive(Clone, Copy, Debug, PartialEq, Eq, Drop)]
pub enum Next {
    /// The next line is read.
    Go,
    /// The session ends once this answer is written.
    Bye,
}

/// Answers the lines of a session, one after another, each from the state in which the one before left it.
pub trait Answerer {
    // How a line is answered: the state before it, the line, the answer and the state after it.
    ghost answers: { Self → List ℕ → Answer → Self → Type 0 };

    // How many more lines it takes at least.
    ghost patience: { Self → ℕ };

    /// Answers a line, which stands without its end, by text at the end of `out`.
    /// Where memory does not suffice, the line is taken all the same and `out` is as before.
    fn line<R: Wait>(
        &mut self,
        rt: &R,
        alloc: Global,
        line: &[u8],
        out: &mut Vec<u8>,
    ) -> Result<Next, NoMemory>
        requires { 0 < patience self.old }
        ensures ok { IfOk result (λ next. (text : List ℕ) × (out.new.items ≡ out.old.items ++ text)
            × answers self.old line.now (Some (next, text)) self.new) }
        ensures refused { OnErr result ((out.new.items ≡ out.old.items) × answers self.old line.now None self.new) }
        ensures patient { patience self.old ≤ patience self.new + 1 };
}

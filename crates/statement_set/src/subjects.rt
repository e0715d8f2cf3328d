//! Going over a set subject by subject.

ghost use Rattle.std.specs.Prelude.{◌≡◌};
ghost use Rattle.std.specs.Iterator.{item_count};
ghost use Rattle.statement_set.specs.Runs.{TakesSubject, run_of};

use crate::about::About;
use cim_words::{Id, Statement};
use std::marker::Model;

/// Goes over the subjects of a set, in order, each with the statements about it. Contracts see it as the list of the statements that are left.
#[derive(Drop)]
pub struct Subjects<'a> {
    left: &'a [Statement],
}

impl<'a> Model for Subjects<'a> {
    ghost use Rattle.std.specs.Prelude.{List};
    ghost use Rattle.cim_words.specs.declared.statement.Statement.{Statement};

    ghost Value = { List Statement };

    ghost view = { λ subjects. subjects.left.now };
}

impl<'a> Subjects<'a> {
    /// Goes over the subjects of these statements.
    pub(crate) fn of(statements: &'a [Statement]) -> Subjects<'a>
        ensures { result ≡ statements.now }
    {
        Subjects { left: statements }
    }
}

impl<'a> Iterator for Subjects<'a> {
    type Item = (Id, About<'a>);

    ghost next_gives = { TakesSubject };

    ghost remaining = { item_count (λ left. left) };

    fn next(&mut self) -> Option<(Id, About<'a>)> {
        let (first, _) = self.left.split_first()?;
        let (about, left) = self.left.split_at(run_len(self.left));
        self.left = left;
        Some((first.subject, About::of(about)))
    }
}

/// How many statements at the front are about the first one's subject.
fn run_len(statements: &[Statement]) -> usize
    ensures { result ≡ run_of statements.now }
{
    match statements {
        [first, ..] => statements
            .iter()
            .take_while(|statement| statement.subject == first.subject)
            .count(),
        [] => 0,
    }
}

//! Going over statements of a set.

ghost use Rattle.std.specs.Prelude.{◌≡◌};
ghost use Rattle.std.specs.Iterator.{YieldsFirstRef, item_count};

use cim_words::Statement;
use std::marker::Model;
use std::slice;

/// Goes over statements of a set, in order. Contracts see it as the list of those that are left.
#[derive(Drop)]
pub struct About<'a> {
    left: slice::Iter<'a, Statement>,
}

impl<'a> Model for About<'a> {
    ghost use Rattle.std.specs.Prelude.{List};
    ghost use Rattle.std.specs.Slice.Iter.{iter_rest};
    ghost use Rattle.cim_words.specs.declared.statement.Statement.{Statement};

    ghost Value = { List Statement };

    ghost view = { λ about. iter_rest about.left };
}

impl<'a> About<'a> {
    /// Goes over these statements.
    pub(crate) fn of(statements: &'a [Statement]) -> About<'a>
        ensures { result ≡ statements.now }
    {
        About {
            left: statements.iter(),
        }
    }

    /// Goes over the statements that are left once more.
    pub fn again(&self) -> About<'a>
        ensures { result ≡ self.now }
    {
        About::of(self.left.as_slice())
    }
}

impl<'a> Iterator for About<'a> {
    type Item = &'a Statement;

    ghost next_gives = { YieldsFirstRef (λ left. left) };

    ghost remaining = { item_count (λ left. left) };

    fn next(&mut self) -> Option<&'a Statement> {
        self.left.next()
    }
}

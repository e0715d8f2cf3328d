//! What each step on the table tells, and how views are cut and joined.
use crate::dated::Dated;
use crate::views::Knows;
use atomic_table::{Join, Play, Split};

/// The writer takes its slot of a console.
pub(crate) struct Claim;

/// A reader takes its slot.
pub(crate) struct Arm;

/// A reader gives its slot back.
pub(crate) struct Leave;

/// A reader loads its word.
pub(crate) struct Look;

/// A reader gives its slot, with its version, for the fresh one.
pub(crate) struct Collect;

/// The writer gives its slot, with a new version, for the word's.
pub(crate) struct Deliver;

/// What was joined to a view is compared with its list.
pub(crate) struct Settle;

/// One reader more is split off the writer.
pub(crate) struct Enroll;

/// A note is split off the writer.
pub(crate) struct TakeNote;

/// A copy of what it has seen is split off a reader.
pub(crate) struct TakeCopy;

/// A note is joined to a reader.
pub(crate) struct Learn;

/// A copy is joined to the writer.
pub(crate) struct Compare;

impl<V, I, O> Play<Option<V>, Knows<I, O>> for Claim {
    ghost use Rattle.board.specs.Steps.{claims};

    ghost then = { claims };
}

impl<V, I, O> Play<Option<V>, Knows<I, O>> for Arm {
    ghost use Rattle.board.specs.Steps.{arms};

    ghost then = { arms };
}

impl<V, I, O> Play<Option<V>, Knows<I, O>> for Leave {
    ghost use Rattle.board.specs.Steps.{leaves};

    ghost then = { leaves };
}

impl<V, I, O> Play<Option<V>, Knows<I, O>> for Look {
    ghost use Rattle.board.specs.Steps.{looks};

    ghost then = { looks };
}

impl<V: Dated + Send + Sync> Play<Option<V>, Knows<V::Item, V::Origin>> for Collect {
    ghost use Rattle.board.specs.Steps.{collects};

    ghost then = { collects V.log V.origin };
}

impl<V: Dated + Send + Sync> Play<Option<V>, Knows<V::Item, V::Origin>> for Deliver {
    ghost use Rattle.board.specs.Steps.{delivers};

    ghost then = { delivers V.log V.origin };
}

impl<V, I, O> Play<Option<V>, Knows<I, O>> for Settle {
    ghost use Rattle.board.specs.Steps.{settles};

    ghost then = { settles };
}

impl<I, O> Split<Knows<I, O>> for Enroll {
    ghost use Rattle.board.specs.Views.{one_more, newcomer};

    ghost left = { λ v. record v { role = one_more v.role } };

    ghost right = { newcomer };
}

impl<I, O> Split<Knows<I, O>> for TakeNote {
    ghost use Rattle.board.specs.Views.{with_role};
    ghost use Rattle.board.specs.declared.views.Role.TheVariants as role;

    ghost left = { λ v. v };

    ghost right = { with_role role.Note };
}

impl<I, O> Split<Knows<I, O>> for TakeCopy {
    ghost use Rattle.board.specs.Views.{with_role};
    ghost use Rattle.board.specs.declared.views.Role.TheVariants as role;

    ghost left = { λ v. v };

    ghost right = { with_role role.Copy };
}

impl<I, O> Join<Knows<I, O>> for Learn {
    ghost use Rattle.board.specs.Views as views;

    ghost both = { views.informed };

    ghost spent = { views.spent };
}

impl<I, O> Join<Knows<I, O>> for Compare {
    ghost use Rattle.board.specs.Views as views;

    ghost both = { views.compared };

    ghost spent = { views.spent };
}

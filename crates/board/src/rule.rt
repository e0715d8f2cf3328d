//! The table that the writer and the readers share, and its rule.
use crate::dated::Dated;
use crate::views::Knows;
use atomic_table::{Seat, Shared, Table, TableRule};
use std::alloc::Global;
use std::snapshot::Snapshot;
use std::sync::Arc;

/// What the table is told once: the first version, and how many consoles there are.
#[derive(Drop)]
pub struct Opening<V: Drop> {
    pub first: Snapshot<V>,
    pub consoles: u8,
}

/// The rule: at each console three slots, of which the reader has one, the writer one, and the word names the third.
pub struct Triple;

impl<V: Dated + Send + Sync> TableRule<Option<V>, Knows<V::Item, V::Origin>, Opening<V>>
    for Triple {
    ghost use Rattle.board.specs.Rule.{Stands};
    ghost use Rattle.board.specs.Views.{opened};

    ghost holds = { λ _. Stands V.log V.origin };

    ghost first = { λ key. opened key.consoles (V.log key.first.value) (V.origin key.first.value) };
}

/// The table: a word for each console, and three slots.
pub(crate) type Board<V> = Table<
    Option<V>,
    Knows<<V as Dated>::Item, <V as Dated>::Origin>,
    Opening<V>,
    Triple,
    Global,
>;

/// The table as threads see it.
pub(crate) type SharedPart<V> = Shared<
    Option<V>,
    Knows<<V as Dated>::Item, <V as Dated>::Origin>,
    Opening<V>,
    Triple,
>;

/// A seat at it.
pub(crate) type BoardSeat<V> = Seat<Option<V>, Knows<<V as Dated>::Item, <V as Dated>::Origin>>;

/// The table as the ends hold it.
pub(crate) type SharedBoard<V> = Arc<Board<V>, Global>;

//! The rows of a trace, from what counts for each.

ghost use Rattle.std.specs.Prelude.{◌≡◌, ◌+◌, ◌<◌, ◌≤◌, ◌⊎◌, ◌↔◌, ◌∷◌, ◌++◌, ℕ, [], length, map, vec_len, IsTrue, Contains};
ghost use Rattle.std.specs.Vec.{vec_capacity};
ghost use Rattle.std.specs.List.Sorted.{IsStrictlyIncreasing};
ghost use Rattle.cim_words.specs.Phases.{has_phase};
ghost use Rattle.cim_words.specs.declared.phases.Phase.{Phase};
ghost use Rattle.cim_model.specs.Trace.{Lists, Row};
ghost use Rattle.feeder_trace.specs.Rows.{AddsRow, AreRows};

use crate::capacity::put_within;
use cim_words::{Id, PhaseSet};

/// A row: what is reached, and in which phases.
pub(crate) type Row = (Id, PhaseSet);

/// Makes rows of what counts: each identifier once, in ascending order, with all its phases.
pub(crate) fn merge(parts: &mut Vec<Row>, rows: &mut Vec<Row>)
    requires room { vec_len parts.old ≤ vec_capacity rows.old }
    requires some { (row : Row) → Contains parts.old.items row → (p : Phase) × IsTrue (has_phase row.1 p) }
    ensures rows { AreRows rows.new.items }
    ensures same { (y : ℕ) (p : Phase) → Lists rows.new.items y p ↔ Lists parts.old.items y p }
    ensures capacity { vec_capacity rows.old ≤ vec_capacity rows.new }
    ensures parts { vec_capacity parts.new ≡ vec_capacity parts.old }
{
    parts.sort_unstable_by_key(|part| part.0.number);
    rows.clear();
    for &part in parts.iter() {
        add(rows, part);
    }
}

/// Adds a part to the last row, or puts it after the rows, none of which stands after it.
fn add(rows: &mut Vec<Row>, part: Row)
    requires { vec_len rows.old < vec_capacity rows.old }
    ensures added { AddsRow part rows.old.items rows.new.items }
    ensures len { vec_len rows.new ≤ vec_len rows.old + 1 }
    ensures capacity { vec_capacity rows.old ≤ vec_capacity rows.new }
{
    let Some(last) = rows.pop() else {
        put_within(rows, part);
        return;
    };
    if last.0 == part.0 {
        put_within(rows, (part.0, last.1.join(part.1)));
        return;
    }
    put_within(rows, last);
    put_within(rows, part);
}

//! Laws of scripts.

ghost use Rattle.std.specs.Prelude.{◌≡◌, ℕ, List};
ghost use Rattle.cim_words.specs.declared.statement.Statement.{Statement};
ghost use Rattle.script.specs.Played.{IsPlayed};

use cim_model::one_trace;
use difference::documents_have_one_reading;
use room_core::steps_have_one_reply;
use versions::{Version, histories_leave_one_network};
use wire::requests_have_one_reading;

/// A script is answered in one way over a base.
pub fn scripts_have_one_answer()
    ensures { (base : List Statement) (script a b : List ℕ) → IsPlayed base script a → IsPlayed base script b → a ≡ b }
{
    requests_have_one_reading();
    documents_have_one_reading();
    steps_have_one_reply::<Version>();
    histories_leave_one_network();
    one_trace();
}

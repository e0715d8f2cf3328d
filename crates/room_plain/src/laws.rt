//! Laws of the definitions, each proved once and for all.

ghost use Rattle.std.specs.Prelude.{◌≡◌, ℕ, List, Option, IsTrue};
ghost use Rattle.room_base.specs.declared.status.Status.{Status};
ghost use Rattle.room_plain.specs.Run.{Answers, TellsFiles, is_answer};

use cim_model::one_trace;
use room_base::bases_have_one_reading;
use script::scripts_have_one_answer;

/// What the program answers is a function of its words and of what the shelf tells of the files that they name: without a fault and
/// want of memory there is one status and one text.
pub fn one_answer()
    ensures { (told : List ℕ → Option (List ℕ)) (words : List (List ℕ)) (a b : Status) (x y : List ℕ) → TellsFiles told words
        → IsTrue (is_answer a) → IsTrue (is_answer b) → Answers told words a x → Answers told words b y → (a ≡ b) × (x ≡ y) }
{
    bases_have_one_reading();
    one_trace();
    scripts_have_one_answer();
}

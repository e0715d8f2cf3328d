//! Laws of the definitions, each proved once and for all.

ghost use Rattle.std.specs.Prelude.{◌≡◌, ℕ, List};
ghost use Rattle.cim_words.specs.declared.statement.Statement.{Statement};
ghost use Rattle.room_base.specs.Base.{IsBase, RefusesBase};
ghost use Rattle.room_base.specs.declared.refusal.BaseRefusal.{BaseRefusal};

use nt_text::documents_have_one_reading;
use statement_set::one_set;

/// Bytes are a base with one set of statements, or are refused for one reason.
pub fn bases_have_one_reading()
    ensures set { (bytes : List ℕ) (a b : List Statement) → IsBase bytes a → IsBase bytes b → a ≡ b }
    ensures either { (bytes : List ℕ) (set : List Statement) (why : BaseRefusal) → IsBase bytes set → RefusesBase bytes why → ⊥ }
    ensures refusal { (bytes : List ℕ) (a b : BaseRefusal) → RefusesBase bytes a → RefusesBase bytes b → a ≡ b }
{
    documents_have_one_reading();
    one_set();
}

//! Laws of requests.

ghost use Rattle.std.specs.Prelude.{◌≡◌, ℕ, List, Bool};
ghost use Rattle.room_words.specs.declared.fault.Fault.{Fault};
ghost use Rattle.room_words.specs.declared.act.Act.{Act};
ghost use Rattle.wire.specs.Requests.{IsRequest, IsRequestFault, act_text, request_word, values_of_act};
ghost use Rattle.wire.specs.Values.{AreWritten};
ghost use Rattle.wire.specs.declared.request.Request.{Request};
ghost use Rattle.wire.specs.declared.request.Request.TheVariants as request;
ghost use Rattle.wire.specs.declared.request_word.RequestWord.TheVariants as word;

use cim_words::ids_are_read_back;

/// A line is one request or has one fault, and not both.
pub fn requests_have_one_reading()
    ensures requests { (scripted : Bool) (line : List ℕ) (a b : Request) → IsRequest scripted line a → IsRequest scripted line b → a ≡ b }
    ensures faults { (scripted : Bool) (line : List ℕ) (f g : Fault) → IsRequestFault scripted line f → IsRequestFault scripted line g → f ≡ g }
    ensures either { (scripted : Bool) (line : List ℕ) (a : Request) (f : Fault) → IsRequest scripted line a → IsRequestFault scripted line f → ⊥ }
{}

/// A line stages a document exactly where it is the word `stage` alone.
pub fn a_stage_is_one_word()
    ensures word { (scripted : Bool) (line : List ℕ) → IsRequest scripted line request.Stage → line ≡ request_word word.Stage }
    ensures stage { (scripted : Bool) → IsRequest scripted (request_word word.Stage) request.Stage }
{}

/// The text that is written for an act is read as that act, where its identifiers, its length and its sides are such that words spell them.
pub fn written_acts_are_read()
    ensures { (scripted : Bool) (act : Act) → AreWritten (values_of_act act) → IsRequest scripted (act_text act) (request.Act act) }
{
    ids_are_read_back();
}

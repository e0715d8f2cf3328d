//! A script, played over a base.

ghost use Rattle.std.specs.Prelude.{◌≡◌, ◌++◌, List, ℕ, IfErr, IfOk, OnOk};
ghost use Rattle.cim_model.specs.Profile.{IsFaultless};
ghost use Rattle.history_writer.specs.Sending.{Sends, StopsAt, output};
ghost use Rattle.script.specs.Played.{IsFront, IsPlayed};
ghost use Rattle.script.specs.Rehearsal.{at_start, RehearsalState};
ghost use Rattle.script.specs.Answers.{AreAnswered};
ghost use Rattle.script.specs.Turns.{Turn, turns_of};

use crate::rehearsal::Rehearsal;
use grid_out::Sink;
use history_writer::{OutFault, flush_full, write_history};
use nt_text::Lines;
use room_core::steps_keep_origins;
use statement_set::StatementSet;
use std::alloc::Global;
use std::marker::Brand;
use std::sync::ledger::{Blank, Ledger};
use versions::Version;
use wire::a_stage_is_one_word;

/// Plays a script over a base that breaks no rule: writes the reply to each request, behind its console, and then the history.
///
/// The text goes to the output in pieces, as it comes.
pub fn play<K: Sink>(
    alloc: Global,
    base: StatementSet,
    script: &[u8],
    out: &mut K,
) -> Result<(), OutFault>
    requires { IsFaultless base }
    // The output took all that the script is answered, without a fault.
    ensures ok { OnOk result ((text : List ℕ) × IsPlayed base script.now text
        × Sends (output (K.written out.old) (K.faults out.old) (K.handed out.old)) (output (K.written out.new) (K.faults out.new) (K.handed out.new)) text) }

    // A front of that was handed on: the output failed within it, or took it before memory ended.
    ensures fault { IfErr result (λ fault. (front : List ℕ) × IsFront base script.now front
        × StopsAt fault (output (K.written out.old) (K.faults out.old) (K.handed out.old)) (output (K.written out.new) (K.faults out.new) (K.handed out.new)) front) }
{
    play_counted::<Brand, K>(alloc, base, script, Blank::new(1), out)
}

/// The same, with a ledger for the counter of steps.
fn play_counted<L: Ledger, K: Sink>(
    alloc: Global,
    base: StatementSet,
    script: &[u8],
    blank: Blank,
    out: &mut K,
) -> Result<(), OutFault>
    requires faultless { IsFaultless base }
    requires name { blank.name ≡ L.name }
    requires parts { blank.parts ≡ L.parts }
    requires some { blank.parts ≡ 1 }
    ensures ok { OnOk result ((text : List ℕ) × IsPlayed base script.now text
        × Sends (output (K.written out.old) (K.faults out.old) (K.handed out.old)) (output (K.written out.new) (K.faults out.new) (K.handed out.new)) text) }
    ensures fault { IfErr result (λ fault. (front : List ℕ) × IsFront base script.now front
        × StopsAt fault (output (K.written out.old) (K.faults out.old) (K.handed out.old)) (output (K.written out.new) (K.faults out.new) (K.handed out.new)) front) }
{
    steps_keep_origins::<Version>();
    let mut rehearsal = Rehearsal::<L>::start(alloc, base, blank)?;
    let kept = rehearsal.answer_all(script, out)?;
    rehearsal.room.history();
    write_history(rehearsal.room.current(), kept, out)
}

impl<L: Ledger> Rehearsal<L> {
    /// Answers a whole script, and gives back the replies that were not handed on yet.
    fn answer_all<K: Sink>(&mut self, script: &[u8], out: &mut K) -> Result<Vec<u8>, OutFault>
        ensures ok { IfOk result (λ kept. (sent : List ℕ) × AreAnswered self.old (turns_of script.now) (sent ++ kept.items) self.new
            × Sends (output (K.written out.old) (K.faults out.old) (K.handed out.old)) (output (K.written out.new) (K.faults out.new) (K.handed out.new)) sent) }
        ensures fault { IfErr result (λ fault. (done left : List Turn) × (turns_of script.now ≡ done ++ left)
            × ((front more : List ℕ) × (after : RehearsalState) × AreAnswered self.old done (front ++ more) after
            × StopsAt fault (output (K.written out.old) (K.faults out.old) (K.handed out.old)) (output (K.written out.new) (K.faults out.new) (K.handed out.new)) front)) }
    {
        a_stage_is_one_word();
        let mut kept = Vec::new(self.alloc);
        let mut document = None;
        for line in Lines::of(script) {
            document = self.take(document, line, &mut kept)?;
            flush_full(&mut kept, out)?;
        }
        self.end(document, &mut kept)?;
        Ok(kept)
    }
}

//! The words of the command line.

ghost use Rattle.std.specs.Prelude.{◌≡◌, ℕ, List, [], ◌∷◌, map, string_bytes, IfSome, IsSomeAnd};
ghost use Rattle.cim_words.specs.declared.phases.PhaseSet.{PhaseSet};
ghost use Rattle.room_plain.specs.declared.task.Task.{Task};
ghost use Rattle.room_plain.specs.Command.{IsCommand, further_names};

use crate::task::Task;
use cim_words::{Id, PhaseSet};
use room_base::is_file_name;

/// What the words ask for.
#[derive(Clone, Copy)]
pub(crate) struct Asked<'a> {
    /// The name of the base's file.
    pub(crate) base: &'a str,
    /// The name of the further file that the task wants, if it wants one.
    pub(crate) script: Option<&'a str>,
    /// What is asked of the base.
    pub(crate) task: Task,
}

/// What the words ask for: `check BASE`, `trace BASE SOURCE PHASES` or `script BASE SCRIPT`.
pub(crate) fn command(words: &[String]) -> Option<Asked<'_>>
    ensures found { IfSome result (λ x. IsCommand (map string_bytes words.now) x.base.now (further_names x) x.task) }
    ensures only { (name : List ℕ) (more : List (List ℕ)) (task : Task) → IsCommand (map string_bytes words.now) name more task
        → IsSomeAnd result (λ x. (x.base.now ≡ name) × (further_names x ≡ more) × (x.task ≡ task)) }
{
    match words {
        [command, base] => check_words(command.as_str(), base.as_str()),
        [command, base, script] => {
            script_words(command.as_str(), base.as_str(), script.as_str())
        }
        [command, base, source, phases] => trace_words(
            command.as_str(),
            base.as_str(),
            source.as_str(),
            phases.as_str(),
        ),
        _ => None,
    }
}

fn check_words<'a>(command: &str, base: &'a str) -> Option<Asked<'a>>
    ensures found { IfSome result (λ x. IsCommand (command.now ∷ base.now ∷ []) x.base.now (further_names x) x.task) }
    ensures only { (name : List ℕ) (more : List (List ℕ)) (task : Task) → IsCommand (command.now ∷ base.now ∷ []) name more task
        → IsSomeAnd result (λ x. (x.base.now ≡ name) × (further_names x ≡ more) × (x.task ≡ task)) }
{
    if command != "check" || !is_file_name(base) {
        return None;
    }
    Some(Asked {
        base,
        script: None,
        task: Task::Check,
    })
}

fn script_words<'a>(command: &str, base: &'a str, script: &'a str) -> Option<Asked<'a>>
    ensures found { IfSome result (λ x. IsCommand (command.now ∷ base.now ∷ script.now ∷ []) x.base.now (further_names x) x.task) }
    ensures only { (name : List ℕ) (more : List (List ℕ)) (task : Task) → IsCommand (command.now ∷ base.now ∷ script.now ∷ []) name more task
        → IsSomeAnd result (λ x. (x.base.now ≡ name) × (further_names x ≡ more) × (x.task ≡ task)) }
{
    if command != "script" || !is_file_name(base) || !is_file_name(script) {
        return None;
    }
    Some(Asked {
        base,
        script: Some(script),
        task: Task::Play,
    })
}

fn trace_words<'a>(command: &str, base: &'a str, source: &str, phases: &str) -> Option<Asked<'a>>
    ensures found { IfSome result (λ x. IsCommand (command.now ∷ base.now ∷ source.now ∷ phases.now ∷ []) x.base.now (further_names x) x.task) }
    ensures only { (name : List ℕ) (more : List (List ℕ)) (task : Task) → IsCommand (command.now ∷ base.now ∷ source.now ∷ phases.now ∷ []) name more task
        → IsSomeAnd result (λ x. (x.base.now ≡ name) × (further_names x ≡ more) × (x.task ≡ task)) }
{
    if command != "trace" || !is_file_name(base) {
        return None;
    }
    let source = Id::read_plain(source).ok()?;
    let phases = PhaseSet::read_text(phases).ok()?;
    if phases.is_empty() {
        return None;
    }
    Some(Asked {
        base,
        script: None,
        task: Task::Trace { source, phases },
    })
}

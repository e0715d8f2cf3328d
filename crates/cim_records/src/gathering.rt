//! Gathering terminals by their equipment and by their nodes.

ghost use Rattle.std.specs.Prelude.{◌≡◌, ◌++◌, ℕ, OnOk, map};
ghost use Rattle.cim_model.specs.Values.{as_id};
ghost use Rattle.cim_records.specs.Found.{known_of, members};
ghost use Rattle.cim_records.specs.Gathered as spec;

use crate::groups::Groups;
use crate::subject::Subject;
use crate::subjects::Subjects;
use cim_model::named_by;
use cim_words::{Id, KnownProp, NoMemory};
use statement_set::StatementSet;

/// Which terminals are gathered, and under what.
#[derive(Clone, Copy, Drop)]
pub(crate) enum Gathering {
    /// The terminals 1 of equipment that has sides.
    FirstTerminals,
    /// All other terminals of equipment.
    OtherTerminals,
    /// The terminals at a node.
    NodeTerminals,
}

impl Gathering {
    /// The property by which terminals name what they are gathered under.
    fn property(self) -> KnownProp
        ensures { result ≡ spec.property_of self }
    {
        match self {
            Gathering::FirstTerminals | Gathering::OtherTerminals =>
                KnownProp::CONDUCTING_EQUIPMENT,
            Gathering::NodeTerminals => KnownProp::CONNECTIVITY_NODE,
        }
    }

    /// Whether a subject is gathered under what it names.
    fn takes(self, subjects: &Subjects, key: Id, member: Id) -> bool
        ensures { result ≡ spec.is_taken self (known_of subjects.now key.number) (known_of subjects.now member.number) }
    {
        let terminal = subjects.at(member);
        if !terminal.is_terminal() {
            return false;
        }
        match self {
            Gathering::FirstTerminals => leads(&terminal, subjects, key),
            Gathering::OtherTerminals => !leads(&terminal, subjects, key),
            Gathering::NodeTerminals => true,
        }
    }
}

/// Whether a terminal is the first side of equipment that has sides.
fn leads(terminal: &Subject, subjects: &Subjects, owner: Id) -> bool
    ensures { result ≡ spec.leads (known_of subjects.now owner.number) terminal.now }
{
    terminal.number == Some(1) && subjects.at(owner).has_sides()
}

/// Gathers subjects of the statements under what they name.
pub(crate) fn gather(
    groups: &mut Groups<Id>,
    gathering: Gathering,
    subjects: &Subjects,
    statements: &StatementSet,
) -> Result<(), NoMemory>
    ensures { OnOk result ((x : ℕ) → members groups.new x ≡ members groups.old x ++ map as_id (spec.gathered gathering subjects.now statements.now x)) }
{
    for statement in statements.iter() {
        let Some(key) = named_by(gathering.property(), statement) else {
            continue;
        };
        if !gathering.takes(subjects, key, statement.subject) {
            continue;
        }
        groups.add(key, statement.subject)?;
    }
    Ok(())
}

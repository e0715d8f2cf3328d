//! The statements about one subject, read.

ghost use Rattle.std.specs.Prelude.{◌≡◌, option_map};
ghost use Rattle.std.specs.Option.{option_copied};
ghost use Rattle.cim_model.specs.Model.{id_said, said_in};
ghost use Rattle.cim_model.specs.Network.{first};
ghost use Rattle.cim_model.specs.Values.{as_id, as_length, code_said, kind_said, length_said, number_said, truth_said};
ghost use Rattle.cim_records.specs.Subject as spec;

use crate::subject::Subject;
use cim_model::{class_of, code_of, id_of, is_by, kind_of, length_of, number_of, truth_of};
use cim_words::{Class, Id, KnownProp, Length, Object, PhaseSet};
use statement_set::About;

/// All statements about one subject, and the class that they name.
#[derive(Drop)]
struct SubjectStatements<'a> {
    class: Option<Class>,
    statements: About<'a>,
}

/// What the statements about a subject say of it.
pub(crate) fn read_subject(statements: &About<'_>) -> Subject
    ensures { result ≡ spec.subject_in statements.now }
{
    SubjectStatements {
        class: class_in(statements),
        statements: statements.again(),
    }
    .subject()
}

/// The class that the first type statement with a class names.
fn class_in(statements: &About<'_>) -> Option<Class>
    ensures { result ≡ spec.class_said statements.now }
{
    for statement in statements.again() {
        if !is_by(KnownProp::RDF_TYPE, statement) {
            continue;
        }
        if let Some(class) = class_of(&statement.object) {
            return Some(class);
        }
    }
    None
}

/// The first object that statements say by a property.
fn object_in<'a>(statements: &About<'a>, known: KnownProp) -> Option<&'a Object>
    ensures { option_copied result ≡ first (said_in statements.now known) }
{
    for statement in statements.again() {
        if is_by(known, statement) {
            return Some(&statement.object);
        }
    }
    None
}

impl<'a> SubjectStatements<'a> {
    /// What the statements say of their subject.
    fn subject(&self) -> Subject
        ensures { result ≡ spec.subject_of self.now.class self.now.statements }
    {
        Subject {
            class: self.class,
            owner: self.id(KnownProp::CONDUCTING_EQUIPMENT),
            node: self.id(KnownProp::CONNECTIVITY_NODE),
            phases: self.code(KnownProp::PHASES),
            number: self.number(KnownProp::SEQUENCE_NUMBER),
            length: self.length(KnownProp::CONDUCTOR_LENGTH),
            is_open: self.is_open(),
            equipment: self.equipment(),
            phase: self.phase(),
            segment: self.segment(),
            mark_length: self.mark_length(),
        }
    }

    /// Whether a switch is open: as stated, else as it normally is, else a cut is open and every other switch closed.
    fn is_open(&self) -> bool
        ensures { result ≡ spec.open_in self.now.class self.now.statements }
    {
        let is_cut = self.class.is_some_and(Class::is_cut);
        let normally = self.truth(KnownProp::NORMAL_OPEN).unwrap_or(is_cut);
        self.truth(KnownProp::SWITCH_OPEN).unwrap_or(normally)
    }

    /// The equipment that a phase object names.
    fn equipment(&self) -> Option<Id>
        ensures { result ≡ option_map as_id (spec.equipment_in self.now.class self.now.statements) }
    {
        self.id(KnownProp::SEGMENT_OF_PHASE)
            .or(self.id(KnownProp::CONSUMER_OF_PHASE))
            .or(self.id(KnownProp::SWITCH_OF_PHASE))
    }

    /// The phase that a phase object states.
    fn phase(&self) -> Option<PhaseSet>
        ensures { result ≡ spec.phase_in self.now.class self.now.statements }
    {
        self.kind(KnownProp::SEGMENT_PHASE)
            .or(self.kind(KnownProp::CONSUMER_PHASE))
            .or(self.kind(KnownProp::PHASE_SIDE_1))
    }

    /// The segment of a clamp or a cut.
    fn segment(&self) -> Option<Id>
        ensures { result ≡ option_map as_id (spec.segment_in self.now.class self.now.statements) }
    {
        self.id(KnownProp::CLAMP_SEGMENT)
            .or(self.id(KnownProp::CUT_SEGMENT))
    }

    /// How far a clamp or a cut is from its segment's terminal 1: as stated, else at it.
    fn mark_length(&self) -> Length
        ensures { result ≡ as_length (spec.mark_length_in self.now.class self.now.statements) }
    {
        self.length(KnownProp::CLAMP_LENGTH)
            .or(self.length(KnownProp::CUT_LENGTH))
            .unwrap_or(Length { mm: 0 })
    }

    /// The first object of a property that counts on the class.
    fn object(&self, known: KnownProp) -> Option<&'a Object>
        ensures { option_copied result ≡ first (spec.counted self.now.class self.now.statements known) }
    {
        if self.class.is_some_and(|class| known.counts_on(class)) {
            object_in(&self.statements, known)
        } else {
            None
        }
    }

    fn id(&self, known: KnownProp) -> Option<Id>
        ensures { result ≡ option_map as_id (spec.value_in id_said self.now.class self.now.statements known) }
    {
        id_of(self.object(known)?)
    }

    fn code(&self, known: KnownProp) -> Option<PhaseSet>
        ensures { result ≡ spec.value_in code_said self.now.class self.now.statements known }
    {
        code_of(self.object(known)?)
    }

    fn kind(&self, known: KnownProp) -> Option<PhaseSet>
        ensures { result ≡ spec.value_in kind_said self.now.class self.now.statements known }
    {
        kind_of(self.object(known)?)
    }

    fn number(&self, known: KnownProp) -> Option<u32>
        ensures { result ≡ spec.value_in number_said self.now.class self.now.statements known }
    {
        number_of(self.object(known)?)
    }

    fn length(&self, known: KnownProp) -> Option<Length>
        ensures { result ≡ option_map as_length (spec.value_in length_said self.now.class self.now.statements known) }
    {
        length_of(self.object(known)?)
    }

    fn truth(&self, known: KnownProp) -> Option<bool>
        ensures { result ≡ spec.value_in truth_said self.now.class self.now.statements known }
    {
        truth_of(self.object(known)?)
    }
}

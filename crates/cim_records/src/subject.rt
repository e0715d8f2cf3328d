//! What is known of one subject.

ghost use Rattle.std.specs.Prelude.{◌≡◌, []};
ghost use Rattle.cim_model.specs.Network.{has_sides, is_class};
ghost use Rattle.cim_words.specs.Groups.{counts_on, is_equipment_class, is_node, is_terminal};
ghost use Rattle.cim_records.specs.Subject.{mark_of, subject_in};

use cim_words::{Class, Id, KnownProp, Length, PhaseSet};
use segment_cuts::Mark;

/// What the statements about a subject say of it, by the properties that count on its class.
#[derive(Clone, Copy, Drop)]
pub(crate) struct Subject {
    pub(crate) class: Option<Class>,
    /// The equipment that a terminal belongs to.
    pub(crate) owner: Option<Id>,
    /// The node at which a terminal stands.
    pub(crate) node: Option<Id>,
    /// The phases that a terminal states.
    pub(crate) phases: Option<PhaseSet>,
    /// Which terminal of its equipment a terminal is.
    pub(crate) number: Option<u32>,
    /// How long a segment is.
    pub(crate) length: Option<Length>,
    /// Whether a switch is open.
    pub(crate) is_open: bool,
    /// The equipment that a phase object names.
    pub(crate) equipment: Option<Id>,
    /// The phase that a phase object states.
    pub(crate) phase: Option<PhaseSet>,
    /// The segment on which a cut or a clamp stands.
    pub(crate) segment: Option<Id>,
    /// How far a cut or a clamp is from its segment's terminal 1.
    pub(crate) mark_length: Length,
}

impl Subject {
    /// What is known of an identifier that no statement is about.
    pub(crate) fn unknown() -> Subject
        ensures { result ≡ subject_in [] }
    {
        Subject {
            class: None,
            owner: None,
            node: None,
            phases: None,
            number: None,
            length: None,
            is_open: false,
            equipment: None,
            phase: None,
            segment: None,
            mark_length: Length { mm: 0 },
        }
    }

    /// Whether the subject is a terminal.
    pub(crate) fn is_terminal(&self) -> bool
        ensures { result ≡ is_class is_terminal self.now.class }
    {
        self.class.is_some_and(Class::is_terminal)
    }

    /// Whether it is a connectivity node.
    pub(crate) fn is_node(&self) -> bool
        ensures { result ≡ is_class is_node self.now.class }
    {
        self.class.is_some_and(Class::is_node)
    }

    /// Whether it is of a class of equipment.
    pub(crate) fn is_of_equipment(&self) -> bool
        ensures { result ≡ is_class is_equipment_class self.now.class }
    {
        self.class.is_some_and(Class::is_equipment)
    }

    /// Whether it is equipment whose terminals are its sides: a segment or a cut.
    pub(crate) fn has_sides(&self) -> bool
        ensures { result ≡ is_class has_sides self.now.class }
    {
        self.class
            .is_some_and(|class| class.is_segment() || class.is_cut())
    }

    /// The subject as a mark of its segment; a cut divides it.
    pub(crate) fn mark(&self, id: Id) -> Mark
        ensures { result ≡ mark_of id self.now }
    {
        Mark {
            id,
            length: self.mark_length,
            divides: self.class.is_some_and(Class::is_cut),
        }
    }

    /// Whether a property counts on it.
    pub(crate) fn bears(&self, known: KnownProp) -> bool
        ensures { result ≡ is_class (counts_on known) self.now.class }
    {
        self.class.is_some_and(|class| known.counts_on(class))
    }
}

//! What is looked up in an index.

ghost use Rattle.std.specs.Prelude.{◌≡◌, ◌↔◌, ℕ, Bool, Some, Contains, map, option_map};
ghost use Rattle.cim_words.specs.declared.class.Class.{Class};
ghost use Rattle.cim_model.specs.Marks.{marks_of};
ghost use Rattle.cim_model.specs.Model.{is_of, is_subject};
ghost use Rattle.cim_model.specs.Network as network;
ghost use Rattle.cim_model.specs.Phases.{union};
ghost use Rattle.cim_model.specs.Profile.{IsFaultless};
ghost use Rattle.cim_records.specs.Found.{known_of};
ghost use Rattle.cim_records.specs.Subject.{records};
ghost use Rattle.cim_model.specs.Stated.{terminals_at};
ghost use Rattle.cim_model.specs.Values.{as_id, as_length, number_of_id};
ghost use Rattle.cim_words.specs.declared.identifier.Id.{Id};
ghost use Rattle.segment_cuts.specs.Sections.{AreMarks};

use crate::index::Index;
use crate::subject::Subject;
use crate::tables::is_equipment;
use cim_model::{marks_divide_segments, subjects_have_one_class, terminals_belong_where_listed};
use cim_words::{Class, Id, Length, PhaseSet};
use segment_cuts::Mark;

impl Index {
    /// Whether a statement is about the identifier.
    pub fn is_subject(&self, id: Id) -> bool
        ensures { result ≡ is_subject self.now id.number }
    {
        self.tables.subjects.get(id).is_some()
    }

    /// Whether the identifier is that of equipment: a subject that is of a class of equipment or has a terminal.
    pub fn is_equipment(&self, id: Id) -> bool
        ensures { result ≡ network.is_equipment self.now id.number }
    {
        match self.tables.subjects.get(id) {
            Some(subject) => is_equipment(&subject, self.terminals_of(id)),
            None => false,
        }
    }

    /// The class that the subject's type names.
    pub fn class_of(&self, id: Id) -> Option<Class>
        ensures class { result ≡ network.class_in self.now id.number }
        ensures kinds { (test : Class → Bool) → is_of self.now test id.number ≡ network.is_class test result }
    {
        subjects_have_one_class();
        self.subject(id).class
    }

    /// The terminals of equipment: those of a segment and of a cut by side, others in ascending order.
    pub fn terminals_of(&self, id: Id) -> &[Id]
        ensures { result.now ≡ map as_id (network.terminals_by_side self.now id.number) }
    {
        self.tables.terminals.members(id)
    }

    /// The node at which a terminal stands.
    pub fn node_of(&self, terminal: Id) -> Option<Id>
        ensures { result ≡ option_map as_id (network.node_of self.now terminal.number) }
    {
        self.subject(terminal).node
    }

    /// The terminals at a node, in ascending order.
    pub fn at_node(&self, node: Id) -> &[Id]
        ensures list { result.now ≡ map as_id (terminals_at self.now node.number) }
        ensures just { (t : ℕ) → (network.node_of self.now t ≡ Some node.number) ↔ Contains (terminals_at self.now node.number) t }
    {
        terminals_belong_where_listed();
        self.tables.node_terminals.members(node)
    }

    /// The equipment that a terminal belongs to.
    pub fn owner_of(&self, terminal: Id) -> Option<Id>
        ensures { result ≡ option_map as_id (network.owner_of self.now terminal.number) }
    {
        self.subject(terminal).owner
    }

    /// The phases of a terminal; what is no terminal has none.
    pub fn phases_of(&self, terminal: Id) -> PhaseSet
        ensures { result ≡ network.phases_of self.now terminal.number }
    {
        let subject = self.subject(terminal);
        if !subject.is_terminal() {
            return PhaseSet::EMPTY;
        }
        match subject.phases {
            Some(phases) => phases,
            None => self.owner_phases(subject.owner),
        }
    }

    /// The phases of a segment.
    pub fn segment_phases(&self, id: Id) -> PhaseSet
        ensures { result ≡ network.segment_phases self.now id.number }
    {
        match self.tables.phases.get(id) {
            Some(phases) => phases,
            None => self.terminal_phases(self.terminals_of(id)),
        }
    }

    /// The length that a segment states.
    pub fn length_of(&self, segment: Id) -> Option<Length>
        ensures { result ≡ option_map as_length (network.length_in self.now segment.number) }
    {
        self.subject(segment).length
    }

    /// Whether a switch is open; what is no switch is not.
    pub fn open_of(&self, switch: Id) -> bool
        ensures { result ≡ network.open_of self.now switch.number }
    {
        self.subject(switch).is_open
    }

    /// All equipment, in ascending order.
    pub fn equipment(&self) -> &[Id]
        ensures { result.now ≡ map as_id (network.equipment self.now) }
    {
        &self.tables.equipment
    }

    /// All connectivity nodes, in ascending order.
    pub fn nodes(&self) -> &[Id]
        ensures { result.now ≡ map as_id (network.nodes self.now) }
    {
        &self.tables.nodes
    }

    /// The equipment that a phase object names.
    pub fn equipment_of(&self, part: Id) -> Option<Id>
        ensures { result ≡ option_map as_id (network.equipment_of self.now part.number) }
    {
        self.subject(part).equipment
    }

    /// The cuts and clamps of a segment, in ascending order of identifier; what is no segment has none. They are marks of a line.
    pub fn marks_of(&self, segment: Id) -> &[Mark]
        ensures list { result.now ≡ marks_of self.now segment.number }
        ensures line { AreMarks result.now }
    {
        marks_divide_segments();
        self.tables.marks.members(segment)
    }

    /// The segment on which a cut or a clamp stands; what is neither stands on none.
    pub fn segment_of(&self, mark: Id) -> Option<Id>
        ensures { result ≡ option_map as_id (network.segment_of self.now mark.number) }
    {
        self.subject(mark).segment
    }

    /// What is known of a subject; the model has no fault.
    fn subject(&self, id: Id) -> Subject
        ensures known { result ≡ known_of (records self.now) id.number }
        ensures faultless { IsFaultless self.now }
    {
        self.tables.subjects.at(id)
    }

    /// The phases of equipment, as its terminals take them: those that its phase objects state, else A, B and C.
    fn owner_phases(&self, owner: Option<Id>) -> PhaseSet
        ensures { result ≡ network.owner_phases self.now (option_map number_of_id owner) }
    {
        match owner {
            Some(equipment) => self.tables.phases.get(equipment).unwrap_or(PhaseSet::ABC),
            None => PhaseSet::ABC,
        }
    }

    /// The phases that any of these terminals has.
    fn terminal_phases(&self, terminals: &[Id]) -> PhaseSet
        ensures { result ≡ union (map (λ (id : Id). network.phases_of self.now id.number) terminals.now) }
    {
        let mut phases = PhaseSet::EMPTY;
        for terminal in terminals {
            phases = phases.join(self.phases_of(*terminal));
        }
        phases
    }
}

//! The tables of a model.

ghost use Rattle.std.specs.Prelude.{◌≡◌, ◌||◌, map, not, IfOk};
ghost use Rattle.cim_words.specs.Groups.{is_equipment_class};
ghost use Rattle.cim_model.specs.Model.{is_empty};
ghost use Rattle.cim_model.specs.Network as network;
ghost use Rattle.cim_model.specs.Profile.{IsFaultless};
ghost use Rattle.cim_model.specs.Values.{as_id};
ghost use Rattle.cim_records.specs.Tables.{HoldsGathered, HoldsMarks, HoldsNodeTerminals, HoldsPhases, HoldsTerminals};
ghost use Rattle.cim_records.specs.Subject.{records};

use crate::gathering::{Gathering, gather};
use crate::groups::Groups;
use crate::part_phases::PartPhases;
use crate::subject::Subject;
use crate::subjects::Subjects;
use cim_words::{Id, KnownProp, NoMemory};
use segment_cuts::Mark;
use statement_set::StatementSet;
use std::alloc::Global;

/// What is looked up in a model without fault.
#[derive(Drop)]
pub(crate) struct Tables {
    pub(crate) set: StatementSet,
    pub(crate) subjects: Subjects,
    pub(crate) terminals: Groups<Id>,
    pub(crate) node_terminals: Groups<Id>,
    pub(crate) phases: PartPhases,
    pub(crate) marks: Groups<Mark>,
    pub(crate) equipment: Vec<Id>,
    pub(crate) nodes: Vec<Id>,
    ghost faultless: { IsFaultless set },
    ghost of_subjects: { subjects ≡ records set },
    ghost of_terminals: { HoldsTerminals set terminals },
    ghost of_node_terminals: { HoldsNodeTerminals set node_terminals },
    ghost of_phases: { HoldsPhases set phases },
    ghost of_marks: { HoldsMarks set marks },
    ghost of_equipment: { equipment.items ≡ map as_id (network.equipment set) },
    ghost of_nodes: { nodes.items ≡ map as_id (network.nodes set) },
}

impl Tables {
    /// The tables of a set of statements that breaks no rule of the profile.
    pub(crate) fn build(alloc: Global, set: &StatementSet) -> Result<Tables, NoMemory>
        requires { IsFaultless set.now }
        ensures { IfOk result (λ tables. tables.set ≡ set.now) }
    {
        Tables::of(alloc, set.share()?)
    }

    /// The tables of such a set, which they keep.
    fn of(alloc: Global, set: StatementSet) -> Result<Tables, NoMemory>
        requires { IsFaultless set }
        ensures { IfOk result (λ tables. tables.set ≡ set) }
    {
        let subjects = Subjects::read(alloc, &set)?;
        let gathered = gather_all(alloc, &subjects, &set)?;
        let equipment = equipment(alloc, &subjects, &gathered.terminals, &set)?;
        let nodes = nodes(alloc, &subjects, &set)?;
        Ok(Tables {
            set,
            subjects,
            terminals: gathered.terminals,
            node_terminals: gathered.node_terminals,
            phases: gathered.phases,
            marks: gathered.marks,
            equipment,
            nodes,
        })
    }
}

/// What is gathered from the statements of a model, each under an identifier.
#[derive(Drop)]
struct Gathered {
    terminals: Groups<Id>,
    node_terminals: Groups<Id>,
    phases: PartPhases,
    marks: Groups<Mark>,
}

/// All that is gathered from the statements of a model.
fn gather_all(
    alloc: Global,
    subjects: &Subjects,
    statements: &StatementSet,
) -> Result<Gathered, NoMemory>
    requires faultless { IsFaultless statements.now }
    requires subjects { subjects.now ≡ records statements.now }
    ensures { IfOk result (λ gathered. HoldsGathered statements.now gathered.terminals gathered.node_terminals gathered.phases gathered.marks) }
{
    let terminals = terminals(alloc, subjects, statements)?;
    let node_terminals = node_terminals(alloc, subjects, statements)?;
    let phases = phases(alloc, subjects, statements)?;
    let marks = marks(alloc, subjects, statements)?;
    Ok(Gathered {
        terminals,
        node_terminals,
        phases,
        marks,
    })
}

/// The terminals of equipment: those of a segment and of a cut by side, others in ascending order.
fn terminals(
    alloc: Global,
    subjects: &Subjects,
    statements: &StatementSet,
) -> Result<Groups<Id>, NoMemory>
    requires faultless { IsFaultless statements.now }
    requires subjects { subjects.now ≡ records statements.now }
    ensures { IfOk result (HoldsTerminals statements.now) }
{
    let mut groups = Groups::empty(alloc);
    gather(&mut groups, Gathering::FirstTerminals, subjects, statements)?;
    gather(&mut groups, Gathering::OtherTerminals, subjects, statements)?;
    Ok(groups)
}

/// The terminals at nodes, in ascending order.
fn node_terminals(
    alloc: Global,
    subjects: &Subjects,
    statements: &StatementSet,
) -> Result<Groups<Id>, NoMemory>
    requires faultless { IsFaultless statements.now }
    requires subjects { subjects.now ≡ records statements.now }
    ensures { IfOk result (HoldsNodeTerminals statements.now) }
{
    let mut groups = Groups::empty(alloc);
    gather(&mut groups, Gathering::NodeTerminals, subjects, statements)?;
    Ok(groups)
}

/// The phases that the phase objects of equipment state.
fn phases(
    alloc: Global,
    subjects: &Subjects,
    statements: &StatementSet,
) -> Result<PartPhases, NoMemory>
    requires faultless { IsFaultless statements.now }
    requires subjects { subjects.now ≡ records statements.now }
    ensures { IfOk result (HoldsPhases statements.now) }
{
    let mut phases = PartPhases::empty(alloc);
    phases.gather(KnownProp::SEGMENT_OF_PHASE, subjects, statements)?;
    phases.gather(KnownProp::CONSUMER_OF_PHASE, subjects, statements)?;
    phases.gather(KnownProp::SWITCH_OF_PHASE, subjects, statements)?;
    Ok(phases)
}

/// The cuts and clamps of segments, in the order of the subjects.
fn marks(
    alloc: Global,
    subjects: &Subjects,
    statements: &StatementSet,
) -> Result<Groups<Mark>, NoMemory>
    requires faultless { IsFaultless statements.now }
    requires subjects { subjects.now ≡ records statements.now }
    ensures { IfOk result (HoldsMarks statements.now) }
{
    let mut marks = Groups::empty(alloc);
    for (id, subject) in subjects.iter() {
        let Some(segment) = subject.segment else {
            continue;
        };
        marks.add(segment, subject.mark(*id))?;
    }
    Ok(marks)
}

/// The equipment among the subjects, in their order.
fn equipment(
    alloc: Global,
    subjects: &Subjects,
    terminals: &Groups<Id>,
    statements: &StatementSet,
) -> Result<Vec<Id>, NoMemory>
    requires faultless { IsFaultless statements.now }
    requires subjects { subjects.now ≡ records statements.now }
    requires terminals { HoldsTerminals statements.now terminals.now }
    ensures { IfOk result (λ ids. ids.items ≡ map as_id (network.equipment statements.now)) }
{
    let mut equipment = Vec::new(alloc);
    for (id, subject) in subjects.iter() {
        if !is_equipment(subject, terminals.members(*id)) {
            continue;
        }
        equipment.push(*id)?;
    }
    Ok(equipment)
}

/// Whether a subject is of a class of equipment or has a terminal.
pub(crate) fn is_equipment(subject: &Subject, terminals: &[Id]) -> bool
    ensures { result ≡ (network.is_class is_equipment_class subject.now.class || not (is_empty terminals.now)) }
{
    subject.is_of_equipment() || !terminals.is_empty()
}

/// The connectivity nodes among the subjects, in their order.
fn nodes(alloc: Global, subjects: &Subjects, statements: &StatementSet) -> Result<Vec<Id>, NoMemory>
    requires faultless { IsFaultless statements.now }
    requires subjects { subjects.now ≡ records statements.now }
    ensures { IfOk result (λ ids. ids.items ≡ map as_id (network.nodes statements.now)) }
{
    let mut nodes = Vec::new(alloc);
    for (id, subject) in subjects.iter() {
        if !subject.is_node() {
            continue;
        }
        nodes.push(*id)?;
    }
    Ok(nodes)
}

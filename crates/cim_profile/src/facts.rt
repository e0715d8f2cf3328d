//! What is looked up in a model.

ghost use Rattle.std.specs.Prelude.{◌≡◌, Option, map, IfOk};
ghost use Rattle.std.specs.List.{filter, list_any};
ghost use Rattle.statement_set.specs.Set.{IsOrdered};
ghost use Rattle.cim_words.specs.declared.class.Class.{Class};
ghost use Rattle.cim_words.specs.declared.known_prop.KnownProp.{KnownProp};
ghost use Rattle.cim_words.specs.Properties as property;
ghost use Rattle.cim_profile.specs.Facts as spec;
ghost use Rattle.cim_profile.specs.MarkKind as marks;
ghost use Rattle.cim_profile.specs.declared.mark_kind.MarkKind.TheVariants.{Cut, Clamp};
ghost use Rattle.cim_model.specs.Values as values;
ghost use Rattle.cim_model.specs.Model as model;
ghost use Rattle.cim_model.specs.Stated as network;
ghost use Rattle.cim_model.specs.Profile.{is_thing};
ghost use Rattle.cim_profile.specs.declared.table.Row.{Row};

use crate::kind::Kind;
use crate::mark_kind::MarkKind;
use crate::stated::{naming, types, values};
use crate::table::{Row, Table};
use cim_words::{Class, Id, KnownProp, Length, NoMemory};
use statement_set::{StatementSet, Subjects};
use std::alloc::Global;

/// Tables over the statements of a model.
#[derive(Drop)]
pub(crate) struct Facts<'a> {
    statements: &'a StatementSet,
    types: Table<Option<Class>>,
    terminals: Table<Id>,
    terminals_at: Table<Id>,
    cuts: Table<Id>,
    clamps: Table<Id>,
    numbers: Table<Option<u32>>,
    lengths: Table<Option<Length>>,
    cut_lengths: Table<Option<Length>>,
    clamp_lengths: Table<Option<Length>>,
    ghost of_types: { spec.HoldsTypes statements.now types },
    ghost of_terminals: { spec.HoldsNaming property.conducting_equipment statements.now terminals },
    ghost of_terminals_at: { spec.HoldsNaming property.connectivity_node statements.now terminals_at },
    ghost of_cuts: { spec.HoldsNaming (marks.segment_of Cut) statements.now cuts },
    ghost of_clamps: { spec.HoldsNaming (marks.segment_of Clamp) statements.now clamps },
    ghost of_numbers: { spec.Holds values.number_said property.sequence_number statements.now numbers },
    ghost of_lengths: { spec.Holds spec.length_read property.conductor_length statements.now lengths },
    ghost of_cut_lengths: { spec.Holds spec.length_read (marks.length_of Cut) statements.now cut_lengths },
    ghost of_clamp_lengths: { spec.Holds spec.length_read (marks.length_of Clamp) statements.now clamp_lengths },
}

impl<'a> Facts<'a> {
    /// The tables over the statements of a set.
    pub(crate) fn of(alloc: Global, statements: &'a StatementSet) -> Result<Facts<'a>, NoMemory>
        ensures { IfOk result (λ facts. facts.statements.now ≡ statements.now) }
    {
        Ok(Facts {
            statements,
            types: types(alloc, statements)?,
            terminals: naming(alloc, statements, KnownProp::CONDUCTING_EQUIPMENT)?,
            terminals_at: naming(alloc, statements, KnownProp::CONNECTIVITY_NODE)?,
            cuts: naming(alloc, statements, MarkKind::Cut.segment())?,
            clamps: naming(alloc, statements, MarkKind::Clamp.segment())?,
            numbers: values(alloc, statements, KnownProp::SEQUENCE_NUMBER)?,
            lengths: values(alloc, statements, KnownProp::CONDUCTOR_LENGTH)?,
            cut_lengths: values(alloc, statements, MarkKind::Cut.length())?,
            clamp_lengths: values(alloc, statements, MarkKind::Clamp.length())?,
        })
    }

    /// Goes over the subjects, in order, each with the statements about it.
    pub(crate) fn subjects(&self) -> Subjects<'a>
        ensures list { result ≡ self.now.statements.now }
        ensures ordered { IsOrdered self.now.statements.now }
    {
        self.statements.subjects()
    }

    /// Rows with the classes that a subject's type statements name.
    pub(crate) fn types_of(&self, subject: Id) -> &[Row<Option<Class>>]
        ensures { spec.NameTypes self.now.statements.now subject.number (map (λ (row : Row (Option Class)). row.value) result.now) }
    {
        self.types.at(subject)
    }

    /// Whether a subject is of a kind.
    pub(crate) fn is_of(&self, kind: Kind, subject: Id) -> bool
        ensures { result ≡ model.is_of self.now.statements.now (spec.kind_test kind) subject.number }
    {
        names_any(kind, self.types_of(subject))
    }

    /// Whether a subject has a type, and none of a part of the network that is no equipment.
    pub(crate) fn is_thing(&self, subject: Id) -> bool
        ensures { result ≡ is_thing self.now.statements.now subject.number }
    {
        let types = self.types_of(subject);
        !types.is_empty() && !names_any(Kind::Part, types)
    }

    /// The terminals of a piece of equipment.
    pub(crate) fn terminals_of(&self, alloc: Global, equipment: Id) -> Result<Vec<Id>, NoMemory>
        ensures { IfOk result (λ ids. map values.number_of_id ids.items ≡ network.terminals_of self.now.statements.now equipment.number) }
    {
        self.those_of(alloc, &self.terminals, equipment, Kind::Terminal)
    }

    /// The terminals at a node.
    pub(crate) fn terminals_at(&self, alloc: Global, node: Id) -> Result<Vec<Id>, NoMemory>
        ensures { IfOk result (λ ids. map values.number_of_id ids.items ≡ network.terminals_at self.now.statements.now node.number) }
    {
        self.those_of(alloc, &self.terminals_at, node, Kind::Terminal)
    }

    /// The marks of a kind of a segment.
    pub(crate) fn marks_of(
        &self,
        alloc: Global,
        kind: MarkKind,
        segment: Id,
    ) -> Result<Vec<Id>, NoMemory>
        ensures { IfOk result (λ ids. map values.number_of_id ids.items ≡ marks.marks_of self.now.statements.now kind segment.number) }
    {
        self.those_of(alloc, self.marks(kind), segment, kind.class())
    }

    /// Those that name a segment as marks of a kind do.
    pub(crate) fn marks(&self, kind: MarkKind) -> &Table<Id>
        ensures { spec.HoldsNaming (marks.segment_of kind) self.now.statements.now result.now }
    {
        match kind {
            MarkKind::Cut => &self.cuts,
            MarkKind::Clamp => &self.clamps,
        }
    }

    /// Those that name a subject, as a table of them says, and are of a kind.
    fn those_of(
        &self,
        alloc: Global,
        table: &Table<Id>,
        named: Id,
        kind: Kind,
    ) -> Result<Vec<Id>, NoMemory>
        ensures { (k : KnownProp) → spec.HoldsNaming k self.now.statements.now table.now → IfOk result (λ ids. map values.number_of_id ids.items
            ≡ filter (model.is_of self.now.statements.now (spec.kind_test kind)) (model.naming self.now.statements.now k named.number)) }
    {
        table
            .at(named)
            .iter()
            .map(|row| row.value)
            .filter(|id| self.is_of(kind, *id))
            .collect(alloc)
    }

    /// The sequence numbers of a terminal.
    pub(crate) fn numbers_of(&self, alloc: Global, terminal: Id) -> Result<Vec<u32>, NoMemory>
        ensures { IfOk result (λ numbers. numbers.items ≡ network.numbers_of self.now.statements.now terminal.number) }
    {
        present(alloc, self.numbers.at(terminal))
    }

    /// The lengths that a segment states.
    pub(crate) fn stated_lengths(&self, alloc: Global, segment: Id) -> Result<Vec<Length>, NoMemory>
        ensures { IfOk result (λ lengths. map values.mm_of lengths.items ≡ network.stated_lengths self.now.statements.now segment.number) }
    {
        if self.is_of(Kind::Segment, segment) {
            present(alloc, self.lengths.at(segment))
        } else {
            Ok(Vec::new(alloc))
        }
    }

    /// The length of a mark of a kind, which is 0 where none is stated.
    pub(crate) fn mark_lengths(
        &self,
        alloc: Global,
        kind: MarkKind,
        mark: Id,
    ) -> Result<Vec<Length>, NoMemory>
        ensures { IfOk result (λ lengths. map values.mm_of lengths.items ≡ marks.mark_lengths self.now.statements.now kind mark.number) }
    {
        let rows = self.lengths_of(kind).at(mark);
        let mut lengths = present(alloc, rows)?;
        if rows.is_empty() {
            lengths.push(Length { mm: 0 })?;
        }
        Ok(lengths)
    }

    /// The lengths that are stated as those of marks of a kind.
    fn lengths_of(&self, kind: MarkKind) -> &Table<Option<Length>>
        ensures { spec.Holds spec.length_read (marks.length_of kind) self.now.statements.now result.now }
    {
        match kind {
            MarkKind::Cut => &self.cut_lengths,
            MarkKind::Clamp => &self.clamp_lengths,
        }
    }
}

/// The values that are there in rows.
fn present<V: Copy>(alloc: Global, rows: &[Row<Option<V>>]) -> Result<Vec<V>, NoMemory>
    ensures { IfOk result (λ values. values.items ≡ spec.present (map (λ (row : Row (Option V)). row.value) rows.now)) }
{
    rows.iter().filter_map(|row| row.value).collect(alloc)
}

/// Whether a row names a class of a kind.
pub(crate) fn names_any(kind: Kind, rows: &[Row<Option<Class>>]) -> bool
    ensures { result ≡ list_any (spec.kind_test kind) (spec.present (map (λ (row : Row (Option Class)). row.value) rows.now)) }
{
    rows.iter().any(|row| names(kind, row.value))
}

fn names(kind: Kind, named: Option<Class>) -> bool
    ensures { result ≡ spec.is_present_and (spec.kind_test kind) named }
{
    match named {
        Some(class) => kind.holds_of(class),
        None => false,
    }
}

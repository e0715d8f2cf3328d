//! Tables of what statements say by a property.

ghost use Rattle.std.specs.Prelude.{◌≡◌, Option, IfOk, IsTrue, map};
ghost use Rattle.std.specs.List.{filter, filter_map};
ghost use Rattle.cim_words.specs.declared.class.Class.{Class};
ghost use Rattle.cim_words.specs.declared.object.Object.{Object};
ghost use Rattle.cim_model.specs.Model as model;
ghost use Rattle.cim_model.specs.Values.{number_said};
ghost use Rattle.cim_profile.specs.Facts as spec;
ghost use Rattle.cim_profile.specs.declared.table.Row.{Row};

use crate::table::{Row, Table};
use cim_model::{class_of, is_by, length_of, named_by, number_of};
use cim_words::{Class, Id, KnownProp, Length, NoMemory, Object, Statement};
use statement_set::StatementSet;
use std::alloc::Global;

/// What is read of the objects that statements say.
pub(crate) trait Reading: Copy {
    ghost read: { Object → Option Self };

    /// What an object says, if it says such a value.
    fn of(object: &Object) -> Option<Self>
        ensures { result ≡ read object.now };
}

impl Reading for Class {
    ghost read = { model.class_named };

    fn of(object: &Object) -> Option<Class> {
        class_of(object)
    }
}

impl Reading for u32 {
    ghost read = { number_said };

    fn of(object: &Object) -> Option<u32> {
        number_of(object)
    }
}

impl Reading for Length {
    ghost read = { spec.length_read };

    fn of(object: &Object) -> Option<Length> {
        length_of(object)
    }
}

/// The values that a property states, by subject.
pub(crate) fn values<V: Reading>(
    alloc: Global,
    statements: &StatementSet,
    known: KnownProp,
) -> Result<Table<Option<V>>, NoMemory>
    ensures { IfOk result (spec.Holds V.read known statements.now) }
{
    Table::of(rows(alloc, statements, known)?)
}

/// The classes that type statements name, by subject. A class that was just named is not kept again, so ordered statements leave few rows a subject.
pub(crate) fn types(
    alloc: Global,
    statements: &StatementSet,
) -> Result<Table<Option<Class>>, NoMemory>
    ensures { IfOk result (spec.HoldsTypes statements.now) }
{
    let mut rows = rows(alloc, statements, KnownProp::RDF_TYPE)?;
    equal_rows_are_one();
    rows.dedup();
    Table::of(rows)
}

/// Rows are one where they count as equal.
fn equal_rows_are_one()
    ensures { (one other : Row (Option Class)) → IsTrue (⟦<Row<Option<Class>> as PartialEq>⟧.eq one other) → one ≡ other }
{}

/// A row for each statement by a property, in their order.
fn rows<V: Reading>(
    alloc: Global,
    statements: &StatementSet,
    known: KnownProp,
) -> Result<Vec<Row<Option<V>>>, NoMemory>
    ensures { IfOk result (λ rows. rows.items ≡ map (spec.row_read V.read) (filter (model.is_by known) statements.now)) }
{
    statements
        .iter()
        .filter(|statement| is_by(known, statement))
        .map(|statement| Row {
            key: statement.subject,
            value: V::of(&statement.object),
        })
        .collect(alloc)
}

/// The subjects that name another by a property, by what they name.
pub(crate) fn naming(
    alloc: Global,
    statements: &StatementSet,
    known: KnownProp,
) -> Result<Table<Id>, NoMemory>
    ensures { IfOk result (spec.HoldsNaming known statements.now) }
{
    let rows = statements
        .iter()
        .filter_map(|statement| naming_row(known, statement))
        .collect(alloc)?;
    Table::of(rows)
}

fn naming_row(known: KnownProp, statement: &Statement) -> Option<Row<Id>>
    ensures { result ≡ spec.naming_row known statement.now }
{
    Some(Row {
        key: named_by(known, statement)?,
        value: statement.subject,
    })
}

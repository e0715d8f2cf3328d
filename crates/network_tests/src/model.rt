//! Models of a few statements.

ghost use Rattle.std.specs.Prelude.{IfOk, IsTrue};
ghost use Rattle.cim_words.specs.Object.{is_proper_object};

use cim_words::{Id, KnownProp, NoMemory, Object, Prop, Statement, Statements, Word};
use statement_set::{SetRefusal, StatementSet};
use std::alloc::Global;

pub(crate) const SEGMENT: Said = Said::Name("http://iec.ch/TC57/CIM100#ACLineSegment");

pub(crate) const CUT: Said = Said::Name("http://iec.ch/TC57/CIM100#Cut");

pub(crate) const CLAMP: Said = Said::Name("http://iec.ch/TC57/CIM100#Clamp");

pub(crate) const CONSUMER: Said = Said::Name("http://iec.ch/TC57/CIM100#EnergyConsumer");

pub(crate) const TERMINAL: Said = Said::Name("http://iec.ch/TC57/CIM100#Terminal");

pub(crate) const NODE: Said = Said::Name("http://iec.ch/TC57/CIM100#ConnectivityNode");

pub(crate) const SEGMENT_PHASE: Said = Said::Name("http://iec.ch/TC57/CIM100#ACLineSegmentPhase");

pub(crate) const SWITCH_PHASE: Said = Said::Name("http://iec.ch/TC57/CIM100#SwitchPhase");

pub(crate) const HOUSE: Said = Said::Name("http://example.org/House");

pub(crate) const KIND_A: Said = Said::Name("http://iec.ch/TC57/CIM100#SinglePhaseKind.A");

pub(crate) const KIND_B: Said = Said::Name("http://iec.ch/TC57/CIM100#SinglePhaseKind.B");

/// What a statement says.
#[derive(Clone, Copy, Drop)]
pub(crate) enum Said {
    Id(u128),
    Name(&'static str),
    Text(&'static str),
}

/// A statement's subject, its property and what it says.
pub(crate) type Row = (u128, KnownProp, Said);

fn object(alloc: Global, said: Said) -> Result<Object, NoMemory>
    ensures { IfOk result (λ object. IsTrue (is_proper_object object)) }
{
    match said {
        Said::Id(number) => Ok(Object::Id(Id::of(number))),
        Said::Name(text) => Object::of_iri(alloc, text),
        Said::Text(text) => Ok(Object::Text(Word::of(alloc, text)?)),
    }
}

/// Appends the statements of rows.
pub(crate) fn append(statements: &mut Vec<Statement>, rows: &[Row]) -> Result<(), NoMemory> {
    let alloc = *statements.allocator();
    for row in rows {
        let (number, known, said) = *row;
        statements.push(Statement {
            subject: Id::of(number),
            prop: Prop::Known(known),
            object: object(alloc, said)?,
        })?;
    }
    Ok(())
}

/// The set of the statements of several groups of rows.
pub(crate) fn set_of(alloc: Global, groups: &[&[Row]]) -> Result<StatementSet, SetRefusal> {
    let mut statements = Vec::new(alloc);
    for rows in groups {
        append(&mut statements, rows)?;
    }
    StatementSet::from_list(alloc, Statements::of(statements))
}

//! Differences on a model of almost as many statements as there may be.

use crate::judging::judged;
use cim_words::{Id, KnownProp, NoMemory, Object, Prop, Statement, Statements};
use room_words::{DiffRefusal, Overlay};
use statement_set::StatementSet;
use std::alloc::Global;
use std::test::Fail;

/// Documents, and how many statements there are then: those that are too many are not in the model.
const DOCUMENTS: [(&str, u64); 6] = [
    ("%forward\n~f1> <p> \"v\" .\n%end", 1_000_000),
    (
        "%forward\n~f1> <p> \"v\" .\n~f1> <p> \"v\" .\n%end",
        1_000_000,
    ),
    (
        "%forward\n~f1> <p> \"v\" .\n~f2> <p> \"v\" .\n%end",
        1_000_001,
    ),
    // It has a fault too, which comes later.
    (
        "%forward\n~f1> a <:ACLineSegment> .\n~f2> <p> \"v\" .\n~f3> <p> \"v\" .\n%end",
        1_000_002,
    ),
    (
        "%reverse\n~01> <:Switch.open> ~01> .\n%forward\n~f1> <p> \"v\" .\n~f2> <p> \"v\" .\n%end",
        1_000_000,
    ),
    (
        "%reverse\n~01> <:Switch.open> ~01> .\n%forward\n~01> <:Switch.open> ~01> .\n~f1> <p> \"v\" .\n~f2> <p> \"v\" .\n%end",
        1_000_001,
    ),
];

/// 999,999 statements that break no rule: of subjects that have no class no property counts.
fn almost_full(alloc: Global) -> Result<Statements, NoMemory> {
    let first = 0x0000_0000_0000_4000_8000_0000_0000_0100_u128;
    let mut statements = Vec::new(alloc);
    push(&mut statements, Id::of(first - 0xFF))?;
    for number in 1..999_999_u64 {
        push(&mut statements, Id::of(first + u128::from(number)))?;
    }
    Ok(Statements::of(statements))
}

fn push(statements: &mut Vec<Statement>, id: Id) -> Result<(), NoMemory> {
    statements.push(Statement {
        subject: id,
        prop: Prop::Known(KnownProp::SWITCH_OPEN),
        object: Object::Id(id),
    })?;
    Ok(())
}

/// How many statements the model that a difference leaves has, or would have.
fn count_after(alloc: Global, set: &StatementSet, short: &str) -> Result<u64, Fail> {
    match judged(alloc, set, &Overlay::empty(alloc), short)? {
        Ok(model) => Ok(model.len() as u64),
        Err(DiffRefusal::TooMany(count)) => Ok(count),
        Err(_) => Err(Fail::new("another refusal")),
    }
}

#[test]
fn counts_the_statements_of_the_result(rt: HostRuntime) -> Result<(), Fail> {
    let alloc = rt.alloc();
    let set = StatementSet::from_list(alloc, almost_full(alloc)?)?;
    assert_eq!(rt; set.len(), 999_999);
    for (short, want) in DOCUMENTS {
        assert_eq!(rt; count_after(alloc, &set, short)?, want, "{short}");
    }
    Ok(())
}

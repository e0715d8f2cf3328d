//! Sets of a few statements.

use cim_words::{Id, KnownProp, NoMemory, Object, Prop, Statement, Statements, Word};
use statement_set::{About, SetRefusal, StatementSet};
use std::alloc::Global;
use std::test::Fail;

type Row = (u128, &'static str);

/// A statement about a number with a text.
fn statement(alloc: Global, (number, text): Row) -> Result<Statement, NoMemory> {
    Ok(Statement {
        subject: Id::of(number),
        prop: Prop::of_iri(alloc, "http://p")?,
        object: Object::Text(Word::of(alloc, text)?),
    })
}

fn listed(alloc: Global, rows: &[Row]) -> Result<Statements, NoMemory> {
    let mut items = Vec::new(alloc);
    for row in rows {
        items.push(statement(alloc, *row)?)?;
    }
    Ok(Statements::of(items))
}

fn set(alloc: Global, rows: &[Row]) -> Result<StatementSet, SetRefusal> {
    StatementSet::from_list(alloc, listed(alloc, rows)?)
}

fn shows(alloc: Global, statements: About<'_>, rows: &[Row]) -> Result<bool, NoMemory> {
    let want = listed(alloc, rows)?;
    Ok(
        statements.again().count() == rows.len()
            && statements
                .zip(want.as_slice())
                .all(|(one, other)| one == other),
    )
}

/// Lists, and the order of their sets.
const ORDERED: &[(&[Row], &[Row])] = &[
    (&[], &[]),
    (&[(1, "b"), (1, "a")], &[(1, "a"), (1, "b")]),
    (&[(2, "a"), (1, "b"), (2, "a")], &[(1, "b"), (2, "a")]),
];

/// Whether the set of a list has this order.
fn is_ordered(alloc: Global, given: &[Row], want: &[Row]) -> Result<bool, SetRefusal> {
    let made = set(alloc, given)?;
    Ok(made.len() == want.len() && shows(alloc, made.iter(), want)?)
}

#[test]
fn puts_in_order(rt: HostRuntime) -> Result<(), Fail> {
    for (given, want) in ORDERED {
        assert!(rt; is_ordered(rt.alloc(), given, want)?);
    }
    Ok(())
}

/// The set that is changed.
const FIRST: &[Row] = &[(3, "a"), (1, "a")];

/// Other lists, the union of the set with each, and the difference.
const CHANGES: &[(&[Row], &[Row], &[Row])] = &[
    (&[], &[(1, "a"), (3, "a")], &[(1, "a"), (3, "a")]),
    (&[(3, "a")], &[(1, "a"), (3, "a")], &[(1, "a")]),
    (
        &[(2, "a"), (1, "b")],
        &[(1, "a"), (1, "b"), (2, "a"), (3, "a")],
        &[(1, "a"), (3, "a")],
    ),
];

/// Whether the set has this union with a list.
fn is_union(alloc: Global, other: &[Row], want: &[Row]) -> Result<bool, SetRefusal> {
    let more = set(alloc, FIRST)?.with(alloc, &listed(alloc, other)?)?;
    Ok(shows(alloc, more.iter(), want)?)
}

/// Whether the set has this difference from a list.
fn is_difference(alloc: Global, other: &[Row], want: &[Row]) -> Result<bool, SetRefusal> {
    let less = set(alloc, FIRST)?.without(alloc, &listed(alloc, other)?)?;
    Ok(shows(alloc, less.iter(), want)?)
}

#[test]
fn changes(rt: HostRuntime) -> Result<(), Fail> {
    for (other, union, difference) in CHANGES {
        assert!(rt; is_union(rt.alloc(), other, union)?);
        assert!(rt; is_difference(rt.alloc(), other, difference)?);
    }
    Ok(())
}

/// The set in which subjects are looked up, and what is said about each.
const LOOKED_IN: &[Row] = &[(2, "a"), (1, "b"), (1, "a"), (3, "a")];

const ABOUT: &[(u128, &[Row])] = &[
    (0, &[]),
    (1, &[(1, "a"), (1, "b")]),
    (2, &[(2, "a")]),
    (3, &[(3, "a")]),
];

/// Whether a set says this about a subject, and has the subject's statement with the text `a` where it is above 0.
fn says(alloc: Global, set: &StatementSet, subject: u128, want: &[Row]) -> Result<bool, NoMemory> {
    let has = set.contains(&statement(alloc, (subject, "a"))?);
    Ok(has == (subject > 0) && shows(alloc, set.about(Id::of(subject)), want)?)
}

#[test]
fn looks_up(rt: HostRuntime) -> Result<(), Fail> {
    let first = set(rt.alloc(), LOOKED_IN)?.share()?;
    for (subject, want) in ABOUT {
        assert!(rt;
            says(rt.alloc(), &first, *subject, want)?,
            "about {subject}"
        );
    }
    Ok(())
}

/// Statements, and how many there are about each of their subjects.
const SEVERAL: &[Row] = &[(2, "a"), (1, "b"), (7, "c"), (1, "a"), (7, "a")];

const COUNTS: &[(u128, usize)] = &[(1, 2), (2, 1), (7, 2)];

/// Whether a set has these subjects, each with so many statements.
fn has_counts(set: &StatementSet, counts: &[(u128, usize)]) -> bool {
    for ((id, about), (number, count)) in set.subjects().zip(counts) {
        if id.number != *number || about.count() != *count {
            return false;
        }
    }
    set.subjects().count() == counts.len()
}

#[test]
fn goes_over_subjects(rt: HostRuntime) -> Result<(), Fail> {
    assert!(rt; has_counts(&set(rt.alloc(), SEVERAL)?, COUNTS));
    assert!(rt; set(rt.alloc(), &[])?.is_empty());
    Ok(())
}

fn numbered(number: u32) -> Statement {
    Statement {
        subject: Id::of(u128::from(number)),
        prop: Prop::Known(KnownProp::CONDUCTING_EQUIPMENT),
        object: Object::Id(Id::of(0)),
    }
}

/// Statements about so many numbers from 0 on.
fn many(alloc: Global, count: u32) -> Result<Statements, NoMemory> {
    let mut items = Vec::new(alloc);
    for number in 0..count {
        items.push(numbered(number))?;
    }
    Ok(Statements::of(items))
}

fn one(alloc: Global, number: u32) -> Result<Statements, NoMemory> {
    let mut items = Vec::new(alloc);
    items.push(numbered(number))?;
    Ok(Statements::of(items))
}

/// How many statements a set has with one about a number.
fn count_with(alloc: Global, set: &StatementSet, number: u32) -> Result<usize, SetRefusal> {
    Ok(set.with(alloc, &one(alloc, number)?)?.len())
}

/// Of how many statements the set of those about so many numbers is.
fn count_of(alloc: Global, count: u32) -> Result<usize, SetRefusal> {
    Ok(StatementSet::from_list(alloc, many(alloc, count)?)?.len())
}

#[test]
fn holds_a_million(rt: HostRuntime) -> Result<(), Fail> {
    let alloc = rt.alloc();
    let most = StatementSet::from_list(alloc, many(alloc, 1_000_000)?)?;
    assert!(rt; most.len() == 1_000_000);
    assert!(rt; count_with(alloc, &most, 999_999) == Ok(1_000_000));
    assert!(rt; count_with(alloc, &most, 1_000_000) == Err(SetRefusal::TooMany(1_000_001)));
    Ok(())
}

#[test]
fn holds_no_more(rt: HostRuntime) {
    assert!(rt; count_of(rt.alloc(), 1_000_001) == Err(SetRefusal::TooMany(1_000_001)));
}

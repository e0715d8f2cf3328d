//! Identifiers, lengths, values, phases and statements, by examples.

ghost use Rattle.std.specs.Prelude.{IfOk, IsTrue};
ghost use Rattle.cim_words.specs.Object.{is_proper_object};

use cim_words::{
    Id, Length, Listed, NoMemory, Object, PhaseSet, Prop, Statement, Word, read_sequence_number,
    read_truth,
};
use std::alloc::Global;
use std::test::Fail;

const LOWER: &str = "01234567-89ab-cdef-fedc-ba9876543210";

const NUMBER: Option<u128> = Some(0x0123_4567_89ab_cdef_fedc_ba98_7654_3210);

/// Texts, and the number that each spells as a plain identifier and as an IRI.
const IDENTIFIERS: &[(&str, Option<u128>, Option<u128>)] = &[
    (LOWER, NUMBER, None),
    ("01234567-89AB-CDEF-FEDC-BA9876543210", NUMBER, None),
    ("00000000-0000-0000-0000-000000000000", Some(0), None),
    (
        "ffffffff-ffff-ffff-ffff-ffffffffffff",
        Some(u128::MAX),
        None,
    ),
    ("{01234567-89ab-cdef-fedc-ba9876543210}", None, None),
    ("0123456789abcdeffedcba9876543210", None, None),
    ("0123456789ab-cdef-fedc-ba9876543210", None, None),
    ("01234567-89ab-cdef-fedc-ba987654321g", None, None),
    ("_01234567-89ab-cdef-fedc-ba9876543210", None, None),
    ("", None, None),
    ("#_", None, None),
    (
        "urn:uuid:01234567-89ab-cdef-fedc-ba9876543210",
        None,
        NUMBER,
    ),
    (
        "urn:uuid:01234567-89AB-CDEF-FEDC-BA9876543210",
        None,
        NUMBER,
    ),
    (
        "http://x#_01234567-89ab-cdef-fedc-ba9876543210",
        None,
        NUMBER,
    ),
    ("#_01234567-89ab-cdef-fedc-ba9876543210", None, NUMBER),
    ("http://x_01234567-89ab-cdef-fedc-ba9876543210", None, None),
    ("http://x#01234567-89ab-cdef-fedc-ba9876543210", None, None),
    ("URN:UUID:01234567-89ab-cdef-fedc-ba9876543210", None, None),
    ("xurn:uuid:01234567-89ab-cdef-fedc-ba9876543210", None, None),
    (
        "http://x#_01234567-89ab-cdef-fedc-ba9876543210/",
        None,
        None,
    ),
    ("urn:uuid:01234567-89ab-cdef-fedc-ba987654321", None, None),
];

fn plain_number(text: &str) -> Option<u128> {
    Some(Id::read_plain(text).ok()?.number)
}

fn iri_number(text: &str) -> Option<u128> {
    Some(Id::read_iri(text).ok()?.number)
}

#[test]
fn identifiers(rt: HostRuntime) {
    for (text, plain, iri) in IDENTIFIERS {
        assert!(rt; plain_number(text) == *plain, "plain, at {text}");
        assert!(rt; iri_number(text) == *iri, "IRI, at {text}");
    }
    let number = NUMBER.unwrap_or(0);
    assert!(rt; Id::of(number).text().as_slice() == LOWER.as_bytes());
}

/// Texts, and the length in millimetres that each spells.
const LENGTHS: &[(&str, Option<u64>)] = &[
    ("1.2345E1", Some(12345)),
    ("0.0009", Some(0)),
    ("-0", Some(0)),
    ("1e9", Some(1_000_000_000_000)),
    ("+.5", Some(500)),
    ("5.", Some(5000)),
    ("0.001", Some(1)),
    ("1E+2", Some(100_000)),
    ("25e-1", Some(2500)),
    ("-0.000", Some(0)),
    ("0e999", Some(0)),
    ("1e-999", Some(0)),
    ("000000000000000000000000000001", Some(1000)),
    ("100000000000.000e-2", Some(1_000_000_000_000)),
    ("1000000000.001", None),
    ("-1", None),
    ("1e", None),
    ("", None),
    (".", None),
    ("-", None),
    ("1e1000", None),
    ("1e+", None),
    ("--1", None),
    ("1.2.3", None),
    ("1 ", None),
    (" 1", None),
    ("0x1", None),
    ("-0.0001", None),
    ("1e10", None),
    ("1e999", None),
    ("0000000000000000000000000000001", None),
];

/// Texts, and the truth value and the sequence number that each spells.
const VALUES: &[(&str, Option<bool>, Option<u32>)] = &[
    ("true", Some(true), None),
    ("false", Some(false), None),
    ("1", Some(true), Some(1)),
    ("0", Some(false), Some(0)),
    ("True", None, None),
    (" true", None, None),
    ("01", None, Some(1)),
    ("002", None, Some(2)),
    ("999999999", None, Some(999_999_999)),
    ("1000000000", None, None),
    ("0000000001", None, None),
    ("+1", None, None),
    ("1a", None, None),
    ("", None, None),
];

fn millimetres(text: &str) -> Option<u64> {
    Some(Length::read(text).ok()?.mm)
}

#[test]
fn lengths(rt: HostRuntime) {
    for (text, want) in LENGTHS {
        assert!(rt; millimetres(text) == *want, "at {text}");
    }
}

#[test]
fn values(rt: HostRuntime) {
    for (text, truth, number) in VALUES {
        assert!(rt; read_truth(text) == *truth, "truth, at {text}");
        assert!(rt; read_sequence_number(text) == *number, "number, at {text}");
    }
}

const A: PhaseSet = PhaseSet {
    a: true,
    ..PhaseSet::EMPTY
};

const B: PhaseSet = PhaseSet {
    b: true,
    ..PhaseSet::EMPTY
};

const C: PhaseSet = PhaseSet {
    c: true,
    ..PhaseSet::EMPTY
};

const N: PhaseSet = PhaseSet {
    n: true,
    ..PhaseSet::EMPTY
};

const S1: PhaseSet = PhaseSet {
    s1: true,
    ..PhaseSet::EMPTY
};

const S2: PhaseSet = PhaseSet {
    s2: true,
    ..PhaseSet::EMPTY
};

/// The texts of sets, the phases of each, and whether PhaseCode and SinglePhaseKind name it.
const PHASE_TEXTS: &[(&str, &[PhaseSet], bool, bool)] = &[
    ("ABCN", &[A, B, C, N], true, false),
    ("ABC", &[A, B, C], true, false),
    ("ABN", &[A, B, N], true, false),
    ("ACN", &[A, C, N], true, false),
    ("BCN", &[B, C, N], true, false),
    ("AB", &[A, B], true, false),
    ("AC", &[A, C], true, false),
    ("BC", &[B, C], true, false),
    ("AN", &[A, N], true, false),
    ("BN", &[B, N], true, false),
    ("CN", &[C, N], true, false),
    ("A", &[A], true, true),
    ("B", &[B], true, true),
    ("C", &[C], true, true),
    ("N", &[N], true, true),
    ("s1", &[S1], true, true),
    ("s2", &[S2], true, true),
    ("s12", &[S1, S2], true, false),
    ("s1N", &[S1, N], true, false),
    ("s2N", &[S2, N], true, false),
    ("s12N", &[S1, S2, N], true, false),
    ("As12", &[A, S1, S2], false, false),
    ("BCs1", &[B, C, S1], false, false),
    ("-", &[], false, false),
];

/// Texts of no set.
const NO_PHASES: &[&str] = &[
    "", "none", "X", "BA", "CBA", "AA", "s21", "NA", "a", "A-", "--", "s", "ABC ",
];

fn union(parts: &[PhaseSet]) -> PhaseSet {
    let mut set = PhaseSet::EMPTY;
    for part in parts {
        set = set.join(*part);
    }
    set
}

/// Whether a set is written as this text, after what stands there.
fn is_written(alloc: Global, set: PhaseSet, text: &str) -> Result<bool, NoMemory> {
    let mut written = Vec::from_slice(alloc, b"at ")?;
    set.write_text(&mut written)?;
    Ok(written.strip_prefix(b"at ") == Some(text.as_bytes()))
}

/// Whether a text is that of a set, and names it as a code and as a kind.
fn names(text: &str, set: PhaseSet, is_code: bool, is_kind: bool) -> bool {
    PhaseSet::read_text(text).ok() == Some(set)
        && PhaseSet::read_code(text).ok() == is_code.then_some(set)
        && PhaseSet::read_kind(text).ok() == is_kind.then_some(set)
}

#[test]
fn phase_texts(rt: HostRuntime) -> Result<(), NoMemory> {
    for (text, parts, is_code, is_kind) in PHASE_TEXTS {
        let set = union(parts);
        assert!(rt; names(text, set, *is_code, *is_kind), "at {text}");
        assert!(rt; is_written(rt.alloc(), set, text)?, "at {text}");
    }
    Ok(())
}

fn names_nothing(text: &str) -> bool {
    PhaseSet::read_text(text).is_err()
        && PhaseSet::read_code(text).is_err()
        && PhaseSet::read_kind(text).is_err()
}

#[test]
fn no_phases(rt: HostRuntime) {
    for text in NO_PHASES {
        assert!(rt; names_nothing(text), "at {text}");
    }
}

/// IRIs, and whether each names phase A as a code and as a kind.
const PHASE_IRIS: &[(&str, bool, bool)] = &[
    ("http://iec.ch/TC57/CIM100#PhaseCode.A", true, false),
    ("http://iec.ch/TC57/CIM100#SinglePhaseKind.A", false, true),
    ("http://iec.ch/TC57/CIM100#PhaseCode.", false, false),
    ("http://iec.ch/TC57/CIM100#PhaseCode", false, false),
    ("http://iec.ch/TC57/CIM100#PhaseCode.a", false, false),
    ("A", false, false),
];

/// Whether an IRI names phase A as a code and as a kind.
fn names_a(iri: &str, is_code: bool, is_kind: bool) -> bool {
    PhaseSet::of_code_iri(iri).ok() == is_code.then_some(A)
        && PhaseSet::of_kind_iri(iri).ok() == is_kind.then_some(A)
}

#[test]
fn phase_iris(rt: HostRuntime) {
    for (iri, is_code, is_kind) in PHASE_IRIS {
        assert!(rt; names_a(iri, *is_code, *is_kind), "at {iri}");
    }
}

const TYPE: &str = "http://www.w3.org/1999/02/22-rdf-syntax-ns#type";

const NODE: &str = "http://iec.ch/TC57/CIM100#Terminal.ConnectivityNode";

const ONE: &str = "urn:uuid:00000000-0000-4000-8000-0000000000a1";

/// The text of an object, and whether it is an IRI or a literal's.
#[derive(Clone, Copy)]
enum Given {
    Iri(&'static str),
    Text(&'static str),
}

/// Statements from the least to the greatest: the number of the subject, the property and the object.
const ASCENDING: &[(u128, &str, Given)] = &[
    (1, TYPE, Given::Iri("http://b")),
    (1, NODE, Given::Iri(ONE)),
    (1, NODE, Given::Iri("http://a")),
    (1, NODE, Given::Text("A")),
    (1, "http://a", Given::Iri(ONE)),
    (1, "http://b", Given::Iri(ONE)),
    (2, TYPE, Given::Iri("http://a")),
];

fn object(alloc: Global, given: Given) -> Result<Object, NoMemory>
    ensures { IfOk result (λ object. IsTrue (is_proper_object object)) }
{
    match given {
        Given::Iri(text) => Object::of_iri(alloc, text),
        Given::Text(text) => Ok(Object::Text(Word::of(alloc, text)?)),
    }
}

fn statement(alloc: Global, row: &(u128, &str, Given)) -> Result<Statement, NoMemory> {
    Ok(Statement {
        subject: Id::of(row.0),
        prop: Prop::of_iri(alloc, row.1)?,
        object: object(alloc, row.2)?,
    })
}

/// Whether a statement is less than another, and a copy of it is equal to it.
fn ascend(
    alloc: Global,
    lesser: &(u128, &str, Given),
    greater: &(u128, &str, Given),
) -> Result<bool, NoMemory> {
    let lesser = statement(alloc, lesser)?;
    let greater = statement(alloc, greater)?;
    Ok(lesser < greater && lesser.copy(alloc)? == lesser)
}

#[test]
fn statements(rt: HostRuntime) -> Result<(), NoMemory> {
    for (lesser, greater) in ASCENDING.iter().zip(&ASCENDING[1..]) {
        assert!(rt; ascend(rt.alloc(), lesser, greater)?);
    }
    Ok(())
}

#[test]
fn words(rt: HostRuntime) -> Result<(), NoMemory> {
    let alloc = rt.alloc();
    assert!(rt; Prop::of_iri(alloc, "http://x")?.iri() == "http://x");
    assert!(rt; Object::of_iri(alloc, ONE)? == Object::Id(Id::of(0x4000_8000_0000_0000_00a1)));
    assert!(rt; Word::of(alloc, "v")?.copy(alloc)?.text() == "v");
    Ok(())
}

#[test]
fn lists(rt: HostRuntime) -> Result<(), Fail> {
    let mut listed = Listed::empty(rt.alloc());
    assert!(rt; listed.is_empty());
    for item in [3u8, 1, 2] {
        assert!(rt; listed.push(item).is_ok());
    }
    assert!(rt; listed.len() == 3 && *listed.at(1) == 1);
    assert!(rt; listed.as_slice() == [3, 1, 2].as_slice());
    assert!(rt; Listed::of(listed.into_vec()).len() == 3);
    Ok(())
}

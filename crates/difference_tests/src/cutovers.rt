//! Differences judged on a small feeder under temporary items and positions, one after another.

use crate::judging::judged;
use crate::texts::statements;
use Want::{Leaves, Refused};
use cim_words::{Id, Length, Listed, PhaseSet};
use room_words::{Anchor, DiffRefusal, Overlay, Position, TempItem};
use statement_set::StatementSet;
use std::alloc::Global;
use std::test::Fail;

/// The nodes a1, a2 and a3, the source e1, the breaker b1, the segment 51 of 100 m and the consumer c1, one behind another: 29 statements.
const FEEDER: &str = r#"~a1> a <:ConnectivityNode> .
~a2> a <:ConnectivityNode> .
~a3> a <:ConnectivityNode> .
~e1> a <:EnergySource> .
~b1> a <:Breaker> .
~b1> <:Switch.normalOpen> "false" .
~51> a <:ACLineSegment> .
~51> <:Conductor.length> "100" .
~c1> a <:EnergyConsumer> .
~71> a <:Terminal> .
~71> <:Terminal.ConductingEquipment> ~e1> .
~71> <:Terminal.ConnectivityNode> ~a1> .
~72> a <:Terminal> .
~72> <:Terminal.ConductingEquipment> ~b1> .
~72> <:Terminal.ConnectivityNode> ~a1> .
~73> a <:Terminal> .
~73> <:Terminal.ConductingEquipment> ~b1> .
~73> <:Terminal.ConnectivityNode> ~a2> .
~74> a <:Terminal> .
~74> <:Terminal.ConductingEquipment> ~51> .
~74> <:Terminal.ConnectivityNode> ~a2> .
~74> <:ACDCTerminal.sequenceNumber> "1" .
~75> a <:Terminal> .
~75> <:Terminal.ConductingEquipment> ~51> .
~75> <:Terminal.ConnectivityNode> ~a3> .
~75> <:ACDCTerminal.sequenceNumber> "2" .
~76> a <:Terminal> .
~76> <:Terminal.ConductingEquipment> ~c1> .
~76> <:Terminal.ConnectivityNode> ~a3> .
"#;

const TWO_PRECONDITIONS: &str = r#"%preconditions
~51> <:Conductor.length> "100" .
~51> <:Conductor.length> "99" .
%reverse
~51> <:Conductor.length> "98" .
%end"#;

const ONE_PRECONDITION: &str = r#"%preconditions
~51> <:Conductor.length> "100" .
%reverse
~51> <:Conductor.length> "98" .
%end"#;

/// Three preconditions, of which two are missing, and two reverse statements, of which one is.
const THREE_PRECONDITIONS: &str = r#"%preconditions
~51> a <:ACLineSegment> .
~51> <:Conductor.length> "98" .
~51> <:Conductor.length> "99" .
%end"#;

const SECOND_REVERSE: &str = r#"%reverse
~51> <:Conductor.length> "100" .
~51> <:Conductor.length> "99" .
%forward
~51> <:Conductor.length> "99" .
%end"#;

/// What holds of the result alone is no precondition that holds.
const HOLDS_AFTERWARDS: &str = r#"%preconditions
~51> <:Conductor.length> "99" .
%reverse
~51> <:Conductor.length> "100" .
%forward
~51> <:Conductor.length> "99" .
%end"#;

/// What holds of the model alone is one.
const HELD_BEFORE: &str = r#"%preconditions
~51> <:Conductor.length> "100" .
~51> <:Conductor.length> "100" .
%reverse
~51> <:Conductor.length> "100" .
%forward
~51> <:Conductor.length> "99" .
%end"#;

const LENGTH_GOES: &str = r#"%reverse
~51> <:Conductor.length> "100" .
~51> <:Conductor.length> "100" .
%end"#;

const LENGTH_STAYS: &str = r#"%reverse
~51> <:Conductor.length> "100" .
%forward
~51> <:Conductor.length> "100" .
%end"#;

const LENGTH_IS_THERE: &str = r#"%forward
~51> <:Conductor.length> "100" .
~51> <:Conductor.length> "100" .
%end"#;

const IS_100: &str = r#"%preconditions
~51> <:Conductor.length> "100" .
%end"#;

const NOTHING: &str = "%header\n~51> <p> \"v\" .\n%end";

const SEGMENT_LEAVES: &str = r#"%reverse
~51> a <:ACLineSegment> .
~51> <:Conductor.length> "100" .
~74> a <:Terminal> .
~74> <:Terminal.ConductingEquipment> ~51> .
~74> <:Terminal.ConnectivityNode> ~a2> .
~74> <:ACDCTerminal.sequenceNumber> "1" .
~75> a <:Terminal> .
~75> <:Terminal.ConductingEquipment> ~51> .
~75> <:Terminal.ConnectivityNode> ~a3> .
~75> <:ACDCTerminal.sequenceNumber> "2" .
%end"#;

const BREAKER_LEAVES: &str = r#"%reverse
~b1> a <:Breaker> .
~b1> <:Switch.normalOpen> "false" .
~72> a <:Terminal> .
~72> <:Terminal.ConductingEquipment> ~b1> .
~72> <:Terminal.ConnectivityNode> ~a1> .
~73> a <:Terminal> .
~73> <:Terminal.ConductingEquipment> ~b1> .
~73> <:Terminal.ConnectivityNode> ~a2> .
%end"#;

/// The breaker becomes a busbar section, which is no switch.
const BREAKER_IS_BUSBAR: &str = r#"%reverse
~b1> a <:Breaker> .
%forward
~b1> a <:BusbarSection> .
%end"#;

const BUSBAR_AND_NODE: &str = r#"%reverse
~b1> a <:Breaker> .
%forward
~b1> a <:BusbarSection> .
~92> a <:ConnectivityNode> .
%end"#;

const BREAKER_IS_FUSE: &str = r#"%reverse
~b1> a <:Breaker> .
%forward
~b1> a <:Fuse> .
%end"#;

const CONSUMER_LEAVES: &str = r#"%reverse
~c1> a <:EnergyConsumer> .
~76> a <:Terminal> .
~76> <:Terminal.ConductingEquipment> ~c1> .
~76> <:Terminal.ConnectivityNode> ~a3> .
~75> <:Terminal.ConnectivityNode> ~a3> .
~a3> a <:ConnectivityNode> .
%end"#;

const TWO_LENGTHS: &str = "%forward\n~51> <:Conductor.length> \"101\" .\n%end";

const NO_EQUIPMENT: &str = "%reverse\n~76> <:Terminal.ConductingEquipment> ~c1> .\n%end";

const NO_TYPE: &str = "%reverse\n~51> a <:ACLineSegment> .\n%end";

const IS_60: &str = r#"%reverse
~51> <:Conductor.length> "100" .
%forward
~51> <:Conductor.length> "60" .
%end"#;

const IS_59: &str = r#"%reverse
~51> <:Conductor.length> "100" .
%forward
~51> <:Conductor.length> "59.999" .
%end"#;

const NODE_92: &str = "%forward\n~92> a <:ConnectivityNode> .\n%end";

const NODE_91: &str = "%forward\n~91> a <:ConnectivityNode> .\n%end";

/// What all identifiers have in front.
const FRONT: u128 = 0x0000_0000_0000_4000_8000_0000_0000_0000;

const S51: Id = Id {
    number: FRONT + 0x51,
};

const B1: Id = Id {
    number: FRONT + 0xB1,
};

const T76: Id = Id {
    number: FRONT + 0x76,
};

const I91: Id = Id {
    number: FRONT + 0x91,
};

const I92: Id = Id {
    number: FRONT + 0x92,
};

const I97: Id = Id {
    number: FRONT + 0x97,
};

const A3: Id = Id {
    number: FRONT + 0xA3,
};

const CUT_92: TempItem = TempItem::Cut {
    id: I92,
    segment: S51,
    length: Length { mm: 60_000 },
    is_open: true,
};

const CLAMP_91: TempItem = TempItem::Clamp {
    id: I91,
    segment: S51,
    length: Length { mm: 60_001 },
};

const GROUND_97: TempItem = TempItem::Ground {
    id: I97,
    at: Anchor::Node(A3),
    phases: PhaseSet::ABC,
};

const B1_OPEN: Position = Position {
    switch: B1,
    is_open: true,
};

/// What is expected of a difference: how many statements the model that it leaves has, or a refusal.
#[derive(Clone, Copy, Debug, Drop, PartialEq, Eq)]
enum Want {
    Leaves(usize),
    Refused(DiffRefusal),
}

type Step = (&'static str, Want);

/// The temporary items, the positions in force, and differences one after another, each on the model that the ones before it left.
type Case = (&'static [TempItem], &'static [Position], &'static [Step]);

const CASES: [Case; 12] = [
    // What is missing is told by its number: preconditions first, and both on the model as it was.
    (
        &[],
        &[],
        &[
            (TWO_PRECONDITIONS, Refused(DiffRefusal::Precondition(2))),
            (ONE_PRECONDITION, Refused(DiffRefusal::Reverse(1))),
            (THREE_PRECONDITIONS, Refused(DiffRefusal::Precondition(2))),
            (SECOND_REVERSE, Refused(DiffRefusal::Reverse(2))),
            (HOLDS_AFTERWARDS, Refused(DiffRefusal::Precondition(1))),
            (HELD_BEFORE, Leaves(29)),
            (IS_100, Refused(DiffRefusal::Precondition(1))),
        ],
    ),
    // A repeated reverse statement is not missing; afterwards it is.
    (
        &[],
        &[],
        &[
            (LENGTH_GOES, Leaves(28)),
            (LENGTH_GOES, Refused(DiffRefusal::Reverse(1))),
        ],
    ),
    // A statement in both lists stays, one that is there changes nothing, and a header is not judged.
    (
        &[],
        &[],
        &[
            (LENGTH_STAYS, Leaves(29)),
            (IS_100, Leaves(29)),
            (LENGTH_IS_THERE, Leaves(29)),
            (IS_100, Leaves(29)),
            (NOTHING, Leaves(29)),
        ],
    ),
    // The least fault of the result, and before what of the overlay does not stand.
    (
        &[CUT_92],
        &[],
        &[
            (TWO_LENGTHS, Refused(DiffRefusal::Profile(2, S51))),
            (NO_EQUIPMENT, Refused(DiffRefusal::Profile(3, T76))),
            (NO_TYPE, Refused(DiffRefusal::Profile(1, S51))),
        ],
    ),
    // A segment does not go from under a cut. Without the cut it does, and not twice.
    (
        &[CUT_92],
        &[],
        &[(SEGMENT_LEAVES, Refused(DiffRefusal::Place(I92)))],
    ),
    (
        &[],
        &[],
        &[
            (SEGMENT_LEAVES, Leaves(19)),
            (SEGMENT_LEAVES, Refused(DiffRefusal::Reverse(1))),
        ],
    ),
    // The first item in order of placing, which has the greater identifier, and only then a position.
    (
        &[CUT_92, CLAMP_91],
        &[B1_OPEN],
        &[
            (SEGMENT_LEAVES, Refused(DiffRefusal::Place(I92))),
            (NODE_91, Refused(DiffRefusal::Place(I91))),
            (NODE_92, Refused(DiffRefusal::Place(I92))),
            (BUSBAR_AND_NODE, Refused(DiffRefusal::Place(I92))),
            (BREAKER_LEAVES, Refused(DiffRefusal::Place(B1))),
        ],
    ),
    // A position needs a switch, of any class.
    (
        &[],
        &[B1_OPEN],
        &[
            (BREAKER_LEAVES, Refused(DiffRefusal::Place(B1))),
            (BREAKER_IS_BUSBAR, Refused(DiffRefusal::Place(B1))),
            (BREAKER_IS_FUSE, Leaves(29)),
        ],
    ),
    (&[], &[], &[(BREAKER_LEAVES, Leaves(21))]),
    // A cut may stand at the end of a segment, and not beyond it.
    (
        &[CUT_92],
        &[],
        &[
            (IS_59, Refused(DiffRefusal::Place(I92))),
            (IS_60, Leaves(29)),
        ],
    ),
    // A node does not go from under a ground.
    (
        &[GROUND_97],
        &[],
        &[
            (CONSUMER_LEAVES, Refused(DiffRefusal::Place(I97))),
            (SEGMENT_LEAVES, Leaves(19)),
        ],
    ),
    (&[], &[], &[(CONSUMER_LEAVES, Leaves(23))]),
];

/// How many steps of a case go as expected, until one does not.
fn followed(alloc: Global, case: Case) -> Result<usize, Fail> {
    let (items, positions, steps) = case;
    let overlay = Overlay {
        items: Listed::of(Vec::from_slice(alloc, items)?),
        positions: Listed::of(Vec::from_slice(alloc, positions)?),
    };
    let mut set = StatementSet::from_list(alloc, statements(alloc, FEEDER)?)?;
    for (count, (short, want)) in steps.iter().enumerate() {
        match judged(alloc, &set, &overlay, short)? {
            Ok(model) if *want == Leaves(model.len()) => set = model,
            Err(why) if *want == Refused(why) => {}
            _ => return Ok(count),
        }
    }
    Ok(steps.len())
}

#[test]
fn judges_differences(rt: HostRuntime) -> Result<(), Fail> {
    for (number, case) in CASES.iter().enumerate() {
        assert_eq!(rt; followed(rt.alloc(), *case)?, case.2.len(), "case {number}");
    }
    Ok(())
}

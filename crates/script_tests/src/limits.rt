//! The limits of a history.

use cim_words::{Id, NoMemory, Statements};
use difference::{DiffFault, read};
use room_words::{Act, Event, LogFull, SharedDifference};
use std::alloc::Global;
use std::test::Fail;
use versions::log_room;

/// The difference of four empty lists, whose written form has 46 bytes.
fn nothing(alloc: Global) -> Result<Event, Fail> {
    match read(alloc, b"%end\n") {
        Ok(difference) => Ok(Event::Cutover(SharedDifference::of(alloc, difference)?)),
        Err(DiffFault::Stage(fault)) => Err(Fail::new(fault.line)),
        Err(DiffFault::NoMemory) => Err(NoMemory.into()),
    }
}

#[test]
fn a_full_history_has_no_room(rt: HostRuntime) -> Result<(), Fail> {
    let act = Event::Act(Act::OpenSwitch(Id { number: 0xb1 }));
    assert!(rt; log_room(1_048_575, 0, &act) == Ok(()));
    assert!(rt;
        log_room(1_048_576, 0, &act)
            == Err(LogFull {
                entries: 1_048_576,
                bytes: 0
            })
    );
    assert!(rt; log_room(0, 536_870_912, &act) == Ok(()));
    let difference = nothing(rt.alloc())?;
    assert!(rt; log_room(0, 536_870_866, &difference) == Ok(()));
    assert!(rt;
        log_room(0, 536_870_867, &difference)
            == Err(LogFull {
                entries: 0,
                bytes: 536_870_867
            })
    );
    Ok(())
}

//! The doors in memory, and the gate that holds nobody.

ghost use Rattle.std.specs.Prelude.{◌≡◌, length, IfOk};

use grid_out::{
    Door, Failed, Gate, Link, MemDoor, MemLink, NoMemory, OpenGate, SureDoor, SureLink,
};
use std::alloc::Global;
use std::test::Fail;

/// What a door of two links answers whose second call fails: whether there was a link.
const TURNS: &[Result<bool, Failed>] = &[Ok(true), Err(Failed), Ok(true), Ok(false), Ok(false)];

/// Two links, the first with room for one byte and the second for two.
fn two_links(alloc: Global) -> Result<Vec<MemLink>, NoMemory>
    ensures { IfOk result (λ links. length links.items ≡ 2) }
{
    let mut links = Vec::new(alloc);
    links.push(MemLink::new(alloc, b"", 1, &[], &[])?)?;
    links.push(MemLink::new(alloc, b"", 2, &[], &[])?)?;
    Ok(links)
}

/// Takes the next link, if there is one, writes to it and gives it back.
fn turn<D: Door>(door: &mut D) -> Result<bool, Failed> {
    let Some(mut link) = door.next()? else {
        return Ok(false);
    };
    let _ = link.write(b"abc");
    door.done(link);
    Ok(true)
}

#[test]
fn gives_links_in_turn(rt: HostRuntime) -> Result<(), Fail> {
    let mut door = MemDoor::new(rt.alloc(), two_links(rt.alloc())?, &[2])?;
    for (index, answer) in TURNS.iter().enumerate() {
        let right = turn(&mut door) == *answer;
        assert!(rt; right, "at {index}");
    }
    let [first, second] = door.back() else {
        assert!(rt; false, "two links come back");
        return Ok(());
    };
    assert!(rt; first.written() == b"a".as_slice());
    assert!(rt; second.written() == b"ab".as_slice());
    Ok(())
}

#[test]
fn door_never_fails(rt: HostRuntime) -> Result<(), Fail> {
    let mut links = Vec::new(rt.alloc());
    links.push(SureLink::new(rt.alloc(), b"abc")?)?;
    let mut door = SureDoor::new(rt.alloc(), links)?;
    assert!(rt; turn(&mut door) == Ok(true));
    assert!(rt; turn(&mut door) == Ok(false));
    Ok(())
}

#[test]
fn holds_nobody(rt: HostRuntime) {
    OpenGate.passed(&rt, 1, 1);
}

//! The pieces in which a script's text goes to the output, and what is written where that fails.

use crate::feeder::FEEDER;
use crate::playing::{answers, statements, text_of};
use crate::texts::lines;
use grid_out::MemSink;
use script::{OutFault, play};
use std::alloc::Global;
use std::test::Fail;

/// A thousand traces of the feeder, which are told in more than 65,536 bytes.
fn traces(alloc: Global) -> Result<String, Fail> {
    let mut script = String::new(alloc);
    for _ in 0..1_000 {
        script.push_str("c1 trace ~e1 ABC\n")?;
    }
    Ok(lines(alloc, script.as_str())?)
}

#[test]
fn a_long_text_goes_in_pieces(rt: HostRuntime) -> Result<(), Fail> {
    let alloc = rt.alloc();
    let script = traces(alloc)?;
    let whole = answers(alloc, FEEDER, script.as_bytes())?;
    // The second piece is refused: the first stands, and it ends with a whole reply.
    let mut out = MemSink::new(alloc, 200_000, &[2])?;
    let played = play(
        alloc,
        statements(alloc, FEEDER)?,
        script.as_bytes(),
        &mut out,
    );
    assert!(rt; played == Err(OutFault::WriteFault));
    let front = text_of(alloc, out.written())?;
    assert!(rt; 65_536 <= front.len() && front.len() < 66_000);
    assert!(rt; whole.starts_with(front.as_str()) && front.ends_with("e1 ABC\n"));
    Ok(())
}

#[test]
fn a_full_output_is_told(rt: HostRuntime) -> Result<(), Fail> {
    let alloc = rt.alloc();
    let mut out = MemSink::new(alloc, 9, &[])?;
    let played = play(
        alloc,
        statements(alloc, FEEDER)?,
        b"c1 look\nc1 look\n",
        &mut out,
    );
    assert!(rt; played == Err(OutFault::WriteFault));
    assert!(rt; out.written() == b"c1 seen 0".as_slice());
    Ok(())
}

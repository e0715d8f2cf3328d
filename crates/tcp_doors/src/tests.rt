//! A door and a peer, in two threads.

use crate::TcpDoor;
use grid_out::{Door, Failed, Link};
use std::io::{self, Read, Write};
use std::net::{Ipv4Addr, Net, TcpListener, TcpStream};
use std::rt::Clock;
use std::test::Fail;
use std::time::Duration;
use std::{process, thread};

/// What the peer sends.
const ASKED: &[u8; 4] = b"ask\n";

/// What it is answered.
const ANSWER: &[u8; 7] = b"answer\n";

/// The ports that are tried begin here. The system gives these to nobody that connects, so that a peer which tries to connect to one
/// of them before it is taken is not connected to itself.
const FIRST_PORT: u16 = 61_000;

/// How many ports are tried.
const PORTS: u16 = 20;

/// Takes a port that is free. Where to begin depends on the process, so that two runs do not meet.
fn take_port<R: Net>(rt: &R, process_id: u32) -> io::Result<(u16, R::Listener)> {
    let first = FIRST_PORT + (process_id % 4_000) as u16;
    let mut last = io::Error::from(io::ErrorKind::AddrInUse);
    for more in 0..PORTS {
        let port = first + more;
        match TcpListener::bind(rt, (Ipv4Addr::LOCALHOST, port)) {
            Ok(listener) => return Ok((port, listener)),
            Err(error) => last = error,
        }
    }
    Err(last)
}

/// Reads what the peer asks, answers it and reads to the end. Whether the peer asked what it was to ask, and the door then gives no
/// other session.
fn serve<D: Door>(door: &mut D) -> Result<bool, Failed> {
    let Some(mut link) = door.next()? else {
        return Err(Failed);
    };
    let mut asked = [0; 4];
    for byte in &mut asked {
        let mut one = [0; 1];
        link.read(&mut one)?;
        *byte = one[0];
    }
    link.write(ANSWER)?;
    let ended = link.read(&mut [0; 1])? == 0;
    door.done(link);
    Ok(&asked == ASKED && ended && door.next()?.is_none())
}

/// Connects once the port is taken.
fn connect<R: Net + Clock>(rt: &R, port: u16) -> io::Result<R::Stream> {
    for _ in 0..500 {
        if let Ok(stream) = TcpStream::connect(rt, (Ipv4Addr::LOCALHOST, port)) {
            return Ok(stream);
        }
        thread::sleep(rt, Duration::from_millis(2));
    }
    TcpStream::connect(rt, (Ipv4Addr::LOCALHOST, port))
}

/// Asks, and whether the answer came.
fn ask<R: Net + Clock>(rt: &R, port: u16) -> io::Result<bool> {
    let mut stream = connect(rt, port)?;
    stream.write_all(ASKED)?;
    let mut answer = [0; 7];
    stream.read_exact(&mut answer)?;
    Ok(&answer == ANSWER)
}

#[test]
fn door_gives_the_sessions_that_were_agreed(rt: HostRuntime) -> Result<(), Fail> {
    let (port, taken) = take_port(&rt, process::id(rt.process()))?;
    let rt = &rt;
    let mut door = TcpDoor::new(rt, port, 1);
    // The port is not the door's yet, and then it is.
    assert!(rt; door.next().is_err());
    drop(taken);
    let open = &mut door;
    let (served, answered) = thread::join(rt, move || serve(open), move || ask(rt, port));
    assert!(rt; answered?);
    assert!(rt; served?);
    // The door is there, and has let the port go.
    assert!(rt; TcpStream::connect(rt, (Ipv4Addr::LOCALHOST, port)).is_err());
    drop(door);
    Ok(())
}

//! A port of this machine, as a door.

ghost use Rattle.std.specs.Prelude.{◌≡◌, None, true};

use crate::tcp_link::TcpLink;
use grid_out::{Door, Failed};
use std::io;
use std::marker::Model;
use std::net::{Ipv4Addr, Net, OpenListener, OpenStream, TcpListener};

/// A door at a port of 127.0.0.1, which gives the agreed number of sessions, one connection each. Which peers come is the outside's:
/// this door tells no links.
///
/// The port is taken by the first `next` that has a session to give; before that, peers are refused. From then on a peer connects, and
/// its session begins with the next `next`: while another one's session goes on, it waits. With the last session that is given the port
/// is let go: peers that come later are refused, and those that still wait are cut off. Dropping the door lets the port go as well.
///
/// `next` waits for a peer as long as none comes. It fails where the port cannot be taken, as where somebody else has it, and where the
/// system does not hand a connection over. No session is lost by that, and the next call tries again.
#[derive(Drop)]
pub struct TcpDoor<'rt, R: Net> {
    rt: &'rt R,
    port: u16,
    listener: Option<R::Listener>,
    number: u32,
    faults: u64,
}

impl<'rt, R: Net> Model for TcpDoor<'rt, R> {
    ghost use Rattle.tcp_doors.specs.Tcp.{DoorCounts};

    ghost Value = { DoorCounts };

    ghost view = { λ door. record { number = door.number; faults = door.faults } };
}

impl<'rt, R: Net> TcpDoor<'rt, R> {
    /// A door at this port, for so many sessions. Nothing is opened yet.
    pub fn new(rt: &'rt R, port: u16, sessions: u32) -> TcpDoor<'rt, R>
        ensures { result ≡ record { number = sessions; faults = 0 } }
    {
        TcpDoor {
            rt,
            port,
            listener: None,
            number: sessions,
            faults: 0,
        }
    }
}

impl<'rt, R: Net> Door for TcpDoor<'rt, R> {
    type L = TcpLink<R::Stream>;

    ghost faults = { λ door. door.faults };

    ghost number = { λ door. door.number };

    ghost coming = { λ _. None };

    ghost back = { λ _. None };

    ghost lent = { λ _. true };

    fn next(&mut self) -> Result<Option<TcpLink<R::Stream>>, Failed> {
        let Some(left) = self.number.checked_sub(1) else {
            return Ok(None);
        };
        match accept_at(self.rt, self.port, &mut self.listener) {
            Ok(stream) => {
                self.number = left;
                if left == 0 {
                    self.listener = None;
                }
                Ok(Some(TcpLink::new(stream)))
            }
            Err(_) => {
                self.faults = self.faults.saturating_add(1);
                Err(Failed)
            }
        }
    }

    /// Closes the connection.
    fn done(&mut self, link: TcpLink<R::Stream>) {
        drop(link);
    }
}

/// Waits for a connection at the port, which is taken now if it is not yet.
fn accept_at<R: Net>(
    rt: &R,
    port: u16,
    listener: &mut Option<R::Listener>,
) -> io::Result<R::Stream> {
    if let Some(open) = listener {
        return accept(open);
    }
    let opened = TcpListener::bind(rt, (Ipv4Addr::LOCALHOST, port))?;
    let accepted = accept(&opened);
    *listener = Some(opened);
    accepted
}

/// Waits for a connection. Small answers are to leave it at once; a stream that refuses this carries them as well, if later.
fn accept<L: OpenListener>(listener: &L) -> io::Result<L::Stream>
where
    L::Stream: OpenStream,
{
    let (stream, _) = listener.accept()?;
    let _ = stream.set_nodelay(true);
    Ok(stream)
}

//! A connection over TCP, as a link.

ghost use Rattle.std.specs.Prelude.{◌≡◌, ◌<◌, ◌≤◌, ℕ, length, take, None, IfOk, OnErr, OnOk, is_err};
ghost use Rattle.std.specs.Io.KnownBytes.{Appends, ReadConsumes};
ghost use Rattle.grid_out.specs.Faults.{CountsFaults};

use crate::stream::{read_once, write_whole};
use grid_out::{Failed, Link};
use std::io::{Read, Write};
use std::marker::Model;

/// A link over a stream that is connected. What a peer sends and what reaches it is the outside's, so this link tells no bytes;
/// its own clauses say what it does with a stream that tells them.
///
/// Dropping it closes the connection: the peer reads what was written, and there its input ends. Where bytes that the peer sent are
/// still unread, the system resets the connection instead, and what has not left yet is lost.
#[derive(Drop)]
pub struct TcpLink<S> {
    stream: S,
    read_faults: u64,
    write_faults: u64,
}

impl<S> Model for TcpLink<S> {
    ghost use Rattle.tcp_doors.specs.Tcp.{LinkState};

    ghost Value = { LinkState S };

    ghost view = { λ link. record {
      stream = link.stream;
      read_faults = link.read_faults;
      write_faults = link.write_faults;
    } };
}

impl<S> TcpLink<S> {
    /// A link over this stream, without faults yet.
    pub fn new(stream: S) -> TcpLink<S>
        ensures { result ≡ record { stream = stream; read_faults = 0; write_faults = 0 } }
    {
        TcpLink {
            stream,
            read_faults: 0,
            write_faults: 0,
        }
    }
}

impl<S: Read + Write> Link for TcpLink<S> {
    ghost read_faults = { λ link. link.read_faults };

    ghost write_faults = { λ link. link.write_faults };

    ghost left = { λ _. None };

    ghost written = { λ _. None };

    fn read(&mut self, into: &mut [u8]) -> Result<usize, Failed>
        requires { 0 < length into.old }
        ensures length { length into.new ≡ length into.old }
        ensures within { IfOk result (λ n. n ≤ length into.old) }
        ensures cause { CountsFaults self.old.read_faults self.new.read_faults (is_err result) }
        ensures other { self.new.write_faults ≡ self.old.write_faults }

        ensures bytes { ReadConsumes (S.remaining self.old.stream) (S.remaining self.new.stream) result into.new }
    {
        let read = read_once(&mut self.stream, into);
        if read.is_err() {
            self.read_faults = self.read_faults.saturating_add(1);
        }
        read
    }

    fn write(&mut self, piece: &[u8]) -> Result<(), Failed>
        ensures cause { CountsFaults self.old.write_faults self.new.write_faults (is_err result) }
        ensures other { self.new.read_faults ≡ self.old.read_faults }

        ensures whole { OnOk result (Appends (S.contents self.old.stream) (S.contents self.new.stream) piece.now) }
        ensures front { OnErr result
            ((n : ℕ) × Appends (S.contents self.old.stream) (S.contents self.new.stream) (take n piece.now)) }
    {
        let wrote = write_whole(&mut self.stream, piece);
        if wrote.is_err() {
            self.write_faults = self.write_faults.saturating_add(1);
        }
        wrote
    }
}

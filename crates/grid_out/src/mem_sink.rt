//! A sink in memory, whose calls fail where they are told to and where its room ends.

ghost use Rattle.std.specs.Prelude.{◌≡◌, ◌↔◌, [], ◌∷◌, Some, IfOk, OnOk, OnErr, IsErr, IsTrue, is_err};
ghost use Rattle.grid_out.specs.Faults.{CountsFaults};
ghost use Rattle.grid_out.specs.Sink.{Gains, GainsPrefix, Hands, sink_after, sink_fails};

use crate::failure::{Failed, NoMemory};
use crate::notes::Notes;
use crate::sink::Sink;
use std::alloc::Global;
use std::marker::Model;

/// A sink that keeps what is written, up to the room it was made with. It fails at a piece that is longer
/// than the room that is left, and at each call whose number, from 1, is listed.
#[derive(Drop)]
pub struct MemSink {
    bytes: Vec<u8>,
    room: usize,
    failing: Vec<u64>,
    calls: u64,
    faults: u64,
    handed: Notes,
}

impl Model for MemSink {
    ghost use Rattle.std.specs.Prelude.{◌+◌, ◌≤◌, vec_len, vec_capacity};
    ghost use Rattle.grid_out.specs.Sink.{SinkState};

    ghost Value = { SinkState };

    ghost view = { λ sink. record {
      written = sink.bytes.items;
      room = sink.room;
      failing = sink.failing.items;
      calls = sink.calls;
      faults = sink.faults;
      handed = sink.handed;
    } };

    // The memory is taken beforehand, so that a write needs none.
    ghost invariant = { λ sink. vec_len sink.bytes + sink.room ≤ vec_capacity sink.bytes };
}

impl MemSink {
    /// A sink of room for this many bytes, whose memory is taken now, and whose calls of the listed numbers fail.
    pub fn new(alloc: Global, room: usize, failing: &[u64]) -> Result<MemSink, NoMemory>
        ensures { IfOk result (λ sink. sink ≡
            record { written = []; room = room; failing = failing.now; calls = 0; faults = 0; handed = Some [] }) }
    {
        Ok(MemSink {
            bytes: Vec::with_capacity(alloc, room)?,
            room,
            failing: Vec::from_slice(alloc, failing)?,
            calls: 0,
            faults: 0,
            handed: Notes::new(alloc),
        })
    }

    /// The pieces that were handed to it, also those that it refused.
    pub fn handed(&self) -> &Notes
        ensures { result.now ≡ self.now.handed }
    {
        &self.handed
    }

    /// The bytes written so far.
    pub fn written(&self) -> &[u8]
        ensures { result.now ≡ self.now.written }
    {
        self.bytes.as_slice()
    }
}

impl Sink for MemSink {
    ghost faults = { λ sink. sink.faults };

    ghost written = { λ sink. Some sink.written };

    ghost handed = { λ sink. sink.handed };

    fn write_all(&mut self, piece: &[u8]) -> Result<(), Failed>
        ensures ok { OnOk result
            (Gains (Some self.old.written) (Some self.new.written) piece.now) }
        ensures failed { OnErr result
            (GainsPrefix (Some self.old.written) (Some self.new.written) piece.now) }
        ensures hands { Hands self.old.handed self.new.handed (piece.now ∷ []) }
        ensures cause { CountsFaults self.old.faults self.new.faults (is_err result) }

        ensures fails { IsErr result ↔ IsTrue (sink_fails self.old piece.now) }
        ensures after { self.new ≡ sink_after self.old piece.now self.new.handed }
    {
        self.handed.add(piece);
        self.calls = self.calls.saturating_add(1);
        if self.failing.contains(&self.calls) {
            self.faults = self.faults.saturating_add(1);
            return Err(Failed);
        }
        let taken = self.room.min(piece.len());
        self.bytes.extend_from_slice(&piece[..taken]).unwrap();
        self.room -= taken;
        if taken < piece.len() {
            self.faults = self.faults.saturating_add(1);
            return Err(Failed);
        }
        Ok(())
    }
}

//! A link in memory, whose calls fail where they are told to and whose room for what is written ends.

ghost use Rattle.std.specs.Prelude.{◌≡◌, ◌↔◌, ◌<◌, ◌≤◌, [], length, take, Some, IfOk, OnOk, OnErr, IsErr, IsTrue, is_err};
ghost use Rattle.grid_out.specs.Faults.{CountsFaults};
ghost use Rattle.grid_out.specs.Link.{EndsWhereNoneIsLeft, TakesOff, after_read, count_taken, read_fails, with_output};
ghost use Rattle.grid_out.specs.Sink.{Gains, GainsPrefix, sink_after, sink_fails};

use crate::failure::{Failed, NoMemory};
use crate::input::Input;
use crate::link::Link;
use crate::mem_sink::MemSink;
use crate::sink::Sink;
use std::alloc::Global;
use std::marker::Model;

/// A link that gives the bytes that it was made with and keeps what is written. A read fails at each number,
/// from 1, that is listed for reads; what is written goes into a sink in memory.
#[derive(Drop)]
pub struct MemLink {
    input: Input,
    failing: Vec<u64>,
    reads: u64,
    faults: u64,
    output: MemSink,
}

impl Model for MemLink {
    ghost use Rattle.grid_out.specs.Link.{LinkState};

    ghost Value = { LinkState };

    ghost view = { λ link. record {
      left = link.input;
      failing = link.failing.items;
      reads = link.reads;
      faults = link.faults;
      output = link.output;
    } };
}

impl MemLink {
    /// A link that gives these bytes and takes so many, whose memory is taken now, and whose reads and writes of
    /// the listed numbers fail.
    pub fn new(
        alloc: Global,
        input: &[u8],
        room: usize,
        failing_reads: &[u64],
        failing_writes: &[u64],
    ) -> Result<MemLink, NoMemory>
        ensures { IfOk result (λ link. link ≡ record {
          left = input.now;
          failing = failing_reads.now;
          reads = 0;
          faults = 0;
          output = record { written = []; room = room; failing = failing_writes.now; calls = 0; faults = 0; handed = Some [] };
        }) }
    {
        Ok(MemLink {
            input: Input::new(alloc, input)?,
            failing: Vec::from_slice(alloc, failing_reads)?,
            reads: 0,
            faults: 0,
            output: MemSink::new(alloc, room, failing_writes)?,
        })
    }

    /// The bytes written so far.
    pub fn written(&self) -> &[u8]
        ensures { result.now ≡ self.now.output.written }
    {
        self.output.written()
    }
}

impl Link for MemLink {
    ghost read_faults = { λ link. link.faults };

    ghost write_faults = { λ link. link.output.faults };

    ghost left = { λ link. Some link.left };

    ghost written = { λ link. Some link.output.written };

    fn read(&mut self, into: &mut [u8]) -> Result<usize, Failed>
        requires { 0 < length into.old }
        ensures length { length into.new ≡ length into.old }
        ensures within { IfOk result (λ n. n ≤ length into.old) }
        ensures taken { IfOk result (λ n. TakesOff (Some self.old.left) (Some self.new.left) (take n into.new)) }
        ensures ended { IfOk result (EndsWhereNoneIsLeft (Some self.old.left)) }
        ensures failed { OnErr result (self.new.left ≡ self.old.left) }
        ensures written { self.new.output.written ≡ self.old.output.written }
        ensures cause { CountsFaults self.old.faults self.new.faults (is_err result) }
        ensures other { self.new.output.faults ≡ self.old.output.faults }

        ensures fails { IsErr result ↔ IsTrue (read_fails self.old) }
        ensures count { IfOk result (λ n. n ≡ count_taken self.old (length into.old)) }
        ensures after { self.new ≡ after_read self.old (length into.old) }
    {
        self.reads = self.reads.saturating_add(1);
        if self.failing.contains(&self.reads) {
            self.faults = self.faults.saturating_add(1);
            return Err(Failed);
        }
        Ok(self.input.read(into))
    }

    fn write(&mut self, piece: &[u8]) -> Result<(), Failed>
        ensures ok { OnOk result
            (Gains (Some self.old.output.written) (Some self.new.output.written) piece.now) }
        ensures failed { OnErr result
            (GainsPrefix (Some self.old.output.written) (Some self.new.output.written) piece.now) }
        ensures left { self.new.left ≡ self.old.left }
        ensures cause { CountsFaults self.old.output.faults self.new.output.faults (is_err result) }
        ensures other { self.new.faults ≡ self.old.faults }

        ensures fails { IsErr result ↔ IsTrue (sink_fails self.old.output piece.now) }
        ensures after { self.new ≡
            with_output self.old (sink_after self.old.output piece.now self.new.output.handed) }
    {
        self.output.write_all(piece)
    }
}

//! The trait by which bytes come from a peer and go to it.

ghost use Rattle.std.specs.Prelude.{◌≡◌, ℕ, ◌<◌, ◌≤◌, List, Option, length, take, IfOk, OnOk, OnErr, is_err};
ghost use Rattle.grid_out.specs.Faults.{CountsFaults};
ghost use Rattle.grid_out.specs.Link.{EndsWhereNoneIsLeft, TakesOff};
ghost use Rattle.grid_out.specs.Sink.{Gains, GainsPrefix};

use crate::failure::Failed;

/// A connection to one peer: bytes are read from it and written to it. A link need not tell what is left to
/// read or what was written, as a socket does not. Faults are counted for each direction.
pub trait Link {
    // How many faults of reading there were.
    ghost read_faults: { Self → ℕ };

    // How many faults of writing there were.
    ghost write_faults: { Self → ℕ };

    // The bytes that are left to read, where the link tells them.
    ghost left: { Self → Option (List ℕ) };

    // The bytes written so far, where the link tells them.
    ghost written: { Self → Option (List ℕ) };

    /// Reads at most as many bytes as `into` is long, to its front, and gives their number.
    /// 0 says that the input ended. After `Failed` nothing was read.
    fn read(&mut self, into: &mut [u8]) -> Result<usize, Failed>
        requires { 0 < length into.old }
        ensures length { length into.new ≡ length into.old }
        ensures within { IfOk result (λ n. n ≤ length into.old) }
        ensures taken { IfOk result (λ n. TakesOff (left self.old) (left self.new) (take n into.new)) }
        ensures ended { IfOk result (EndsWhereNoneIsLeft (left self.old)) }
        ensures failed { OnErr result (left self.new ≡ left self.old) }
        ensures written { written self.new ≡ written self.old }
        ensures cause { CountsFaults (read_faults self.old) (read_faults self.new) (is_err result) }
        ensures other { write_faults self.new ≡ write_faults self.old };

    /// Writes the piece at the end of what was written. After `Failed` any front part of it may be written.
    fn write(&mut self, piece: &[u8]) -> Result<(), Failed>
        ensures ok { OnOk result (Gains (written self.old) (written self.new) piece.now) }
        ensures failed { OnErr result (GainsPrefix (written self.old) (written self.new) piece.now) }
        ensures left { left self.new ≡ left self.old }
        ensures cause { CountsFaults (write_faults self.old) (write_faults self.new) (is_err result) }
        ensures other { read_faults self.new ≡ read_faults self.old };
}

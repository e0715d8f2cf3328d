//! The trait by which text is written.

ghost use Rattle.std.specs.Prelude.{ℕ, List, [], ◌∷◌, Option, OnOk, OnErr, is_err};
ghost use Rattle.grid_out.specs.Faults.{CountsFaults};
ghost use Rattle.grid_out.specs.Sink.{Gains, GainsPrefix, Hands};

use crate::failure::Failed;

/// Where text is written, piece by piece. A sink need not tell what it has taken, as a terminal does not.
pub trait Sink {
    // How many faults there were.
    ghost faults: { Self → ℕ };

    // The bytes written so far, where the sink tells them.
    ghost written: { Self → Option (List ℕ) };

    // The pieces that were handed to it so far, also those that it refused, where it tells them.
    ghost handed: { Self → Option (List (List ℕ)) };

    /// Writes the piece at the end. After `Failed` any front part of the piece may be written.
    fn write_all(&mut self, piece: &[u8]) -> Result<(), Failed>
        ensures ok { OnOk result (Gains (written self.old) (written self.new) piece.now) }
        ensures failed { OnErr result (GainsPrefix (written self.old) (written self.new) piece.now) }
        ensures hands { Hands (handed self.old) (handed self.new) (piece.now ∷ []) }
        ensures cause { CountsFaults (faults self.old) (faults self.new) (is_err result) };
}

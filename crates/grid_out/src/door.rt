//! The trait by which a console is offered to one peer after another.

ghost use Rattle.std.specs.Prelude.{◌≡◌, ℕ, ◌<◌, ◌^◌, Bool, IsTrue, List, Option, IfOk, OnErr, IfSome, is_err};
ghost use Rattle.grid_out.specs.Faults.{CountsFaults};
ghost use Rattle.grid_out.specs.Door.{AreAsMany, Gives, TakesBack};

use crate::failure::Failed;
use crate::link::Link;

/// Gives the links of the peers that come, one after another, as many as were agreed, and takes each back when
/// its session has ended. A door need not tell which links come, as a port does not.
pub trait Door {
    /// The links that it gives.
    type L: Link + Drop;

    // How many faults there were.
    ghost faults: { Self → ℕ };

    // How many links it still gives.
    ghost number: { Self → ℕ };

    // The links that it still gives, in their order, where the door tells them.
    ghost coming: { Self → Option (List Self.L) };

    // The links that were given back, in their order, where the door tells them.
    ghost back: { Self → Option (List Self.L) };

    // Whether the link that was given last may be given back.
    ghost lent: { Self → Bool };

    /// The next link, or none once as many were given as were agreed.
    fn next(&mut self) -> Result<Option<Self::L>, Failed>
        ensures bounded { number self.old < 2 ^ 32 }
        ensures as_many { AreAsMany (coming self.old) (number self.old) }
        ensures gives { IfOk result (λ given.
            Gives given (number self.old) (number self.new) (coming self.old) (coming self.new)) }
        ensures lent { IfOk result (λ given. IfSome given (λ _. IsTrue (lent self.new))) }
        ensures failed_number { OnErr result (number self.new ≡ number self.old) }
        ensures failed_coming { OnErr result (coming self.new ≡ coming self.old) }
        ensures back { back self.new ≡ back self.old }
        ensures cause { CountsFaults (faults self.old) (faults self.new) (is_err result) };

    /// Takes back the link that was given last.
    fn done(&mut self, link: Self::L)
        requires { IsTrue (lent self.old) }
        ensures back { TakesBack (back self.old) (back self.new) link }
        ensures number { number self.new ≡ number self.old }
        ensures coming { coming self.new ≡ coming self.old }
        ensures faults { faults self.new ≡ faults self.old };
}

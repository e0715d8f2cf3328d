//! How many entries each console has.

ghost use Rattle.std.specs.Prelude.{ℕ, ◌≡◌, ◌<◌, ◌^◌, ◌-◌, ◌+◌, ◌++◌, ◌∷◌, [], List, cond, ◌==◌};
ghost use Rattle.desk.specs.Consoles.{IsConsole};
ghost use Rattle.versions.specs.Serials.{AreCounts, count_of};

/// How many entries of a log each console has, in the order of the consoles' numbers.
#[derive(Clone, Copy)]
pub(crate) struct Counts {
    pub(crate) of: [u32; 16],
}

impl Counts {
    /// Those of a log without entries.
    pub(crate) fn none() -> Counts
        ensures { AreCounts result.of [] }
    {
        Counts { of: [0; 16] }
    }

    /// How many entries a console has.
    pub(crate) fn of(&self, console: u8) -> u32
        requires { IsConsole console }
        ensures { result ≡ count_of console self.now.of }
    {
        self.of[console as usize - 1]
    }

    /// With one more entry of a console.
    pub(crate) fn with(&self, console: u8) -> Counts
        requires console { IsConsole console }
        requires room { count_of console self.now.of < 2 ^ 32 - 1 }
        ensures { (other : ℕ) → IsConsole other → count_of other result.of ≡ count_of other self.now.of + cond (console == other) 1 0 }
    {
        let mut of = self.of;
        of[console as usize - 1] += 1;
        Counts { of }
    }
}

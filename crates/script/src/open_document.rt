//! A document that is open, and the console that stages it.

ghost use Rattle.std.specs.Prelude.{◌≡◌, [], Some, Err, IfOk, OnOk};
ghost use Rattle.desk.specs.Consoles.{IsConsole};
ghost use Rattle.difference.specs.declared.fault.DiffFault.TheVariants.{Stage as stage};
ghost use Rattle.room_words.specs.declared.stage_fault.StageFault.{StageFault};
ghost use Rattle.script.specs.Staging.{with_more};
ghost use Rattle.staging.specs.Documents.{HasFault, Says};

use cim_words::NoMemory;
use difference::DiffFault;
use room_words::Difference;
use staging::Document;
use std::alloc::Global;
use std::marker::Model;

/// The document that a console stages, as far as its lines have come.
#[derive(Drop)]
pub(crate) struct Staging {
    console: u8,
    document: Document,
}

impl Model for Staging {
    ghost use Rattle.desk.specs.Consoles.{IsConsole};
    ghost use Rattle.script.specs.Staging.{Staged};

    ghost Value = { Staged };

    ghost view = { λ s. record { console = s.console; text = s.document } };

    ghost invariant = { λ s. IsConsole s.console };
}

impl Staging {
    /// The document of a console, before its first line.
    pub(crate) fn of(alloc: Global, console: u8) -> Staging
        requires { IsConsole console }
        ensures { result ≡ record { console = console; text = Some [] } }
    {
        Staging {
            console,
            document: Document::new(alloc),
        }
    }

    /// The console that stages it.
    pub(crate) fn console(&self) -> u8
        ensures same { result ≡ self.now.console }
        ensures console { IsConsole result }
    {
        self.console
    }

    /// Takes one more line, with a line feed as its end.
    pub(crate) fn add(&mut self, line: &[u8]) -> Result<(), NoMemory>
        ensures { OnOk result (self.new ≡ with_more self.old line.now) }
    {
        self.document.add(line)
    }

    /// The difference that it says.
    pub(crate) fn read(&self, alloc: Global) -> Result<Difference, DiffFault>
        ensures ok { IfOk result (Says self.now.text) }
        ensures fault { (bad : StageFault) → result ≡ Err (stage bad) → HasFault self.now.text bad }
    {
        self.document.read(alloc)
    }
}

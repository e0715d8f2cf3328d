//! Why a line is refused.

ghost use Rattle.std.specs.Prelude.{◌≡◌};
ghost use Rattle.nt_text.specs.Refusal.{refusal_word};

use cim_words::NoMemory;
use thiserror::Error;

/// Why a line is refused, in the order in which the reasons count.
#[derive(Clone, Copy, Debug, PartialEq, Eq, Error)]
pub enum LineRefusal {
    /// The line has more than 8,192 bytes without its end.
    #[error("the line is too long")]
    LineTooLong,
    /// The line is not UTF-8.
    #[error("the line is not UTF-8")]
    Utf8,
    /// The subject or the object is a blank node.
    #[error("the line has a blank node")]
    Blank,
    /// The line is no triple, and says nothing else either.
    #[error("the line is no triple")]
    Syntax,
    /// The subject spells no identifier.
    #[error("the subject is no identifier")]
    Subject,
    /// The written line of the statement has more than 8,192 bytes.
    #[error("the written line of the statement is too long")]
    Wide,
}

impl LineRefusal {
    /// The word by which the program tells of the refusal.
    pub fn word(&self) -> &'static str
        ensures { result.now ≡ refusal_word self.now }
    {
        match self {
            LineRefusal::LineTooLong => "LineTooLong",
            LineRefusal::Utf8 => "Utf8",
            LineRefusal::Blank => "Blank",
            LineRefusal::Syntax => "Syntax",
            LineRefusal::Subject => "Subject",
            LineRefusal::Wide => "Wide",
        }
    }
}

/// Why there is no reading of a line.
#[derive(Clone, Copy, Debug, PartialEq, Eq, Error)]
pub enum LineFault {
    /// The line is refused.
    #[error("{0}")]
    Refusal(LineRefusal),
    /// Memory did not suffice.
    #[error("out of memory")]
    NoMemory,
}

/// Why there is no reading of a document.
#[derive(Clone, Copy, Debug, PartialEq, Eq, Error)]
pub enum NtFault {
    /// A line, counted from 1, is refused.
    #[error("line {line}: {why}")]
    Line {
        /// The line's number.
        line: u32,
        /// Why it is refused.
        why: LineRefusal,
    },
    /// Memory did not suffice.
    #[error("out of memory")]
    NoMemory,
}

impl From<NoMemory> for LineFault {
    ghost use Rattle.std.specs.Prelude.{◌≡◌};
    ghost use Rattle.nt_text.specs.declared.refusal.LineFault.TheVariants.{NoMemory as no_memory};

    ghost from_gives = { λ _ fault. fault ≡ no_memory };

    fn from(_error: NoMemory) -> LineFault {
        LineFault::NoMemory
    }
}

impl From<NoMemory> for NtFault {
    ghost use Rattle.std.specs.Prelude.{◌≡◌};
    ghost use Rattle.nt_text.specs.declared.refusal.NtFault.TheVariants.{NoMemory as no_memory};

    ghost from_gives = { λ _ fault. fault ≡ no_memory };

    fn from(_error: NoMemory) -> NtFault {
        NtFault::NoMemory
    }
}

impl From<LineRefusal> for LineFault {
    ghost use Rattle.std.specs.Prelude.{◌≡◌};
    ghost use Rattle.nt_text.specs.declared.refusal.LineFault.TheVariants.{Refusal as refusal_of};

    ghost from_gives = { λ why fault. fault ≡ refusal_of why };

    fn from(why: LineRefusal) -> LineFault {
        LineFault::Refusal(why)
    }
}

//! The headings of a difference document.

ghost use Rattle.std.specs.Prelude.{◌≡◌};
ghost use Rattle.room_words.specs.Differences.{heading_text};

/// A heading of a difference document, in the order in which headings come. Triples stand under the heading that came last.
#[derive(Clone, Copy, Debug, PartialEq, Eq, PartialOrd, Ord)]
pub enum Heading {
    /// The statements of the header, which are kept and not judged.
    Header,
    /// The statements that have to be in the model beforehand.
    Preconditions,
    /// The statements that are taken out of the model.
    Reverse,
    /// The statements that are put into the model.
    Forward,
    /// The document ends.
    End,
}

impl Heading {
    /// What stands on its line.
    pub fn text(self) -> &'static str
        ensures { result.now ≡ heading_text self }
    {
        match self {
            Heading::Header => "%header",
            Heading::Preconditions => "%preconditions",
            Heading::Reverse => "%reverse",
            Heading::Forward => "%forward",
            Heading::End => "%end",
        }
    }
}

//! The first words of requests.

ghost use Rattle.std.specs.Prelude.{◌≡◌, find, IfSome, IfNone};
ghost use Rattle.std.specs.Str.{bytes_eq};
ghost use Rattle.wire.specs.Requests.{request_word};

/// The first word of a request.
#[derive(Clone, Copy, Debug, PartialEq, Eq)]
pub(crate) enum RequestWord {
    /// A switch is opened.
    Open,
    /// A switch is closed.
    Close,
    /// A position in force is taken away.
    Release,
    /// An item is taken away.
    Remove,
    /// A segment is cut.
    Cut,
    /// A clamp is put on a segment.
    Clamp,
    /// A jumper is fitted.
    Jumper,
    /// A place is grounded.
    Ground,
    /// What is reached is asked for.
    Trace,
    /// The console looks at the history.
    Look,
    /// A difference follows.
    Stage,
    /// The staged difference changes the model.
    Cutover,
    /// The session ends.
    Bye,
}

/// Every first word.
const WORDS: [RequestWord; 13] = [
    RequestWord::Open,
    RequestWord::Close,
    RequestWord::Release,
    RequestWord::Remove,
    RequestWord::Cut,
    RequestWord::Clamp,
    RequestWord::Jumper,
    RequestWord::Ground,
    RequestWord::Trace,
    RequestWord::Look,
    RequestWord::Stage,
    RequestWord::Cutover,
    RequestWord::Bye,
];

impl RequestWord {
    /// The first word that these bytes are.
    pub(crate) fn of(word: &[u8]) -> Option<RequestWord>
        ensures found { IfSome result (λ w. word.now ≡ request_word w) }
        ensures none { IfNone result ((w : RequestWord) → word.now ≡ request_word w → ⊥) }
    {
        among(&WORDS, word)
    }

    /// The word itself.
    pub(crate) fn word(self) -> &'static str
        ensures { result.now ≡ request_word self }
    {
        match self {
            RequestWord::Open => "open",
            RequestWord::Close => "close",
            RequestWord::Release => "release",
            RequestWord::Remove => "remove",
            RequestWord::Cut => "cut",
            RequestWord::Clamp => "clamp",
            RequestWord::Jumper => "jumper",
            RequestWord::Ground => "ground",
            RequestWord::Trace => "trace",
            RequestWord::Look => "look",
            RequestWord::Stage => "stage",
            RequestWord::Cutover => "cutover",
            RequestWord::Bye => "bye",
        }
    }
}

/// The first of some words that these bytes are.
fn among(words: &[RequestWord], word: &[u8]) -> Option<RequestWord>
    ensures { result ≡ find (λ w. bytes_eq (request_word w) word.now) words.now }
{
    words
        .iter()
        .copied()
        .find(|known| known.word().as_bytes() == word)
}

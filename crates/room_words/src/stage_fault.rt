//! Why a document of a difference is refused.

/// The line of a document at fault, counted from 1, and what is wrong with it. A document that is too long has line 0.
#[derive(Clone, Copy, Debug, PartialEq, Eq)]
pub struct StageFault {
    /// The number of the line.
    pub line: u32,
    /// What is wrong.
    pub word: StageWord,
}

/// What is wrong with a document of a difference.
#[derive(Clone, Copy, Debug, PartialEq, Eq)]
pub enum StageWord {
    /// The document, or its written form, has more than 67,108,864 bytes.
    TooLong,
    /// A line has more than 8,192 bytes without its end.
    LineTooLong,
    /// A line is not UTF-8.
    Utf8,
    /// A line has a blank node.
    Blank,
    /// A line is no triple, and says nothing else either.
    Syntax,
    /// The subject of a triple spells no identifier.
    Subject,
    /// The written line of a statement has more than 8,192 bytes.
    Wide,
    /// A line with a percent sign is no heading, or comes twice or out of order; or a triple stands where none may.
    Heading,
    /// A triple is the 200,001st of its list.
    TooMany,
    /// The heading `%end` is missing.
    NoEnd,
}

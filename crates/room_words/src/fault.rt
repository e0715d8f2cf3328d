//! What is wrong with a request that is not of its form.

use crate::stage_fault::StageFault;

/// Why a request is neither done nor judged.
#[derive(Clone, Copy, Debug, PartialEq, Eq)]
pub enum Fault {
    /// The first word is none of the request words.
    Word,
    /// The number of words is wrong for the request.
    Count,
    /// The word with this number after the first, the least such, is not of its form.
    Field(u8),
    /// There is no staged difference to cut over to.
    Staged,
    /// The prefix that a look names is shorter than what the console saw, or longer than the history.
    Prefix,
    /// A line of a script does not name a console.
    Console,
    /// A line of a script has more than 8,192 bytes.
    Long,
    /// A staged document is refused.
    Stage(StageFault),
}

//! What a console's word says, in 64 bits: the slot in the lowest two, whether it is fresh in the third, and above these the number.
ghost use Rattle.std.specs.Prelude.{◌≡◌, ◌+◌, ◌*◌, ◌^◌, ◌<◌, true, false};
ghost use Rattle.board.specs.Word as said;

/// The word of a version that the reader has not collected.
pub(crate) fn fresh_word(number: u32, slot: usize) -> u64
    requires { slot < 3 }
    ensures slot { said.slot_in result ≡ slot }
    ensures fresh { said.is_fresh result ≡ true }
    ensures number { said.number_in result ≡ number }
{
    u64::from(number) * 8 + (4 + slot as u64)
}

/// The word of a version that the reader gave back.
pub(crate) fn stale_word(number: u32, slot: usize) -> u64
    requires { slot < 3 }
    ensures slot { said.slot_in result ≡ slot }
    ensures fresh { said.is_fresh result ≡ false }
    ensures number { said.number_in result ≡ number }
{
    u64::from(number) * 8 + slot as u64
}

/// The slot that a word names.
pub(crate) fn slot_in(word: u64) -> usize
    ensures { result ≡ said.slot_in word }
{
    (word % 4) as usize
}

/// Whether the version there was not collected yet.
pub(crate) fn is_fresh(word: u64) -> bool
    ensures { result ≡ said.is_fresh word }
{
    word / 4 % 2 == 1
}

/// The number of the version there.
pub(crate) fn number_in(word: u64) -> u32
    requires { said.number_in word < 2 ^ 32 }
    ensures { result ≡ said.number_in word }
{
    (word / 8) as u32
}

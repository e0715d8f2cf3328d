//! The words of a line: what stands between single spaces.

ghost use Rattle.std.specs.Prelude.{◌≡◌, ◌==◌, ◌∷◌, [], length, IfOk, IfErr, MatchOption};
ghost use Rattle.std.specs.List.{position_or_len};
ghost use Rattle.wire.specs.Reading.{fields_of};
ghost use Rattle.wire.specs.Words.{is_space, words_of};

use room_words::Fault;

/// The first word of a line, and what follows it: nothing, or a space and the words after the first.
pub(crate) fn split_word(line: &[u8]) -> (&[u8], &[u8])
    ensures { words_of line.now ≡ result.0.now ∷ fields_of result.1.now }
{
    line.split_at(word_length(line))
}

/// How many bytes stand before the first space.
fn word_length(line: &[u8]) -> usize
    ensures { result ≡ position_or_len is_space line.now }
{
    line.iter().take_while(|byte| **byte != b' ').count()
}

/// The first of the words in what follows a word, and what follows it.
fn split_field(fields: &[u8]) -> Option<(&[u8], &[u8])>
    ensures { MatchOption result (fields_of fields.now ≡ []) (λ parts. fields_of fields.now ≡ parts.0.now ∷ fields_of parts.1.now) }
{
    match fields {
        [] => None,
        [_, words @ ..] => Some(split_word(words)),
    }
}

/// Whether there are no words in what follows a word.
pub(crate) fn has_no_field(fields: &[u8]) -> bool
    ensures { result ≡ (length (fields_of fields.now) == 0) }
{
    split_field(fields).is_none()
}

/// Refuses words where there should be none.
pub(crate) fn no_field(fields: &[u8]) -> Result<(), Fault>
    ensures ok { IfOk result (λ _. fields_of fields.now ≡ []) }
    ensures fault { IfErr result (λ fault. (fault ≡ Fault.Count) × (0 ≡ length (fields_of fields.now) → ⊥)) }
{
    match split_field(fields) {
        None => Ok(()),
        Some(_) => Err(Fault::Count),
    }
}

/// The one word in what follows a word.
pub(crate) fn one_field(fields: &[u8]) -> Result<&[u8], Fault>
    ensures ok { IfOk result (λ one. fields_of fields.now ≡ one.now ∷ []) }
    ensures fault { IfErr result (λ fault. (fault ≡ Fault.Count) × (1 ≡ length (fields_of fields.now) → ⊥)) }
{
    match split_field(fields) {
        Some((one, rest)) => {
            no_field(rest)?;
            Ok(one)
        }
        None => Err(Fault::Count),
    }
}

/// The two words in what follows a word.
pub(crate) fn two_fields(fields: &[u8]) -> Result<(&[u8], &[u8]), Fault>
    ensures ok { IfOk result (λ two. fields_of fields.now ≡ two.0.now ∷ two.1.now ∷ []) }
    ensures fault { IfErr result (λ fault. (fault ≡ Fault.Count) × (2 ≡ length (fields_of fields.now) → ⊥)) }
{
    match split_field(fields) {
        Some((one, rest)) => {
            let other = one_field(rest)?;
            Ok((one, other))
        }
        None => Err(Fault::Count),
    }
}

/// The three words in what follows a word.
pub(crate) fn three_fields(fields: &[u8]) -> Result<(&[u8], &[u8], &[u8]), Fault>
    ensures ok { IfOk result (λ three. fields_of fields.now ≡ three.0.now ∷ three.1.now ∷ three.2.now ∷ []) }
    ensures fault { IfErr result (λ fault. (fault ≡ Fault.Count) × (3 ≡ length (fields_of fields.now) → ⊥)) }
{
    match split_field(fields) {
        Some((first, rest)) => {
            let (second, third) = two_fields(rest)?;
            Ok((first, second, third))
        }
        None => Err(Fault::Count),
    }
}

/// The four words in what follows a word.
pub(crate) fn four_fields(fields: &[u8]) -> Result<(&[u8], &[u8], &[u8], &[u8]), Fault>
    ensures ok { IfOk result (λ four. fields_of fields.now ≡ four.0.now ∷ four.1.now ∷ four.2.now ∷ four.3.now ∷ []) }
    ensures fault { IfErr result (λ fault. (fault ≡ Fault.Count) × (4 ≡ length (fields_of fields.now) → ⊥)) }
{
    match split_field(fields) {
        Some((first, rest)) => {
            let (second, third, fourth) = three_fields(rest)?;
            Ok((first, second, third, fourth))
        }
        None => Err(Fault::Count),
    }
}

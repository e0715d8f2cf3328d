//! The values of literals (IEC 61970-301 names the attributes; the forms are those of this project).

ghost use Rattle.std.specs.Prelude.{◌≡◌, ◌<◌, ◌^◌, IsTrue};
ghost use Rattle.std.specs.List.{list_all};
ghost use Rattle.cim_words.specs.Values as spec;
ghost use Rattle.cim_words.specs.Values.{truth_of, sequence_number, number_from};

/// The most digits of a sequence number.
const MOST_DIGITS: usize = 9;

/// Reads a truth value: `true` or `1`, `false` or `0`.
#[tactic(auto, unfolding(crate::specs::Values::truth_of))]
pub fn read_truth(text: &str) -> Option<bool>
    ensures { result ≡ truth_of text.now }
{
    if text == "true" || text == "1" {
        Some(true)
    } else if text == "false" || text == "0" {
        Some(false)
    } else {
        None
    }
}

/// Reads a sequence number: 1 to 9 digits.
#[tactic(auto, unfolding(crate::specs::Values::sequence_number))]
pub fn read_sequence_number(text: &str) -> Option<u32>
    ensures { result ≡ sequence_number text.now }
{
    let digits = text.as_bytes();
    if are_digits(digits) && !digits.is_empty() && digits.len() <= MOST_DIGITS {
        Some(add_digits(0, digits) as u32)
    } else {
        None
    }
}

/// Whether all of these bytes are decimal digits.
pub(crate) fn are_digits(bytes: &[u8]) -> bool
    ensures { result ≡ list_all spec.is_digit bytes.now }
{
    bytes.iter().all(|byte| is_digit(*byte))
}

/// Whether a byte is a decimal digit.
pub(crate) fn is_digit(byte: u8) -> bool
    ensures { result ≡ spec.is_digit byte }
{
    byte.is_ascii_digit()
}

/// The number that further digits make of the one that the digits before them spell.
pub(crate) fn add_digits(before: u128, digits: &[u8]) -> u128
    requires digits { IsTrue (list_all spec.is_digit digits.now) }
    requires fits { number_from before digits.now < 2 ^ 128 }
    ensures { result ≡ number_from before digits.now }
{
    let mut number = before;
    for digit in digits {
        number = number * 10 + u128::from(*digit - b'0');
    }
    number
}

//! Lengths, in whole millimetres, and their texts, in metres.

ghost use Rattle.std.specs.Prelude.{◌≡◌, ◌<◌, ◌^◌, ◌*◌, ◌/◌, ◌++◌, ◌≤◌, nat_le, if◌then◌else◌, IfSome, OnSome, Some, None, IsTrue, MatchOption, MatchResult, length};
ghost use Rattle.std.specs.List.{list_all, prefix_len};
ghost use Rattle.cim_words.specs.Length as spec;
ghost use Rattle.cim_words.specs.Length.{IsNumberSplit, digits_at, after_digits, fraction_at, after_fraction, number_in, scale_of, length_of};
ghost use Rattle.cim_words.specs.PhaseParts.{begins_with};
ghost use Rattle.cim_words.specs.Values.{is_digit};

use crate::values::{self, add_digits, are_digits};
use thiserror::Error;

/// The most digits of a length, on both sides of its point together.
const MOST_DIGITS: usize = 30;

/// The most digits of a power of ten.
const MOST_EXPONENT_DIGITS: usize = 3;

/// The greatest length, in metres.
const MOST_METRES: u128 = 1_000_000_000;

/// A length, in whole millimetres.
#[derive(Clone, Copy, Debug, PartialEq, Eq, PartialOrd, Ord, Hash)]
pub struct Length {
    /// The millimetres.
    pub mm: u64,
}

/// A text that spells no length.
#[derive(Clone, Copy, Debug, PartialEq, Eq, Error)]
#[error("not a length")]
pub struct BadLength;

impl Length {
    /// Reads a length in metres: an optional sign, 1 to 30 digits with at most one point among or beside them, and an
    /// optional power of ten. What is finer than a millimetre is dropped.
    pub fn read(text: &str) -> Result<Length, BadLength>
        ensures { MatchResult result (λ length. length_of text.now ≡ Some length.mm) (λ _. length_of text.now ≡ None) }
    {
        match read_length(text.as_bytes()) {
            Some(mm) => Ok(Length { mm }),
            None => Err(BadLength),
        }
    }
}

// A power of ten: whether it divides, and its exponent.
#[derive(Clone, Copy)]
struct Scale {
    divides: bool,
    exponent: u32,
}

// The millimetres that a text spells.
fn read_length(text: &[u8]) -> Option<u64>
    ensures { result ≡ length_of text.now }
{
    let (whole, fraction, ending) = split_number(text);
    let Some(number) = read_number(whole, fraction) else {
        return None;
    };
    let Some(scale) = read_scale(ending) else {
        return None;
    };
    let negative = is_negative(text);
    let behind = fraction.len() as u32;
    if scale.divides {
        millimetres(negative, number, 0, behind + scale.exponent)
    } else {
        millimetres(negative, number, scale.exponent, behind)
    }
}

// The digits before and after the point of a text, and what follows them.
fn split_number(text: &[u8]) -> (&[u8], &[u8], &[u8])
    ensures split { IsNumberSplit text.now result.0.now result.1.now result.2.now }
    ensures whole { IsTrue (list_all is_digit result.0.now) }
    ensures fraction { IsTrue (list_all is_digit result.1.now) }
{
    let (whole, rest) = split_digits(without_sign(text));
    let (fraction, ending) = split_fraction(rest);
    (whole, fraction, ending)
}

// What follows an optional sign.
fn without_sign(text: &[u8]) -> &[u8]
    ensures { result.now ≡ spec.without_sign text.now }
{
    match text {
        [b'+' | b'-', rest @ ..] => rest,
        _ => text,
    }
}

// Whether a text begins with a minus.
fn is_negative(text: &[u8]) -> bool
    ensures { result ≡ begins_with spec.minus text.now }
{
    text.first() == Some(&b'-')
}

// The digits at the front of a text, and what follows them.
fn split_digits(text: &[u8]) -> (&[u8], &[u8])
    ensures digits { result.0.now ≡ digits_at text.now }
    ensures rest { result.1.now ≡ after_digits text.now }
    ensures only { IsTrue (list_all is_digit result.0.now) }
{
    text.split_at(count_digits(text))
}

// How many digits are at the front of a text.
fn count_digits(text: &[u8]) -> usize
    ensures { result ≡ prefix_len is_digit text.now }
{
    text.iter()
        .take_while(|byte| values::is_digit(**byte))
        .count()
}

// The digits after a point at the front of a text, and what follows both.
fn split_fraction(text: &[u8]) -> (&[u8], &[u8])
    ensures digits { result.0.now ≡ fraction_at text.now }
    ensures rest { result.1.now ≡ after_fraction text.now }
    ensures only { IsTrue (list_all is_digit result.0.now) }
{
    match text {
        [b'.', rest @ ..] => split_digits(rest),
        _ => text.split_at(0),
    }
}

// The number that the digits before and after a point spell, where there are neither none nor too many.
fn read_number(whole: &[u8], fraction: &[u8]) -> Option<u128>
    requires whole { IsTrue (list_all is_digit whole.now) }
    requires fraction { IsTrue (list_all is_digit fraction.now) }
    ensures value { result ≡ number_in (whole.now ++ fraction.now) }
    ensures small { IfSome result (λ number. number < 10 ^ 30) }
    ensures short { OnSome result (length fraction.now ≤ 30) }
{
    let count = whole.len() + fraction.len();
    if count == 0 || MOST_DIGITS < count {
        return None;
    }
    Some(add_digits(add_digits(0, whole), fraction))
}

// The power of ten that the end of a text names.
fn read_scale(text: &[u8]) -> Option<Scale>
    ensures value { MatchOption result (scale_of text.now ≡ None) (λ scale. scale_of text.now ≡ Some (record { divides = scale.divides; exponent = scale.exponent })) }
    ensures small { IfSome result (λ scale. scale.exponent < 1000) }
{
    let [mark, power @ ..] = text else {
        return Some(Scale {
            divides: false,
            exponent: 0,
        });
    };
    let digits = without_sign(power);
    if is_exponent_mark(*mark) && is_exponent(digits) {
        Some(Scale {
            divides: is_negative(power),
            exponent: add_digits(0, digits) as u32,
        })
    } else {
        None
    }
}

// Whether a byte stands before a power of ten.
fn is_exponent_mark(byte: u8) -> bool
    ensures { result ≡ spec.is_exponent_mark byte }
{
    byte == b'e' || byte == b'E'
}

// Whether these are 1 to 3 digits.
fn is_exponent(digits: &[u8]) -> bool
    ensures { result ≡ spec.is_exponent digits.now }
{
    are_digits(digits) && !digits.is_empty() && digits.len() <= MOST_EXPONENT_DIGITS
}

// The whole millimetres in so many metres, times one power of ten and divided by another.
fn millimetres(negative: bool, number: u128, up: u32, down: u32) -> Option<u64>
    requires { number < 10 ^ 30 }
    ensures { result ≡ spec.millimetres negative number up down }
{
    if number == 0 {
        Some(0)
    } else if negative {
        None
    } else if up < down {
        divided(number, down - up)
    } else {
        multiplied(number, up - down)
    }
}

// The whole millimetres in so many metres times a power of ten.
fn multiplied(number: u128, power: u32) -> Option<u64>
    requires { 0 < number }
    ensures { result ≡ (if nat_le (number * 10 ^ power) 1000000000 then Some (number * 10 ^ power * 1000) else None) }
{
    let Some(factor) = 10u128.checked_pow(power) else {
        return None;
    };
    match number.checked_mul(factor) {
        Some(metres) if metres <= MOST_METRES => Some(metres as u64 * 1000),
        _ => None,
    }
}

// The whole millimetres in so many metres divided by a power of ten.
fn divided(number: u128, power: u32) -> Option<u64>
    requires { number < 10 ^ 30 }
    ensures { result ≡ (if nat_le number (1000000000 * 10 ^ power) then Some (number * 1000 / 10 ^ power) else None) }
{
    // A divisor that does not fit is greater than what it divides.
    let Some(divisor) = 10u128.checked_pow(power) else {
        return Some(0);
    };
    if number <= MOST_METRES.saturating_mul(divisor) {
        Some((number * 1000 / divisor) as u64)
    } else {
        None
    }
}

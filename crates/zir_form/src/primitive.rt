// Names of types and values that no declaration gives (Zig Language Reference 0.14, "Primitive Types",
// "Primitive Values").
ghost use Rattle.std.specs.Prelude.{◌≡◌, Some};
ghost use Rattle.zir_form.specs.Primitives.{word_in, written, one_digit, two_digits, width_of, integer_named, integer_of, primitive_of};

use crate::bytes::{behind, byte_at, is_within};

/// A type or value that has a name in every text.
#[derive(Clone, Copy, Debug, PartialEq, Eq)]
pub enum Primitive {
    /// `u1` to `u64`, by the width.
    Unsigned(u8),
    /// `i1` to `i64`, by the width.
    Signed(u8),
    /// `usize`
    Usize,
    /// `isize`
    Isize,
    /// `bool`
    Bool,
    /// `void`
    Void,
    /// `noreturn`
    Noreturn,
    /// `type`
    Type,
    /// `comptime_int`
    ComptimeInt,
    /// `anyerror`
    AnyError,
    /// `true`
    True,
    /// `false`
    False,
    /// `null`
    Null,
    /// `undefined`
    Undefined,
}

/// A row: what is written, and what it is.
type Row = (&'static str, Primitive);

/// The primitives without a width.
const WORDS: [Row; 12] = [
    ("usize", Primitive::Usize),
    ("isize", Primitive::Isize),
    ("bool", Primitive::Bool),
    ("void", Primitive::Void),
    ("noreturn", Primitive::Noreturn),
    ("type", Primitive::Type),
    ("comptime_int", Primitive::ComptimeInt),
    ("anyerror", Primitive::AnyError),
    ("true", Primitive::True),
    ("false", Primitive::False),
    ("null", Primitive::Null),
    ("undefined", Primitive::Undefined),
];

#[tactic(auto, using(crate::proofs::Rows::word_here, crate::proofs::Rows::word_further, crate::proofs::Rows::word_none))]
fn word_in(rows: &[Row], name: &[u8]) -> Option<Primitive>
    ensures { result ≡ word_in (written rows.now) name.now }
{
    for (text, primitive) in rows {
        if text.as_bytes() == name {
            return Some(*primitive);
        }
    }
    None
}

/// A width of one digit.
#[tactic(auto, unfolding(crate::specs::Primitives::one_digit))]
fn one_digit(ones: u8) -> Option<u8>
    ensures { result ≡ one_digit ones }
{
    if is_within(b'1', b'9', ones) {
        Some(ones - b'0')
    } else {
        None
    }
}

/// A width of two digits, the first of which is not 0.
#[tactic(auto, unfolding(crate::specs::Primitives::two_digits))]
fn two_digits(tens: u8, ones: u8) -> Option<u8>
    ensures { result ≡ two_digits tens ones }
{
    if is_within(b'1', b'9', tens) && is_within(b'0', b'9', ones) {
        let width = 10 * (tens - b'0') + (ones - b'0');
        if width <= 64 { Some(width) } else { None }
    } else {
        None
    }
}

/// A width from 1 to 64, in decimal without a leading zero.
#[tactic(auto, using(crate::proofs::Rows::width_one, crate::proofs::Rows::width_two, crate::proofs::Rows::width_none))]
fn width_of(digits: &[u8]) -> Option<u8>
    ensures { result ≡ width_of digits.now }
{
    match digits.len() {
        1 => one_digit(digits[0]),
        2 => two_digits(digits[0], digits[1]),
        _ => None,
    }
}

/// The integer type of a letter and a width.
fn integer_named(letter: u8, width: u8) -> Option<Primitive>
    ensures { result ≡ integer_named letter (Some width) }
{
    if letter == b'u' {
        Some(Primitive::Unsigned(width))
    } else if letter == b'i' {
        Some(Primitive::Signed(width))
    } else {
        None
    }
}

/// An integer type with a width.
#[tactic(auto, using(crate::proofs::Rows::integer_parts))]
fn integer_of(name: &[u8]) -> Option<Primitive>
    ensures { result ≡ integer_of name.now }
{
    match width_of(behind(name, 1)) {
        Some(width) => integer_named(byte_at(name, 0), width),
        None => None,
    }
}

/// The primitive that has the name.
#[tactic(auto, unfolding(crate::specs::Primitives::primitive_of))]
pub fn primitive_of(name: &[u8]) -> Option<Primitive>
    ensures { result ≡ primitive_of name.now }
{
    match word_in(&WORDS, name) {
        Some(primitive) => Some(primitive),
        None => integer_of(name),
    }
}

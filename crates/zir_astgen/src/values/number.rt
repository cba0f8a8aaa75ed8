// Integer and character literals (Zig Language Reference 0.14, "Integer Literals", "Escape Sequences").
ghost use Rattle.std.specs.Prelude.{◌≡◌, ◌≤◌, ◌<◌, ◌+◌, ◌*◌, ◌^◌, min};
ghost use Rattle.zig_tree.specs.TokenBytes.{digit_value};
ghost use Rattle.zig_tree.specs.TokenNumbers.{number_behind};
ghost use Rattle.zir_astgen.specs.Numbers.{largest, int_value, escape_code, char_value};

use zir_form::{behind, byte_at, digits_at_front, is_within, letter_value};

/// The largest number that is written.
const LARGEST: u128 = (1 << 127) - 1;

/// What may stand between digits.
const BAR: u8 = b'_';

/// The value of a digit, also of a hexadecimal one.
#[tactic(auto, unfolding(zig_tree::specs::TokenBytes::digit_value, zig_tree::specs::TokenBytes::is_digit))]
fn digit_value(byte: u8) -> u8
    ensures { result ≡ digit_value byte }
{
    if is_within(b'0', b'9', byte) {
        byte - b'0'
    } else if is_within(b'A', b'F', byte) {
        byte - 55
    } else {
        byte.saturating_sub(87)
    }
}

/// `base * value + digit`, where the largest number is at least that.
fn next_value(base: u8, value: u128, digit: u8) -> u128
    ensures { result ≡ min (base * value + digit) largest }
{
    u128::from(base)
        .saturating_mul(value)
        .saturating_add(u128::from(digit))
        .min(LARGEST)
}

/// The number that digits of a base make, with `_` between them, where the largest number is at least
/// that.
fn digits_value(base: u8, digits: &[u8]) -> u128
    requires { 1 ≤ base }
    ensures { result ≡ min (number_behind base 0 digits.now) largest }
{
    let mut value = 0;
    for &byte in digits {
        if byte != BAR {
            value = next_value(base, value, digit_value(byte));
        }
    }
    value
}

/// The value of an integer literal. A token's number is never above the largest one, so the value is
/// that number.
#[tactic(auto, unfolding(crate::specs::Numbers::int_value, crate::specs::Numbers::number_in))]
pub fn int_value(word: &[u8]) -> u128
    ensures exact { result ≡ int_value word.now }
    ensures small { result < 2 ^ 127 }
{
    if byte_at(word, 0) != b'0' {
        return digits_value(10, word);
    }
    match byte_at(word, 1) {
        b'x' => digits_value(16, behind(word, 2)),
        b'o' => digits_value(8, behind(word, 2)),
        b'b' => digits_value(2, behind(word, 2)),
        _ => 0,
    }
}

/// The code point that an escape stands for, from behind its backslash.
#[tactic(auto, unfolding(crate::specs::Numbers::escape_code))]
fn escape_code(rest: &[u8]) -> u32
    ensures { result ≡ escape_code rest.now }
{
    let letter = byte_at(rest, 0);
    if letter == b'x' {
        16 * u32::from(digit_value(byte_at(rest, 1))) + u32::from(digit_value(byte_at(rest, 2)))
    } else if letter == b'u' {
        digits_at_front(behind(rest, 2)).number
    } else {
        u32::from(letter_value(letter))
    }
}

/// The code point of a character literal, from its opening quote. What stands there as it is, is one
/// byte; a token's code point is at most 0x10FFFF.
#[tactic(auto, unfolding(crate::specs::Numbers::char_value))]
pub fn char_value(bytes: &[u8]) -> u32
    ensures { result ≡ char_value bytes.now }
{
    let byte = byte_at(bytes, 1);
    if byte == b'\\' {
        escape_code(behind(bytes, 2))
    } else {
        u32::from(byte)
    }
}

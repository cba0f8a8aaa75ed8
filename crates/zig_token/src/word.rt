// Names and numbers (Zig Language Reference 0.14, "Integer Literals").
ghost use Rattle.std.specs.Prelude.{◌≡◌, ◌≤◌, ◌<◌, ◌+◌, ◌^◌, length, drop, IfOk, SomeIff, ◌*◌, false, true, slice_index};
ghost use Rattle.zig_tree.specs.TokenBytes.{is_digit};
ghost use Rattle.zig_token.specs.Scan.{name_end, number_end};
ghost use Rattle.zig_tree.specs.TokenNumbers.{digits_fit, is_integer};

use crate::bytes::{byte_at, digit_value, is_digit, is_hex_digit, is_name_byte};
use crate::fault::LexFault;

/// The end of the letters, digits and `_` at a place.
#[tactic(auto, using(crate::proofs::Words::name_further, crate::proofs::Words::name_ends, crate::proofs::Words::name_done), unfolding(crate::specs::Scan::name_end))]
pub fn name_end(text: &[u8], from: usize) -> usize
    requires { from ≤ length text.now }
    ensures exact { result ≡ name_end text.now from }
    ensures after { from ≤ result }
    ensures within { result ≤ length text.now }
{
    let mut at = from;
    while at < text.len() && is_name_byte(text[at]) {
        at += 1;
    }
    at
}

/// `base * value + digit`, where that is at most 2^127 - 1.
fn next_value(base: u128, value: u128, digit: u8) -> Option<u128>
    ensures { SomeIff result (base * value + digit < 2 ^ 127) (base * value + digit) }
{
    let next = base.checked_mul(value)?.checked_add(digit as u128)?;
    if next < 1 << 127 { Some(next) } else { None }
}

/// Whether the bytes are digits of the base, with `_` only between them, of a number that is at
/// most 2^127 - 1.
#[tactic(auto, using(crate::proofs::Words::digits_bar, crate::proofs::Words::digits_next, crate::proofs::Words::digits_wrong, crate::proofs::Words::digits_done))]
fn digits_fit(base: u8, digits: &[u8]) -> bool
    ensures { result ≡ digits_fit base 0 false digits.now }
{
    let mut value: u128 = 0;
    let mut after_digit = false;
    for &byte in digits {
        if byte == b'_' {
            if !after_digit {
                return false;
            }
            after_digit = false;
        } else {
            if !is_hex_digit(byte) || base <= digit_value(byte) {
                return false;
            }
            match next_value(base as u128, value, digit_value(byte)) {
                None => return false,
                Some(next) => value = next,
            }
            after_digit = true;
        }
    }
    after_digit
}

#[tactic(auto, unfolding(zig_tree::specs::TokenNumbers::is_integer))]
fn is_integer(word: &[u8]) -> bool
    ensures { result ≡ is_integer word.now }
{
    if byte_at(word, 0) != b'0' {
        return digits_fit(10, word);
    }
    match byte_at(word, 1) {
        b'x' => digits_fit(16, &word[2..]),
        b'o' => digits_fit(8, &word[2..]),
        b'b' => digits_fit(2, &word[2..]),
        _ => word.len() == 1,
    }
}

/// The end of a number, from its first digit.
#[tactic(auto, using(crate::proofs::Pieces::digit_begun), unfolding(crate::specs::Scan::number_end))]
pub fn number_end(text: &[u8], at: usize) -> Result<usize, LexFault>
    requires place { (at < length text.now) × (length text.now < 2 ^ 32) }
    requires digit { is_digit (slice_index text.now at) ≡ true }
    ensures exact { result ≡ number_end text.now at }
    ensures within { IfOk result (λ end. (at < end) × (end ≤ length text.now)) }
{
    let end = name_end(text, at);
    let has_fraction = byte_at(text, end) == b'.' && is_digit(byte_at(text, end + 1));
    if is_integer(&text[at..end]) && !has_fraction {
        Ok(end)
    } else {
        Err(LexFault::BadNumber { at: at as u32 })
    }
}

// Escapes, strings on one line, character literals (Zig Language Reference 0.14, "Escape Sequences").
ghost use Rattle.std.specs.Prelude.{◌≡◌, ◌≤◌, ◌<◌, ◌+◌, ◌*◌, ◌^◌, length, drop, IfOk, false};
ghost use Rattle.zig_tree.specs.TokenBytes.{is_hex_digit, digit_value};
ghost use Rattle.zig_token.specs.Scan.{hex_pair, closes_code, code_from, escape_at, misfit, item_end, quoted_end, char_misfit, char_escape_misfit, char_item_end, char_end};
ghost use Rattle.zig_tree.specs.TokenBytes.{is_escaped};
ghost use Rattle.zig_token.specs.Escapes.{EndsWithin};

use crate::bytes::{byte_at, digit_value, ends_line, is_hex_digit, is_within};
use crate::fault::LexFault;
use crate::utf8::char_len;

/// An escape, from its backslash.
#[derive(Clone, Copy, Debug, PartialEq, Eq)]
pub enum Escape {
    /// The place behind it.
    Whole(usize),
    /// The first byte with which no escape begins.
    Wrong(usize),
}

#[tactic(auto, unfolding(zig_tree::specs::TokenBytes::is_escaped))]
fn is_escaped(byte: u8) -> bool
    ensures { result ≡ is_escaped byte }
{
    byte == b'n' || byte == b'r' || byte == b't' || byte == b'\\' || byte == b'\'' || byte == b'"'
}

#[tactic(auto, using(crate::proofs::Quotes::hex_within), unfolding(crate::specs::Scan::hex_pair))]
fn hex_pair(text: &[u8], at: usize) -> Escape
    requires { (at ≤ length text.now) × (length text.now < 2 ^ 32) }
    ensures exact { result ≡ hex_pair text.now at }
    ensures within { EndsWithin text.now at result }
{
    if !is_hex_digit(byte_at(text, at)) {
        return Escape::Wrong(at);
    }
    if !is_hex_digit(byte_at(text, at + 1)) {
        return Escape::Wrong(at + 1);
    }
    Escape::Whole(at + 2)
}

/// Whether a byte behind the digits of a code point closes it.
#[tactic(auto, unfolding(crate::specs::Scan::closes_code))]
fn closes_code(byte: u8, some: bool, value: u32) -> bool
    ensures { result ≡ closes_code byte some value }
{
    byte == b'}' && some && !(0xD800 <= value && value <= 0xDFFF)
}

/// The digits of a code point, and `}`.
#[tactic(auto, using(crate::proofs::Quotes::code_wrong, crate::proofs::Quotes::code_further, crate::proofs::Quotes::code_closes, crate::proofs::Quotes::code_open, crate::proofs::Quotes::code_done))]
fn code_end(text: &[u8], from: usize) -> Escape
    requires { (from ≤ length text.now) × (length text.now < 2 ^ 32) }
    ensures exact { result ≡ code_from 0 false from (drop from text.now) }
    ensures within { EndsWithin text.now from result }
{
    let mut at = from;
    let mut value: u32 = 0;
    let mut some = false;
    while at < text.len() {
        let byte = text[at];
        if !is_hex_digit(byte) {
            if closes_code(byte, some, value) {
                return Escape::Whole(at + 1);
            }
            return Escape::Wrong(at);
        }
        let next = 16 * value + digit_value(byte) as u32;
        if next > 0x10FFFF {
            return Escape::Wrong(at);
        }
        value = next;
        some = true;
        at += 1;
    }
    Escape::Wrong(at)
}

/// An escape, from its backslash.
#[tactic(auto, using(crate::proofs::Quotes::escaped_within, crate::proofs::Quotes::byte_within), unfolding(crate::specs::Scan::escape_at))]
fn escape_at(text: &[u8], at: usize) -> Escape
    requires { (at < length text.now) × (length text.now < 2 ^ 32) }
    ensures exact { result ≡ escape_at text.now at }
    ensures within { EndsWithin text.now (at + 1) result }
{
    let next = byte_at(text, at + 1);
    if is_escaped(next) {
        Escape::Whole(at + 2)
    } else if next == b'x' {
        hex_pair(text, at + 2)
    } else if next == b'u' {
        if byte_at(text, at + 2) == b'{' {
            code_end(text, at + 3)
        } else {
            Escape::Wrong(at + 2)
        }
    } else {
        Escape::Wrong(at + 1)
    }
}

/// What a byte shows that does not fit the escape of a backslash, within quotes.
#[tactic(auto, unfolding(crate::specs::Scan::misfit))]
fn misfit(text: &[u8], quote: usize, slash: usize, at: usize) -> LexFault
    requires { (quote < 2 ^ 32) × (slash < 2 ^ 32) × (at < 2 ^ 32) }
    ensures { result ≡ misfit text.now quote slash at }
{
    if ends_line(text, at) {
        LexFault::OpenString { at: quote as u32 }
    } else if char_len(text, at) == 0 {
        LexFault::BadByte { at: at as u32 }
    } else {
        LexFault::BadEscape { at: slash as u32 }
    }
}

/// The end of an escape or a character of a string.
#[tactic(auto, using(crate::proofs::Lines::char_fits), unfolding(crate::specs::Scan::item_end))]
fn item_end(text: &[u8], quote: usize, at: usize) -> Result<usize, LexFault>
    requires { (quote < at) × (at < length text.now) × (length text.now < 2 ^ 32) }
    ensures exact { result ≡ item_end text.now quote at }
    ensures within { IfOk result (λ end. (at < end) × (end ≤ length text.now)) }
{
    if text[at] == b'\\' {
        return match escape_at(text, at) {
            Escape::Whole(end) => Ok(end),
            Escape::Wrong(wrong) => Err(misfit(text, quote, at, wrong)),
        };
    }
    if ends_line(text, at) {
        return Err(LexFault::OpenString { at: quote as u32 });
    }
    let len = char_len(text, at);
    if len == 0 {
        return Err(LexFault::BadByte { at: at as u32 });
    }
    Ok(at + len)
}

/// The end of a string, from its opening quote.
#[tactic(auto, using(crate::proofs::Quotes::quoted_ends, crate::proofs::Quotes::quoted_wrong, crate::proofs::Quotes::quoted_further, crate::proofs::Quotes::quoted_done), unfolding(crate::specs::Scan::quoted_end))]
pub fn quoted_end(text: &[u8], quote: usize) -> Result<usize, LexFault>
    requires { (quote < length text.now) × (length text.now < 2 ^ 32) }
    ensures exact { result ≡ quoted_end text.now quote }
    ensures within { IfOk result (λ end. (quote < end) × (end ≤ length text.now)) }
{
    let mut at = quote + 1;
    while at < text.len() {
        if text[at] == b'"' {
            return Ok(at + 1);
        }
        at = item_end(text, quote, at)?;
    }
    Err(LexFault::OpenString { at: quote as u32 })
}

#[tactic(auto, unfolding(crate::specs::Scan::char_misfit))]
fn char_misfit(text: &[u8], quote: usize, at: usize) -> LexFault
    requires { (quote < 2 ^ 32) × (at < 2 ^ 32) }
    ensures { result ≡ char_misfit text.now quote at }
{
    if ends_line(text, at) {
        LexFault::OpenString { at: quote as u32 }
    } else {
        LexFault::BadByte { at: at as u32 }
    }
}

#[tactic(auto, unfolding(crate::specs::Scan::char_escape_misfit))]
fn char_escape_misfit(text: &[u8], quote: usize, slash: usize, at: usize) -> LexFault
    requires { (quote < 2 ^ 32) × (slash < 2 ^ 32) × (at < 2 ^ 32) }
    ensures { result ≡ char_escape_misfit text.now quote slash at }
{
    if ends_line(text, at) {
        LexFault::OpenString { at: quote as u32 }
    } else if is_within(b' ', b'~', byte_at(text, at)) {
        LexFault::BadEscape { at: slash as u32 }
    } else {
        LexFault::BadByte { at: at as u32 }
    }
}

#[tactic(auto, using(crate::proofs::Quotes::byte_within), unfolding(crate::specs::Scan::char_item_end))]
fn char_item_end(text: &[u8], quote: usize) -> Result<usize, LexFault>
    requires { (quote < length text.now) × (length text.now < 2 ^ 32) }
    ensures exact { result ≡ char_item_end text.now quote }
    ensures within { IfOk result (λ end. (quote < end) × (end ≤ length text.now)) }
{
    let byte = byte_at(text, quote + 1);
    if byte == b'\\' {
        return match escape_at(text, quote + 1) {
            Escape::Whole(end) => Ok(end),
            Escape::Wrong(wrong) => Err(char_escape_misfit(text, quote, quote + 1, wrong)),
        };
    }
    if is_within(b' ', b'~', byte) && byte != b'\'' {
        Ok(quote + 2)
    } else {
        Err(char_misfit(text, quote, quote + 1))
    }
}

/// The end of a character literal, from its opening quote.
#[tactic(auto, using(crate::proofs::Quotes::byte_within), unfolding(crate::specs::Scan::char_end))]
pub fn char_end(text: &[u8], quote: usize) -> Result<usize, LexFault>
    requires { (quote < length text.now) × (length text.now < 2 ^ 32) }
    ensures exact { result ≡ char_end text.now quote }
    ensures within { IfOk result (λ end. (quote < end) × (end ≤ length text.now)) }
{
    let at = char_item_end(text, quote)?;
    if byte_at(text, at) == b'\'' {
        Ok(at + 1)
    } else {
        Err(char_misfit(text, quote, at))
    }
}

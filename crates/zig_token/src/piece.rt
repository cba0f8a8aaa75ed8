// What stands at a place of a text.
ghost use Rattle.std.specs.Prelude.{◌≡◌, ◌≤◌, ◌<◌, ◌+◌, ◌^◌, length, IfOk};
ghost use Rattle.zig_token.specs.Scan.{at_sign, symbol_at, word_or_symbol, token_at, piece_at, piece_end};

use crate::bytes::{byte_at, is_blank, is_digit, is_name_start};
use crate::fault::LexFault;
use crate::line::{begins, line_end, lines_end};
use crate::quoted::{char_end, quoted_end};
use crate::word::{name_end, number_end};
use zig_tree::{TokenKind, symbol_at_front, word_kind};

/// A piece of a text, from the place where it begins to before `end`.
#[derive(Clone, Copy, Debug, PartialEq, Eq)]
pub enum Piece {
    /// A separator or a comment.
    Gap(usize),
    Token(TokenKind, usize),
}

/// `@"..."`, which is a name, or `@` and a name.
#[tactic(auto, using(crate::proofs::Lines::begins_fits), unfolding(crate::specs::Scan::at_sign))]
fn at_sign(text: &[u8], at: usize) -> Result<Piece, LexFault>
    requires { (at < length text.now) × (length text.now < 2 ^ 32) }
    ensures exact { result ≡ at_sign text.now at }
    ensures within { IfOk result (λ piece. (at < piece_end piece) × (piece_end piece ≤ length text.now)) }
{
    let bad = LexFault::BadByte { at: at as u32 };
    if begins(text, at + 1, b'"', b'"') {
        return Err(bad);
    }
    if byte_at(text, at + 1) == b'"' {
        let end = quoted_end(text, at + 1)?;
        return Ok(Piece::Token(TokenKind::Identifier, end));
    }
    if is_name_start(byte_at(text, at + 1)) {
        return Ok(Piece::Token(TokenKind::Builtin, name_end(text, at + 1)));
    }
    Err(bad)
}

#[tactic(auto, using(crate::proofs::Pieces::symbol_fits), unfolding(crate::specs::Scan::symbol_at))]
fn symbol_at(text: &[u8], at: usize) -> Result<Piece, LexFault>
    requires { (at < length text.now) × (length text.now < 2 ^ 32) }
    ensures exact { result ≡ symbol_at text.now at }
    ensures within { IfOk result (λ piece. (at < piece_end piece) × (piece_end piece ≤ length text.now)) }
{
    match symbol_at_front(&text[at..]) {
        None => Err(LexFault::BadByte { at: at as u32 }),
        Some((len, kind)) => Ok(Piece::Token(kind, at + len)),
    }
}

#[tactic(auto, using(crate::proofs::Pieces::name_begun), unfolding(crate::specs::Scan::word_or_symbol))]
fn word_or_symbol(text: &[u8], at: usize) -> Result<Piece, LexFault>
    requires { (at < length text.now) × (length text.now < 2 ^ 32) }
    ensures exact { result ≡ word_or_symbol text.now at }
    ensures within { IfOk result (λ piece. (at < piece_end piece) × (piece_end piece ≤ length text.now)) }
{
    if !is_name_start(text[at]) {
        return symbol_at(text, at);
    }
    let end = name_end(text, at);
    Ok(Piece::Token(word_kind(&text[at..end]), end))
}

#[tactic(auto, using(crate::proofs::Lines::begins_fits), unfolding(crate::specs::Scan::token_at))]
fn token_at(text: &[u8], at: usize) -> Result<Piece, LexFault>
    requires { (at < length text.now) × (length text.now < 2 ^ 32) }
    ensures exact { result ≡ token_at text.now at }
    ensures within { IfOk result (λ piece. (at < piece_end piece) × (piece_end piece ≤ length text.now)) }
{
    let byte = text[at];
    if byte == b'"' {
        let end = quoted_end(text, at)?;
        Ok(Piece::Token(TokenKind::Str, end))
    } else if byte == b'\'' {
        let end = char_end(text, at)?;
        Ok(Piece::Token(TokenKind::Char, end))
    } else if begins(text, at, b'\\', b'\\') {
        let end = lines_end(text, at + 2)?;
        Ok(Piece::Token(TokenKind::MultilineStr, end))
    } else if byte == b'@' {
        at_sign(text, at)
    } else if is_digit(byte) {
        let end = number_end(text, at)?;
        Ok(Piece::Token(TokenKind::Integer, end))
    } else {
        word_or_symbol(text, at)
    }
}

/// What stands at a place, up to its end.
#[tactic(auto, using(crate::proofs::Lines::begins_fits), unfolding(crate::specs::Scan::piece_at))]
pub fn piece_at(text: &[u8], at: usize) -> Result<Piece, LexFault>
    requires { (at < length text.now) × (length text.now < 2 ^ 32) }
    ensures exact { result ≡ piece_at text.now at }
    ensures within { IfOk result (λ piece. (at < piece_end piece) × (piece_end piece ≤ length text.now)) }
{
    if is_blank(text[at]) {
        return Ok(Piece::Gap(at + 1));
    }
    if begins(text, at, b'\r', b'\n') {
        return Ok(Piece::Gap(at + 2));
    }
    if begins(text, at, b'/', b'/') {
        let end = line_end(text, at + 2)?;
        return Ok(Piece::Gap(end));
    }
    token_at(text, at)
}

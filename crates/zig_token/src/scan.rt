// The tokens of a text, from the first to the end of the file.
ghost use Rattle.std.specs.Prelude.{◌≡◌, ◌≤◌, ◌<◌, ◌^◌, ℕ, List, length, Result, IfOk, IfErr};
ghost use Rattle.zig_tree.specs.declared.token.Token.{Token};
ghost use Rattle.zig_tree.specs.Tokens.{Fault, Reads};
ghost use Rattle.zig_token.specs.Answer.{ShowsFirst, Answers, told};
ghost use Rattle.zig_token.specs.Scan.{tokens_of, token_from, Gives};
ghost use Rattle.zig_tree.specs.TokenBytes.{text_start};

use crate::bytes::byte_at;
use crate::fault::LexFault;
use crate::line::begins;
use crate::piece::{Piece, piece_at};
use std::alloc::Global;
use zig_tree::{Token, TokenKind};
use zw_base::Span;

/// Where the text begins, behind a byte order mark.
#[tactic(auto, using(crate::proofs::Skips::within_text), unfolding(zig_tree::specs::TokenBytes::text_start))]
fn text_start(text: &[u8]) -> usize
    ensures exact { result ≡ text_start text.now }
    ensures within { result ≤ length text.now }
{
    if begins(text, 0, 0xEF, 0xBB) && byte_at(text, 2) == 0xBF {
        3
    } else {
        0
    }
}

fn token(kind: TokenKind, start: usize, end: usize) -> Token
    requires { (start < 2 ^ 32) × (end < 2 ^ 32) }
    ensures { result ≡ token_from kind start end }
{
    Token {
        kind,
        span: Span {
            start: start as u32,
            end: end as u32,
        },
    }
}

/// The tokens of a text, or the first fault, reading from the left.
#[tactic(auto, using(crate::proofs::Reading::gap_passed, crate::proofs::Reading::token_passed, crate::proofs::Reading::fault_shown, crate::proofs::Reading::text_done), unfolding(crate::specs::Scan::tokens_of))]
fn scan(alloc: Global, text: &[u8]) -> Result<Vec<Token>, LexFault>
    requires { length text.now < 2 ^ 32 }
    ensures { Gives result (tokens_of text.now) }
{
    let mut list = Vec::new(alloc);
    let mut at = text_start(text);
    while at < text.len() {
        match piece_at(text, at)? {
            Piece::Gap(end) => at = end,
            Piece::Token(kind, end) => {
                list.push(token(kind, at, end))?;
                at = end;
            }
        }
    }
    list.push(token(TokenKind::End, at, at))?;
    Ok(list)
}

/// The tokens of a text, or its first fault, reading from the left. The last token is `End`, with
/// an empty span at the text's length (Zig Language Reference 0.14, "Grammar").
pub fn tokens(alloc: Global, text: &[u8]) -> Result<Vec<Token>, LexFault>
    requires { length text.now < 2 ^ 32 }
    // The list is that of the text's tokens.
    ensures found { IfOk result (λ list. Reads text.now (Ok list.items)) }
    // The fault is the first that the text shows.
    ensures fault { IfErr result (ShowsFirst text.now) }
    // What the text has, tokens or a fault, is answered, unless memory runs out.
    ensures only { (outcome : Result (List Token) Fault) → Reads text.now outcome → Answers result outcome }
    // It is what reading from the left gives, as a function on lists.
    ensures exact { Gives result (tokens_of text.now) }
{
    scan(alloc, text)
}

/// A text has one list of tokens or one fault, and never both or two.
pub fn one_outcome()
    ensures { (text : List ℕ) (x y : Result (List Token) Fault) → Reads text x → Reads text y → x ≡ y }
{}

/// Each text has a list of tokens or a fault, and the function on lists tells which.
pub fn some_outcome()
    ensures some { (text : List ℕ) → (outcome : Result (List Token) Fault) × Reads text outcome }
    ensures told { (text : List ℕ) (outcome : Result (List Token) Fault) → Reads text outcome → tokens_of text ≡ told outcome }
{}

// What scoping sees of a token's text.
ghost use Rattle.std.specs.Prelude.{◌≡◌, ◌<◌, ◌^◌, IfOk, length};
ghost use Rattle.zir_scope.specs.Facts as spec;

use std::alloc::{AllocError, Global};
use zig_tree::{Token, TokenKind, same_kind};
use zir_form::{Names, name_of, primitive_of, token_bytes};

/// The number of the first identifier with the same name, whether a primitive has that name, and
/// whether the token is the builtin `@field`.
#[derive(Clone, Copy, Debug)]
pub struct Fact {
    pub name: u32,
    pub is_primitive: bool,
    pub is_field: bool,
}

/// Whether a token is an identifier with a primitive's name.
#[tactic(auto, unfolding(crate::specs::Facts::is_primitive))]
fn is_primitive(alloc: Global, text: &[u8], token: &Token) -> Result<bool, AllocError>
    ensures { IfOk result (λ b. b ≡ spec.is_primitive text.now token.now) }
{
    if !same_kind(token.kind, TokenKind::Identifier) {
        return Ok(false);
    }
    let name = name_of(alloc, text, token)?;
    Ok(primitive_of(name.as_slice()).is_some())
}

/// Whether a token is the builtin `@field`.
#[tactic(auto, unfolding(crate::specs::Facts::is_field))]
fn is_field(text: &[u8], token: &Token) -> bool
    ensures { result ≡ spec.is_field text.now token.now }
{
    same_kind(token.kind, TokenKind::Builtin) && token_bytes(text, token) == b"@field".as_slice()
}

/// What scoping sees of the tokens of a text.
#[tactic(auto, unfolding(crate::specs::Facts::facts_of, crate::specs::Facts::facts_from))]
pub fn facts_of(alloc: Global, text: &[u8], tokens: &[Token]) -> Result<Vec<Fact>, AllocError>
    requires { length tokens.now < 2 ^ 32 }
    ensures { IfOk result (λ v. v.items ≡ spec.facts_of text.now tokens.now) }
{
    let names = Names::of(alloc, text, tokens)?;
    let mut facts = Vec::with_capacity(alloc, tokens.len())?;
    let mut at = 0;
    let mut rest = tokens;
    while let [token, more @ ..] = rest {
        facts.push(Fact {
            name: names.first(at),
            is_primitive: is_primitive(alloc, text, token)?,
            is_field: is_field(text, token),
        })?;
        at += 1;
        rest = more;
    }
    Ok(facts)
}

// The first token with the name of each token.
ghost use Rattle.std.specs.Prelude.{◌≡◌, ◌<◌, ◌^◌, List, ℕ, length, slice_index_or, Some, None, IfOk, OnOk, unwrap_or, if◌then◌else◌};
ghost use Rattle.std.specs.Option.{option_or};
ghost use Rattle.zig_tree.specs.Kinds.{is_kind};
ghost use Rattle.zig_tree.specs.declared.token.TokenKind.TheVariants.{Identifier};
ghost use Rattle.zir_form.specs.Names.{name_of, has_name, first_names};
ghost use Rattle.zir_form.specs.Places.{place_in};

use crate::name::name_of;
use std::alloc::{AllocError, Global};
use std::collections::BTreeMap;
use std::marker::Model;
use zig_tree::{Token, TokenKind, same_kind};

/// At each token the number of the first identifier with its name, or its own number where it is
/// no identifier.
#[derive(Debug, Drop)]
pub struct Names {
    firsts: Vec<u32>,
}

impl Model for Names {
    ghost use Rattle.std.specs.Prelude.{List, ℕ};

    ghost Value = { List ℕ };

    ghost view = { λ n. n.firsts.items };
}

impl Names {
    /// The names of all tokens of a text, each read once.
    pub fn of(alloc: Global, text: &[u8], tokens: &[Token]) -> Result<Names, AllocError>
        requires { length tokens.now < 2 ^ 32 }
        ensures { IfOk result (λ names. names ≡ first_names text.now tokens.now) }
    {
        let mut places = BTreeMap::new(alloc);
        let mut firsts = Vec::with_capacity(alloc, tokens.len())?;
        for (i, token) in tokens.iter().enumerate() {
            let first = enter(alloc, text, token, i as u32, &mut places)?;
            firsts.push(first)?;
        }
        Ok(Names { firsts })
    }

    /// The first identifier with the name of a token: the token itself where it is no identifier, or
    /// lies beyond the list.
    pub fn first(&self, token: u32) -> u32
        ensures { result ≡ slice_index_or self.now token token }
    {
        let at = token as usize;
        if at < self.firsts.len() {
            self.firsts[at]
        } else {
            token
        }
    }

    /// How many tokens there are.
    pub fn len(&self) -> usize
        ensures { result ≡ length self.now }
    {
        self.firsts.len()
    }
}

/// The place of a name.
#[tactic(auto, unfolding(crate::specs::Places::place_in))]
pub fn place_of(places: &BTreeMap<Vec<u8>, u32>, name: &[u8]) -> Option<u32>
    ensures { result ≡ place_in places.now name.now }
{
    places.get(name).copied()
}

/// The place of a token's name, which is entered where it has none yet.
fn enter(
    alloc: Global,
    text: &[u8],
    token: &Token,
    at: u32,
    places: &mut BTreeMap<Vec<u8>, u32>,
) -> Result<u32, AllocError>
    ensures first { IfOk result (λ n. n ≡ (if is_kind token.now.kind Identifier then unwrap_or (place_in places.old (name_of text.now token.now)) at else at)) }
    ensures places { OnOk result ((cs : List ℕ) → place_in places.new cs ≡ option_or (place_in places.old cs) (if has_name text.now cs token.now then Some at else None)) }
{
    if !same_kind(token.kind, TokenKind::Identifier) {
        return Ok(at);
    }
    let name = name_of(alloc, text, token)?.into_vec();
    match place_of(places, name.as_slice()) {
        Some(first) => Ok(first),
        None => {
            let _ = places.insert(name, at)?;
            Ok(at)
        }
    }
}

// The tokens of the row that a node holds.
ghost use Rattle.std.specs.Prelude.{◌≡◌};
ghost use Rattle.zir_scope.specs.Syntax.{inside_of, row_in};
ghost use Rattle.zir_astgen.specs.Chains.{second_is};
ghost use Rattle.zir_astgen.specs.Calls.{string_in};
ghost use Rattle.zir_astgen.specs.Parts.{has_word};

use crate::calls::kind_at;
use crate::rows::begins_with;
use zig_tree::{Kid, TokenKind, same_kind};
use zir_scope::Outline;

/// Whether a row has a token of a kind.
#[tactic(auto, unfolding(crate::specs::Parts::has_word, zir_scope::specs::Syntax::row_in))]
pub fn has_word(outline: &Outline<'_>, wanted: TokenKind, row: &[Kid]) -> bool
    ensures { result ≡ has_word wanted (row_in outline.now row.now) }
{
    let mut rest = row;
    while let [kid, more @ ..] = rest {
        if let Kid::Token(token) = *kid {
            if same_kind(kind_at(outline.tokens, token), wanted) {
                return true;
            }
        }
        rest = more;
    }
    false
}

/// Whether the second token of a row is of a kind.
#[tactic(auto, unfolding(crate::specs::Chains::second_is, zir_scope::specs::Syntax::row_in))]
pub fn second_is(outline: &Outline<'_>, wanted: TokenKind, row: &[Kid]) -> bool
    ensures { result ≡ second_is wanted (row_in outline.now row.now) }
{
    match row {
        [Kid::Token(_), more @ ..] => begins_with(outline, wanted, more),
        [Kid::Node(_), ..] => false,
        [] => false,
    }
}

/// The token of a string on one line that is all that a row holds.
#[tactic(auto, unfolding(crate::specs::Calls::string_in, zir_scope::specs::Syntax::row_in))]
pub fn string_in(outline: &Outline<'_>, row: &[Kid]) -> Option<u32>
    ensures { result ≡ string_in (row_in outline.now row.now) }
{
    match row {
        [Kid::Token(token), more @ ..] => match more {
            [Kid::Token(_), ..] => None,
            [Kid::Node(_), ..] => None,
            [] => {
                if same_kind(kind_at(outline.tokens, *token), TokenKind::Str) {
                    Some(*token)
                } else {
                    None
                }
            }
        },
        [Kid::Node(_), ..] => None,
        [] => None,
    }
}

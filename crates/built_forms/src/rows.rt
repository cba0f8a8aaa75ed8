// What is asked of the row that a form holds.
ghost use Rattle.std.specs.Prelude.{◌≡◌};
ghost use Rattle.built_forms.specs.Built as spec;
ghost use Rattle.zir_scope.specs.Syntax.{kind_at, row_in, rule_at};

use zig_tree::{Kid, Rule, Token, TokenKind, same_kind, same_rule};
use zir_scope::Outline;

/// The kind of a token; one that isn't there ends the file.
pub fn kind_at(tokens: &[Token], token: u32) -> TokenKind
    ensures { result ≡ kind_at tokens.now token }
{
    match tokens.get(token as usize) {
        Some(token) => token.kind,
        None => TokenKind::End,
    }
}

/// The rule of a form; one that isn't there is a root.
pub fn rule_at(outline: &Outline<'_>, node: u32) -> Rule
    ensures { result ≡ rule_at outline.now.nodes.now node }
{
    match outline.nodes.get(node as usize) {
        Some(node) => node.rule,
        None => Rule::Root,
    }
}

/// Whether a row begins with a token of a kind.
#[tactic(auto, unfolding(crate::specs::Built::begins_with, zir_scope::specs::Syntax::row_in))]
pub fn begins_with(outline: &Outline<'_>, wanted: TokenKind, row: &[Kid]) -> bool
    ensures { result ≡ spec.begins_with wanted (row_in outline.now row.now) }
{
    match row {
        [Kid::Token(token), ..] => same_kind(kind_at(outline.tokens, *token), wanted),
        [Kid::Node(_), ..] => false,
        [] => false,
    }
}

/// Whether a row begins with a form of a rule.
#[tactic(auto, unfolding(crate::specs::Built::holds, zir_scope::specs::Syntax::row_in))]
pub fn holds(outline: &Outline<'_>, wanted: Rule, row: &[Kid]) -> bool
    ensures { result ≡ spec.holds wanted (row_in outline.now row.now) }
{
    match row {
        [Kid::Node(node), ..] => same_rule(rule_at(outline, *node), wanted),
        [Kid::Token(_), ..] => false,
        [] => false,
    }
}

/// Whether a token of a kind stands in a row.
#[tactic(auto, unfolding(crate::specs::Built::has_word, zir_scope::specs::Syntax::row_in))]
pub fn has_word(outline: &Outline<'_>, wanted: TokenKind, row: &[Kid]) -> bool
    ensures { result ≡ spec.has_word wanted (row_in outline.now row.now) }
{
    let mut rest = row;
    while let [kid, more @ ..] = rest {
        if let Kid::Token(token) = *kid {
            if same_kind(kind_at(outline.tokens, token), wanted) {
                return true;
            }
        }
        rest = more;
    }
    false
}

/// The row behind `pub`, where that leads it.
#[tactic(auto, unfolding(crate::specs::Built::behind_pub, zir_scope::specs::Syntax::row_in))]
pub fn behind_pub<'a>(outline: &Outline<'_>, row: &'a [Kid]) -> &'a [Kid]
    ensures { row_in outline.now result.now ≡ spec.behind_pub (row_in outline.now row.now) }
{
    match row {
        [Kid::Token(token), more @ ..] => {
            if same_kind(kind_at(outline.tokens, *token), TokenKind::KeywordPub) {
                more
            } else {
                row
            }
        }
        [Kid::Node(_), ..] => row,
        [] => row,
    }
}

// What a declaration holds, and the words that lead it.
ghost use Rattle.std.specs.Prelude.{◌≡◌, true, IfOk};
ghost use Rattle.zig_tree.specs.Nodes.{are_earlier};
ghost use Rattle.zir_scope.specs.Syntax.{inside_of, row_in, rule_at};
ghost use Rattle.zir_astgen.specs.Files as spec;

use crate::calls::kind_at;
use crate::rows::rule_at;
use zig_tree::{Kid, Rule, TokenKind, same_kind, same_rule};
use zir_scope::Outline;

/// A node's rule and what it holds, which are nodes before `before` alone.
#[derive(Clone, Copy, Debug)]
pub struct Held<'a> {
    pub rule: Rule,
    pub row: &'a [Kid],
    pub before: u32,
    ghost earlier: { are_earlier before row.now ≡ true },
}

/// A node with what it holds.
pub fn node_in<'a>(outline: &'a Outline<'_>, node: u32) -> Held<'a>
    ensures rule { result.rule ≡ rule_at outline.now.nodes.now node }
    ensures row { row_in outline.now result.row.now ≡ inside_of outline.now node }
{
    Held {
        rule: rule_at(outline, node),
        row: outline.kids(node),
        before: node,
    }
}

/// The first node of a row; of none, a root that holds nothing.
#[tactic(auto, unfolding(crate::specs::Files::content_rule, crate::specs::Files::content_of, zir_scope::specs::Syntax::row_in, zir_scope::specs::Syntax::inside_of))]
pub fn content<'a>(outline: &'a Outline<'_>, row: &[Kid]) -> Held<'a>
    ensures rule { result.rule ≡ spec.content_rule (row_in outline.now row.now) }
    ensures row { row_in outline.now result.row.now ≡ spec.content_of (row_in outline.now row.now) }
{
    let mut rest = row;
    while let [kid, more @ ..] = rest {
        match *kid {
            Kid::Token(_) => rest = more,
            Kid::Node(node) => return node_in(outline, node),
        }
    }
    Held {
        rule: Rule::Root,
        row: &[],
        before: 0,
    }
}

/// The first node of a rule in a row; of none, one that holds nothing.
#[tactic(auto, unfolding(crate::specs::Files::inside_of_rule, zir_scope::specs::Syntax::row_in, zir_scope::specs::Syntax::inside_of))]
pub fn held_of_rule<'a>(outline: &'a Outline<'_>, wanted: Rule, row: &[Kid]) -> Held<'a>
    ensures { row_in outline.now result.row.now ≡ spec.inside_of_rule wanted (row_in outline.now row.now) }
{
    let mut rest = row;
    while let [kid, more @ ..] = rest {
        if let Kid::Node(node) = *kid {
            if same_rule(rule_at(outline, node), wanted) {
                return node_in(outline, node);
            }
        }
        rest = more;
    }
    Held {
        rule: wanted,
        row: &[],
        before: 0,
    }
}

/// The first token of a kind in a row.
#[tactic(auto, unfolding(crate::specs::Files::word_in, zir_scope::specs::Syntax::row_in))]
pub fn word_in(outline: &Outline<'_>, wanted: TokenKind, row: &[Kid]) -> Option<u32>
    ensures { result ≡ spec.word_in wanted (row_in outline.now row.now) }
{
    let mut rest = row;
    while let [kid, more @ ..] = rest {
        if let Kid::Token(token) = *kid {
            if same_kind(kind_at(outline.tokens, token), wanted) {
                return Some(token);
            }
        }
        rest = more;
    }
    None
}

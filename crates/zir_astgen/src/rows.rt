// What is asked of the row that a node holds.
ghost use Rattle.std.specs.Prelude.{◌≡◌};
ghost use Rattle.zir_scope.specs.Syntax.{inside_of, row_in, rule_at};
ghost use Rattle.zir_astgen.specs.Parts as spec;
ghost use Rattle.zir_astgen.specs.Stages.{is_put_off};
ghost use Rattle.zir_astgen.specs.Statements.{holds};

use crate::calls::kind_at;
use zig_tree::{Kid, Rule, TokenKind, same_kind, same_rule};
use zir_scope::Outline;

/// Whether a row is one node.
#[tactic(auto, unfolding(crate::specs::Parts::is_one_node, zir_scope::specs::Syntax::row_in))]
fn is_one_node(outline: &Outline<'_>, row: &[Kid]) -> bool
    ensures { result ≡ spec.is_one_node (row_in outline.now row.now) }
{
    match row {
        [Kid::Node(_), more @ ..] => match more {
            [Kid::Node(_), ..] => false,
            [Kid::Token(_), ..] => false,
            [] => true,
        },
        [Kid::Token(_), ..] => false,
        [] => false,
    }
}

/// Whether a token of a kind leads a row.
#[tactic(auto, unfolding(crate::specs::Parts::begins_with, zir_scope::specs::Syntax::row_in))]
pub fn begins_with(outline: &Outline<'_>, wanted: TokenKind, row: &[Kid]) -> bool
    ensures { result ≡ spec.begins_with wanted (row_in outline.now row.now) }
{
    match row {
        [Kid::Token(token), ..] => same_kind(kind_at(outline.tokens, *token), wanted),
        [Kid::Node(_), ..] => false,
        [] => false,
    }
}

/// The rule of a node; one that isn't there is a root.
pub fn rule_at(outline: &Outline<'_>, node: u32) -> Rule
    ensures { result ≡ rule_at outline.now.nodes.now node }
{
    match outline.nodes.get(node as usize) {
        Some(node) => node.rule,
        None => Rule::Root,
    }
}

/// Whether a row begins with a node of a rule.
#[tactic(auto, unfolding(crate::specs::Statements::holds, zir_scope::specs::Syntax::row_in))]
fn holds(outline: &Outline<'_>, wanted: Rule, row: &[Kid]) -> bool
    ensures { result ≡ holds wanted (row_in outline.now row.now) }
{
    match row {
        [Kid::Node(node), ..] => same_rule(rule_at(outline, *node), wanted),
        [Kid::Token(_), ..] => false,
        [] => false,
    }
}

/// Whether a node holds one node alone.
pub fn holds_one_node(outline: &Outline<'_>, node: u32) -> bool
    ensures { result ≡ spec.is_one_node (inside_of outline.now node) }
{
    is_one_node(outline, outline.kids(node))
}

/// Whether what a node holds begins with a node of a rule.
pub fn holds_rule(outline: &Outline<'_>, wanted: Rule, node: u32) -> bool
    ensures { result ≡ holds wanted (inside_of outline.now node) }
{
    holds(outline, wanted, outline.kids(node))
}

/// Whether a statement puts something off.
#[tactic(auto, unfolding(crate::specs::Stages::is_put_off))]
pub fn is_put_off(outline: &Outline<'_>, rule: Rule, node: u32) -> bool
    ensures { result ≡ is_put_off rule (inside_of outline.now node) }
{
    if same_rule(rule, Rule::Statement) {
        let row = outline.kids(node);
        begins_with(outline, TokenKind::KeywordDefer, row)
            || begins_with(outline, TokenKind::KeywordErrdefer, row)
    } else {
        false
    }
}

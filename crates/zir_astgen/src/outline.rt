// What a part counts: its locals and its containers, by their tokens.
ghost use Rattle.std.specs.Prelude.{◌≡◌, ◌++◌, ◌∷◌, [], true, OnOk};
ghost use Rattle.zig_tree.specs.Nodes.{are_earlier};
ghost use Rattle.zir_scope.specs.Binders.{joined, names_in};
ghost use Rattle.zir_scope.specs.Roles.{role_of};
ghost use Rattle.zir_scope.specs.Syntax.{inside_of, row_in, rule_at};
ghost use Rattle.zir_astgen.specs.Held.{containers_of, locals_of};
ghost use Rattle.zir_astgen.specs.Outline as spec;
ghost use Rattle.zir_astgen.specs.Parts as parts;
ghost use Rattle.zir_astgen.specs.Trees.{is_apart};

use crate::rows::rule_at;
use std::alloc::AllocError;
use zig_tree::{Kid, Rule, same_rule};
use zir_scope::{Outline, Role};

/// The first token of a row, which may lie within its nodes.
#[tactic(auto, using(zir_scope::proofs::Trees::earlier_steps), unfolding(crate::specs::Parts::lead_of, zir_scope::specs::Syntax::row_in, zir_scope::specs::Syntax::inside_of))]
pub fn lead_of(outline: &Outline<'_>, row: &[Kid], before: u32) -> u32
    requires { are_earlier before row.now ≡ true }
    ensures { result ≡ parts.lead_of (row_in outline.now row.now) }
{
    match row {
        [Kid::Token(token), ..] => *token,
        [Kid::Node(node), ..] => lead_of(outline, outline.kids(*node), *node),
        [] => 0,
    }
}

/// A name is joined to those that are found, where there is one.
fn join(name: Option<u32>, found: &mut Vec<u32>) -> Result<(), AllocError>
    ensures { OnOk result (found.new.items ≡ found.old.items ++ joined name []) }
{
    match name {
        Some(token) => {
            found.push(token)?;
            Ok(())
        }
        None => Ok(()),
    }
}

/// The names that parts of a row bind.
#[tactic(auto, unfolding(zir_scope::specs::Binders::names_in, zir_scope::specs::Syntax::row_in, zir_scope::specs::Syntax::inside_of))]
fn names_in(outline: &Outline<'_>, row: &[Kid], found: &mut Vec<u32>) -> Result<(), AllocError>
    ensures { OnOk result (found.new.items ≡ found.old.items ++ names_in (row_in outline.now row.now)) }
{
    let mut rest = row;
    while let [kid, more @ ..] = rest {
        if let Kid::Node(node) = *kid {
            join(outline.bound_by(node), found)?;
        }
        rest = more;
    }
    Ok(())
}

/// The names that a node declares by itself.
fn declare(outline: &Outline<'_>, node: u32, found: &mut Vec<u32>) -> Result<(), AllocError>
    ensures { OnOk result (found.new.items ≡ found.old.items ++ spec.declares (role_of (rule_at outline.now.nodes.now node)) (inside_of outline.now node)) }
{
    let row = outline.kids(node);
    match outline.role(node) {
        Role::Parameter => join(outline.front_name(row), found),
        Role::Statement => join(outline.local_name(row), found),
        Role::Captures => names_in(outline, row, found),
        _ => Ok(()),
    }
}

/// Whether what is of a rule is in parts of its own.
#[tactic(auto, unfolding(crate::specs::Trees::is_apart))]
pub fn is_apart(rule: Rule) -> bool
    ensures { result ≡ is_apart rule }
{
    same_rule(rule, Rule::Container) || same_rule(rule, Rule::Declaration)
}

/// The locals of a node.
#[cycle(locals)]
#[tactic(auto, unfolding(crate::specs::Held::locals_of))]
fn node_locals(outline: &Outline<'_>, node: u32, found: &mut Vec<u32>) -> Result<(), AllocError>
    ensures { OnOk result (found.new.items ≡ found.old.items ++ locals_of (rule_at outline.now.nodes.now node) (inside_of outline.now node)) }
{
    if is_apart(rule_at(outline, node)) {
        Ok(())
    } else {
        declare(outline, node, found)?;
        own_locals(outline, outline.kids(node), node, found)
    }
}

/// The locals of a row, by the tokens that declare them, in the order of the text. What is in parts of
/// its own is passed over.
#[cycle(locals)]
#[tactic(auto, using(zir_scope::proofs::Trees::earlier_steps), unfolding(zir_scope::specs::Syntax::row_in, zir_scope::specs::Syntax::inside_of))]
pub fn own_locals(
    outline: &Outline<'_>,
    row: &[Kid],
    before: u32,
    found: &mut Vec<u32>,
) -> Result<(), AllocError>
    requires { are_earlier before row.now ≡ true }
    ensures { OnOk result (found.new.items ≡ found.old.items ++ spec.own_locals (row_in outline.now row.now)) }
{
    let mut rest = row;
    while let [kid, more @ ..] = rest {
        match *kid {
            Kid::Token(_) => {}
            Kid::Node(node) => node_locals(outline, node, found)?,
        }
        rest = more;
    }
    Ok(())
}

/// The containers of a node.
#[cycle(containers)]
#[tactic(auto, unfolding(crate::specs::Held::containers_of))]
fn node_containers(outline: &Outline<'_>, node: u32, found: &mut Vec<u32>) -> Result<(), AllocError>
    ensures { OnOk result (found.new.items ≡ found.old.items ++ containers_of (rule_at outline.now.nodes.now node) (inside_of outline.now node)) }
{
    let rule = rule_at(outline, node);
    let row = outline.kids(node);
    if same_rule(rule, Rule::Declaration) {
        return Ok(());
    }
    if same_rule(rule, Rule::Container) {
        found.push(lead_of(outline, row, node))?;
    }
    own_containers(outline, row, node, found)
}

/// The containers of a row, by their keywords, in the order of the text. Those in declarations of a
/// container belong to those declarations.
#[cycle(containers)]
#[tactic(auto, using(zir_scope::proofs::Trees::earlier_steps), unfolding(zir_scope::specs::Syntax::row_in, zir_scope::specs::Syntax::inside_of))]
pub fn own_containers(
    outline: &Outline<'_>,
    row: &[Kid],
    before: u32,
    found: &mut Vec<u32>,
) -> Result<(), AllocError>
    requires { are_earlier before row.now ≡ true }
    ensures { OnOk result (found.new.items ≡ found.old.items ++ spec.own_containers (row_in outline.now row.now)) }
{
    let mut rest = row;
    while let [kid, more @ ..] = rest {
        match *kid {
            Kid::Token(_) => {}
            Kid::Node(node) => node_containers(outline, node, found)?,
        }
        rest = more;
    }
    Ok(())
}

/// The token that begins the members of a container.
#[tactic(auto, unfolding(crate::specs::Outline::brace_of, zir_scope::specs::Syntax::row_in, zir_scope::specs::Syntax::inside_of))]
pub fn brace_of(outline: &Outline<'_>, row: &[Kid]) -> u32
    ensures { result ≡ spec.brace_of (row_in outline.now row.now) }
{
    let mut rest = row;
    while let [kid, more @ ..] = rest {
        if let Kid::Node(node) = *kid {
            if same_rule(rule_at(outline, node), Rule::ContainerBody) {
                return lead_of(outline, outline.kids(node), node);
            }
        }
        rest = more;
    }
    0
}

/// The token that a declaration goes by: that of its name, and of a block the first.
#[tactic(auto, unfolding(crate::specs::Outline::declared_token))]
pub fn declared_token(outline: &Outline<'_>, row: &[Kid], before: u32) -> u32
    requires { are_earlier before row.now ≡ true }
    ensures { result ≡ spec.declared_token (row_in outline.now row.now) }
{
    match outline.declared_name(row) {
        Some(token) => token,
        None => lead_of(outline, row, before),
    }
}

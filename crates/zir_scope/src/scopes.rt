// What each name of a file stands for, and what is wrong with its names.
ghost use Rattle.std.specs.Prelude.{◌≡◌, ◌<◌, ◌^◌, IfOk, length};
ghost use Rattle.zir_scope.specs.Captures.{captures_of};
ghost use Rattle.zir_scope.specs.Findings.{scoped, scope_faults};
ghost use Rattle.zir_scope.specs.Scoping.{events_of};
ghost use Rattle.zir_scope.specs.Syntax.{inside_of, rule_at};

use crate::bindings::Bindings;
use crate::captures::{Capture, captures_of};
use crate::event::Event;
use crate::facts::facts_of;
use crate::findings::found;
use crate::outline::Outline;
use crate::place::{Context, Reading};
use crate::scope::Scope;
use std::alloc::{AllocError, Global};
use zig_tree::{Token, Tree};
use zw_base::{Found, Seq};

/// What stands at the tokens of a file, in the order of its text, what its containers capture, each in
/// the order of the first mentions in its text, and the diagnostics of its names.
#[derive(Debug, Drop)]
pub struct Scopes {
    pub events: Seq<Event>,
    pub captures: Seq<Capture>,
    pub found: Seq<Found>,
}

/// Before a file's first token nothing is in scope.
const OUTSIDE: Context = Context {
    reading: Reading::Plain,
    in_function: false,
    bound: None,
    next_exit: None,
};

/// What is found in the order of the text.
#[tactic(auto, unfolding(crate::specs::Scoping::events_of, crate::specs::Syntax::inside_of))]
fn events(alloc: Global, outline: &Outline<'_>, root: u32) -> Result<Vec<Event>, AllocError>
    ensures { IfOk result (λ v. v.items ≡ events_of outline.now.facts.now (rule_at outline.now.nodes.now root) (inside_of outline.now root)) }
{
    let mut scope = Scope {
        locals: Bindings::new(alloc, 0)?,
        members: Bindings::new(alloc, 0)?,
        exits: Vec::new(alloc),
        events: Vec::new(alloc),
        scratch: Bindings::new(alloc, 0)?,
    };
    scope.visit(alloc, outline, OUTSIDE, root)?;
    let Scope {
        locals: _,
        members: _,
        exits: _,
        events,
        scratch: _,
    } = scope;
    Ok(events)
}

/// What each name of a file stands for, what its containers capture, and E201 to E205: names that stand for nothing, names that are
/// used already, locals that are never mentioned, variables that are never changed, and `break`,
/// `continue`, `return` and `try` with nothing to leave (Zig Language Reference 0.14, "Shadowing",
/// "Variables", "Blocks"). `tokens` and `tree` are those of the text.
#[tactic(auto, unfolding(crate::specs::Findings::scoped, crate::specs::Findings::scope_faults, crate::specs::Syntax::inside_of))]
pub fn resolve(
    alloc: Global,
    text: &[u8],
    tokens: &[Token],
    tree: &Tree,
) -> Result<Scopes, AllocError>
    requires { length tokens.now < 2 ^ 32 }
    ensures events { IfOk result (λ s. s.events ≡ scoped text.now tokens.now tree.now.nodes tree.now.root) }
    ensures captures { IfOk result (λ s. s.captures ≡ captures_of (scoped text.now tokens.now tree.now.nodes tree.now.root)) }
    ensures found { IfOk result (λ s. s.found ≡ scope_faults text.now tokens.now tree.now.nodes tree.now.root) }
{
    let facts = facts_of(alloc, text, tokens)?;
    let outline = Outline {
        tokens,
        nodes: tree.nodes.as_slice(),
        facts: facts.as_slice(),
    };
    let events = events(alloc, &outline, tree.root)?;
    let captures = captures_of(alloc, events.as_slice())?;
    let found = found(alloc, tokens, events.as_slice())?;
    Ok(Scopes {
        events: Seq::of(events),
        captures: Seq::of(captures),
        found: Seq::of(found),
    })
}

// Threads up to the point at which each has a token in front.
ghost use Rattle.std.specs.Prelude.{◌≡◌, ◌++◌, OnOk, IfOk};
ghost use Rattle.zig_parse.specs.Choices.{offered};
ghost use Rattle.zig_parse.specs.Moves.{moving, readers, settled_all};
ghost use Rattle.zig_parse.specs.Moves as spec;
ghost use Rattle.zig_parse.specs.Threads.{replaced};

use crate::choice::{Choice, Look, group_choice, rule_choice};
use crate::stack::Stack;
use crate::thread::{Move, Thread};
use std::alloc::{AllocError, Global};
use zig_tree::{Part, Rule};

/// Replaces the first of what is to come by the parts of an alternative.
fn replace(thread: &mut Thread, rule: Option<Rule>, parts: &[Part]) -> Result<(), AllocError>
    ensures { OnOk result (thread.new ≡ replaced rule parts.now thread.old) }
{
    match rule {
        Some(rule) => thread.replace_rule(rule, parts),
        None => thread.replace_group(parts),
    }
}

#[tactic(auto, unfolding(crate::specs::Moves::spread))]
/// A thread goes on with each alternative that may be taken, the first one in front.
fn spread(
    alloc: Global,
    mut thread: Thread,
    rule: Option<Rule>,
    choice: Choice,
    at: u32,
    pending: &mut Stack<Thread>,
) -> Result<(), AllocError>
    ensures { OnOk result (pending.new ≡ spec.spread at rule (offered choice) thread ++ pending.old) }
{
    match choice {
        Choice::Nothing => Ok(()),
        Choice::One(parts) => {
            replace(&mut thread, rule, parts)?;
            pending.push(thread)
        }
        Choice::Two(first, second) => {
            let mut other = thread.copy(alloc)?;
            other.choices.push(at)?;
            replace(&mut other, rule, second)?;
            pending.push(other)?;
            replace(&mut thread, rule, first)?;
            pending.push(thread)
        }
    }
}

#[tactic(auto, unfolding(crate::specs::Moves::moving, crate::specs::Moves::readers))]
/// One move of a thread: it goes to those that wait for their next move, or to those that read.
fn advance(
    alloc: Global,
    mut thread: Thread,
    look: Look,
    at: u32,
    pending: &mut Stack<Thread>,
    ready: &mut Vec<Thread>,
) -> Result<(), AllocError>
    ensures go_on { OnOk result (pending.new ≡ moving look at thread ++ pending.old) }
    ensures may_read { OnOk result (ready.new.items ≡ ready.old.items ++ readers look thread) }
{
    match thread.next_move(look, true) {
        Move::Stop => Ok(()),
        Move::Read => Ok(ready.push(thread)?),
        Move::Close => {
            let _ = thread.close();
            pending.push(thread)
        }
        Move::Rule(rule) => spread(
            alloc,
            thread,
            Some(rule),
            rule_choice(rule, look),
            at,
            pending,
        ),
        Move::Group(group) => spread(alloc, thread, None, group_choice(group, look), at, pending),
    }
}

/// The threads that can read the token at this number, in order of preference.
pub fn settle(
    alloc: Global,
    mut pending: Stack<Thread>,
    look: Look,
    at: u32,
) -> Result<Vec<Thread>, AllocError>
    ensures { IfOk result (λ v. v.items ≡ settled_all look at pending) }
{
    let mut ready = Vec::new(alloc);
    while let Some(thread) = pending.pop() {
        advance(alloc, thread, look, at, &mut pending, &mut ready)?;
    }
    Ok(ready)
}

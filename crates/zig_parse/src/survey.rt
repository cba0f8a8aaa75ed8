// The first pass: every way to read the tokens, until one way is left or none.
//
// What a brace begins (a block, the values of a container or its members, the names of errors, the
// prongs of a switch) is read by threads of its own, one for each of these parts that is wanted there,
// and the threads that want it wait. So however many ways there are to read what lies around a brace,
// what lies in it is read once for each part.
ghost use Rattle.std.specs.Prelude.{◌≡◌, ◌++◌, IfOk, OnOk, None, [], map};
ghost use Rattle.zig_parse.specs.Choices.{offered};
ghost use Rattle.zig_parse.specs.Passes.{begun, begun_for, enclosed, finished, lent_one, marked, own_height, part_choices};
ghost use Rattle.zig_parse.specs.Moves.{waits_for};
ghost use Rattle.zig_parse.specs.Passes as spec;

use crate::choice::{Choice, Look, group_choice, rule_choice};
use crate::stack::Stack;
use crate::thread::{Thread, goes_as_far};
use std::alloc::{AllocError, Global};
use zig_tree::{DEPTH_LIMIT, Group, Part, Rule, TokenKind, same_kind, same_part};

/// What became of the tokens so far.
#[derive(Clone, Copy, Debug)]
pub enum Verdict {
    Fine,
    Unexpected,
    TooDeep,
}

/// What another thread read: the part, how many nodes lie one in the other, and the numbers of the
/// tokens at which the second alternative was taken.
#[derive(Debug, Drop)]
pub struct Finished {
    pub goal: Part,
    pub height: u32,
    pub choices: Stack<u32>,
}

/// The alternatives of a part that may be taken.
fn part_choice(goal: Part, look: Look) -> Choice
    ensures { offered result ≡ part_choices look goal }
{
    match goal {
        Part::Rule(rule) => rule_choice(rule, look),
        Part::Group(group) => group_choice(group, look),
        Part::Token(_) | Part::OneOf(_) => Choice::Nothing,
    }
}

/// Opens the node in which a part is read: one of its own for a rule, the one around for a group.
fn enclose(thread: &mut Thread, goal: Part) -> Result<(), AllocError>
    ensures { OnOk result (thread.new ≡ enclosed goal thread.old) }
{
    match goal {
        Part::Rule(rule) => thread.open(rule),
        Part::Group(_) => thread.surround(),
        Part::Token(_) | Part::OneOf(_) => Ok(()),
    }
}

/// The thread that reads what a part derives.
#[tactic(auto, unfolding(crate::specs::Passes::begun))]
pub fn begin(alloc: Global, goal: Part, depth: u32, look: Look) -> Result<Thread, AllocError>
    ensures { IfOk result (λ t. t ≡ begun look goal depth) }
{
    let mut thread = Thread::begin(alloc, goal, depth);
    enclose(&mut thread, goal)?;
    if let Choice::One(parts) = part_choice(goal, look) {
        thread.put(parts)?;
    }
    Ok(thread)
}

/// Whether a thread waits for a part.
#[tactic(auto, unfolding(crate::specs::Passes::wants))]
fn wants(thread: &Thread, goal: Part) -> bool
    ensures { result ≡ spec.wants thread.now goal }
{
    match thread.waits_for() {
        Some(part) => same_part(part, goal),
        None => false,
    }
}

/// The threads that wait for a brace, each with the node around the brace made solid where it is one.
#[tactic(auto, unfolding(crate::specs::Passes::those_waiting))]
pub fn those_waiting(alloc: Global, mut ready: Stack<Thread>) -> Result<Vec<Thread>, AllocError>
    ensures { IfOk result (λ v. v.items ≡ spec.those_waiting ready) }
{
    let mut waiting = Vec::new(alloc);
    while let Some(mut thread) = ready.pop() {
        if let Some(part) = thread.waits_for() {
            thread.meet_part(part);
            waiting.push(thread)?;
        }
    }
    Ok(waiting)
}

/// Whether one of the threads waits for a brace.
#[tactic(auto, using(crate::proofs::Slices::slice_steps))]
pub fn any_waits(ready: &[Thread]) -> bool
    ensures { result ≡ spec.any_waits ready.now }
{
    for thread in ready {
        if thread.waits_for().is_some() {
            return true;
        }
    }
    false
}

/// How deep the node around the brace lies, where no token lies too deep.
fn depth_for(thread: &Thread) -> u32
    ensures { result ≡ spec.depth_for thread.now }
{
    if thread.deep {
        DEPTH_LIMIT
    } else {
        thread.depth
    }
}

/// The lesser of two depths, where there are two.
fn least_with(depth: u32, least: Option<u32>) -> u32
    ensures { result ≡ spec.least_with depth least }
{
    match least {
        Some(other) => depth.min(other),
        None => depth,
    }
}

/// How deep the node around the brace lies in the shallowest way to read a part there.
#[tactic(auto, using(crate::proofs::Slices::slice_steps))]
fn least_depth(waiting: &[Thread], goal: Part) -> Option<u32>
    ensures { result ≡ spec.least_from None goal waiting.now }
{
    let mut least = None;
    for thread in waiting {
        if wants(thread, goal) {
            least = Some(least_with(depth_for(thread), least));
        }
    }
    least
}

/// Puts a thread for a part that begins with the brace in front, where one waits for it.
fn begin_wanted(
    alloc: Global,
    waiting: &[Thread],
    goal: Part,
    look: Look,
    live: &mut Stack<Thread>,
) -> Result<(), AllocError>
    ensures { OnOk result (live.new ≡ begun_for look waiting.now goal ++ live.old) }
{
    match least_depth(waiting, goal) {
        Some(depth) => live.push(begin(alloc, goal, depth, look)?),
        None => Ok(()),
    }
}

/// The threads that read what begins with the brace.
#[tactic(auto, unfolding(crate::specs::Passes::inside))]
pub fn inside(alloc: Global, waiting: &[Thread], look: Look) -> Result<Stack<Thread>, AllocError>
    ensures { IfOk result (λ live. live ≡ spec.inside look waiting.now) }
{
    let mut live = Stack::new(alloc);
    begin_wanted(
        alloc,
        waiting,
        Part::Group(Group::SwitchBraces),
        look,
        &mut live,
    )?;
    begin_wanted(
        alloc,
        waiting,
        Part::Group(Group::ErrorBraces),
        look,
        &mut live,
    )?;
    begin_wanted(
        alloc,
        waiting,
        Part::Rule(Rule::ContainerBody),
        look,
        &mut live,
    )?;
    begin_wanted(
        alloc,
        waiting,
        Part::Rule(Rule::Initializer),
        look,
        &mut live,
    )?;
    begin_wanted(alloc, waiting, Part::Rule(Rule::Block), look, &mut live)?;
    Ok(live)
}

/// Whether one of these reads whatever a thread does.
#[tactic(auto, using(crate::proofs::Slices::slice_steps))]
fn is_among(kept: &[Thread], thread: &Thread) -> bool
    ensures { result ≡ spec.is_among kept.now thread.now }
{
    for other in kept {
        if goes_as_far(other, thread) {
            return true;
        }
    }
    false
}

/// A thread joins those that are kept, unless one of them reads whatever it does.
fn keep(kept: &mut Vec<Thread>, thread: Thread) -> Result<(), AllocError>
    ensures { OnOk result (kept.new.items ≡ spec.kept_with kept.old.items thread) }
{
    if !is_among(kept.as_slice(), &thread) {
        kept.push(thread)?;
    }
    Ok(())
}

/// The threads after the token, and whether one reads it within the limit of depth. One that reads
/// nothing to its end but what an earlier one does is dropped.
#[tactic(auto, unfolding(crate::specs::Passes::after_token, crate::specs::Passes::any_shallow))]
pub fn after_token(
    alloc: Global,
    mut ready: Stack<Thread>,
) -> Result<(Vec<Thread>, bool), AllocError>
    ensures kept { IfOk result (λ r. r.0.items ≡ spec.after_token [] ready) }
    ensures shallow { IfOk result (λ r. r.1 ≡ spec.any_shallow ready) }
{
    let mut kept = Vec::new(alloc);
    let mut shallow = false;
    while let Some(mut thread) = ready.pop() {
        thread.read();
        if !thread.deep {
            shallow = true;
        }
        keep(&mut kept, thread)?;
    }
    Ok((kept, shallow))
}

/// Marks the tokens at which a thread took the second alternative.
#[tactic(auto, unfolding(crate::specs::Passes::marked))]
fn commit(mut choices: Stack<u32>, chosen: &mut Vec<bool>)
    ensures { chosen.new.items ≡ marked choices chosen.old.items }
{
    while let Some(at) = choices.pop() {
        if (at as usize) < chosen.len() {
            chosen[at as usize] = true;
        }
    }
}

/// How many nodes lie one in the other in a part, of so many with the node in which it was read.
fn height_in(goal: Part, height: u32) -> u32
    ensures { result ≡ own_height goal height }
{
    match goal {
        Part::Group(_) => height.saturating_sub(1),
        Part::Rule(_) | Part::Token(_) | Part::OneOf(_) => height,
    }
}

/// What a thread read, once its brace is closed.
fn finish(mut thread: Thread) -> Finished
    ensures { result ≡ finished thread }
{
    let height = thread.finish();
    let Thread {
        goal,
        items: _,
        frames: _,
        depth: _,
        deep: _,
        choices,
    } = thread;
    Finished {
        goal,
        height: height_in(goal, height),
        choices,
    }
}

/// What the threads inside a brace read, once it is closed.
pub fn results(alloc: Global, mut live: Stack<Thread>) -> Result<Vec<Finished>, AllocError>
    ensures { IfOk result (λ v. v.items ≡ map finished live) }
{
    let mut found = Vec::new(alloc);
    while let Some(thread) = live.pop() {
        found.push(finish(thread))?;
    }
    Ok(found)
}

/// What was read for a part.
#[tactic(auto, using(crate::proofs::Slices::slice_steps))]
fn result_for(found: &[Finished], goal: Part) -> Option<&Finished>
    ensures { lent_one result ≡ spec.result_for found.now goal }
{
    for finished in found {
        if same_part(finished.goal, goal) {
            return Some(finished);
        }
    }
    None
}

/// A thread that waited goes on, where what it waits for was read.
fn resume(found: &[Finished], kept: &mut Vec<Thread>, mut thread: Thread) -> Result<(), AllocError>
    ensures { OnOk result (kept.new.items ≡ spec.resumed_by found.now kept.old.items thread (waits_for thread)) }
{
    match thread.waits_for() {
        Some(part) => match result_for(found, part) {
            Some(finished) => {
                thread.receive(finished.height);
                thread.put_choices(&finished.choices)?;
                keep(kept, thread)
            }
            None => Ok(()),
        },
        None => Ok(()),
    }
}

/// The threads that waited for what was read, and go on.
#[tactic(auto, unfolding(crate::specs::Passes::resumed))]
pub fn resumed(
    alloc: Global,
    mut waiting: Stack<Thread>,
    found: &[Finished],
) -> Result<Vec<Thread>, AllocError>
    ensures { IfOk result (λ v. v.items ≡ spec.resumed found.now [] waiting) }
{
    let mut live = Vec::new(alloc);
    while let Some(thread) = waiting.pop() {
        resume(found, &mut live, thread)?;
    }
    Ok(live)
}

/// Whether each thread has read a token that lies too deep.
#[tactic(auto, using(crate::proofs::Slices::slice_steps))]
fn all_deep(live: &[Thread]) -> bool
    ensures { result ≡ spec.all_deep live.now }
{
    for thread in live {
        if !thread.deep {
            return false;
        }
    }
    true
}

/// What became of the tokens so far, where one is spared or not that all threads count as too deep.
pub fn judge(live: &[Thread], spared: bool) -> Verdict
    ensures { result ≡ spec.verdict_of spared live.now }
{
    if live.is_empty() {
        Verdict::Unexpected
    } else if all_deep(live) && !spared {
        Verdict::TooDeep
    } else {
        Verdict::Fine
    }
}

/// Whether the innermost brace is closed.
#[tactic(auto, unfolding(crate::specs::Passes::is_closed))]
pub fn is_closed(live: &[Thread], look: Look) -> bool
    ensures { result ≡ spec.is_closed look live.now }
{
    same_kind(look.kind, TokenKind::RightBrace)
        && match live {
            [thread, ..] => thread.items.len() == 0,
            [] => false,
        }
}

/// The threads, where one alone is left without its choices, which hold from now on.
pub fn settle_choices(
    alloc: Global,
    mut live: Stack<Thread>,
    chosen: &mut Vec<bool>,
) -> Result<Stack<Thread>, AllocError>
    ensures threads { IfOk result (λ v. v ≡ spec.alone live) }
    ensures marks { OnOk result (chosen.new.items ≡ spec.marked_alone live chosen.old.items) }
{
    if live.len() == 1 {
        if let Some(thread) = live.pop() {
            let Thread {
                goal,
                items,
                frames,
                depth,
                deep,
                choices,
            } = thread;
            commit(choices, chosen);
            live.push(Thread {
                goal,
                items,
                frames,
                depth,
                deep,
                choices: Stack::new(alloc),
            })?;
        }
    }
    Ok(live)
}

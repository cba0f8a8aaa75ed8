// What is known after some tokens, and how one more changes it.
ghost use Rattle.std.specs.Prelude.{◌≡◌, ◌∷◌, IfOk, OnOk, false, length, replicate, slice_get};
ghost use Rattle.zig_parse.specs.Surveys.{Gives, first_state, next_marks, next_state, next_verdict, surveyed};
ghost use Rattle.zig_parse.specs.Surveys as spec;

use crate::choice::Look;
use crate::fault::SyntaxFault;
use crate::settle::settle;
use crate::stack::Stack;
use crate::survey::{
    Verdict, after_token, any_waits, begin, inside, is_closed, judge, results, resumed,
    settle_choices, those_waiting,
};
use crate::thread::Thread;
use std::alloc::{AllocError, Global};
use zig_tree::{Part, Rule, Token, TokenKind, same_kind};

/// What is known after some tokens.
#[derive(Debug, Drop)]
pub struct State {
    /// Threads that wait for the end of a brace, for each open brace, the innermost one in front.
    pub waiting: Stack<Stack<Thread>>,
    /// Threads inside the innermost brace, in the order of preference.
    pub live: Stack<Thread>,
}

/// The kind of the token at a number, or that of the file's end.
fn kind_at(tokens: &[Token], at: usize) -> TokenKind
    ensures { result ≡ spec.kind_of (slice_get tokens.now at) }
{
    match tokens.get(at) {
        Some(token) => token.kind,
        None => TokenKind::End,
    }
}

/// The kinds of the token at a number and of the one after it.
pub fn look_at(tokens: &[Token], at: u32) -> Look
    ensures { result ≡ spec.look_at tokens.now at }
{
    let kind = kind_at(tokens, at as usize);
    let next = kind_at(tokens, at as usize + 1);
    Look { kind, next }
}

/// The threads that can read the token, or, at a brace that begins a part, those that read the part.
#[tactic(auto, unfolding(crate::specs::Surveys::entered, crate::specs::Surveys::entered_waiting))]
fn enter(
    alloc: Global,
    ready: Vec<Thread>,
    waiting: &mut Stack<Stack<Thread>>,
    look: Look,
) -> Result<Stack<Thread>, AllocError>
    ensures live { IfOk result (λ live. live ≡ spec.entered look ready.items) }
    ensures waiting { OnOk result (waiting.new ≡ spec.entered_waiting ready.items waiting.old) }
{
    if any_waits(ready.as_slice()) {
        let those = those_waiting(alloc, Stack::of(ready))?;
        let live = inside(alloc, those.as_slice(), look)?;
        waiting.push(Stack::of(those))?;
        Ok(live)
    } else {
        Ok(Stack::of(ready))
    }
}

/// The threads after the token, those that waited for it where it ends what a brace began.
#[tactic(auto, unfolding(crate::specs::Surveys::left, crate::specs::Surveys::left_waiting))]
fn leave(
    alloc: Global,
    live: Vec<Thread>,
    waiting: &mut Stack<Stack<Thread>>,
    look: Look,
) -> Result<Vec<Thread>, AllocError>
    ensures live { IfOk result (λ v. v.items ≡ spec.left look live.items waiting.old) }
    ensures waiting { OnOk result (waiting.new ≡ spec.left_waiting look live.items waiting.old) }
{
    if is_closed(live.as_slice(), look) {
        let found = results(alloc, Stack::of(live))?;
        match waiting.pop() {
            Some(those) => resumed(alloc, those, found.as_slice()),
            None => Ok(Vec::new(alloc)),
        }
    } else {
        Ok(live)
    }
}

/// Reads a token.
#[tactic(auto, unfolding(crate::specs::Surveys::read_live, crate::specs::Surveys::read_waiting, crate::specs::Surveys::next_live, crate::specs::Surveys::next_state, crate::specs::Surveys::is_spared, crate::specs::Surveys::next_verdict, crate::specs::Surveys::next_marks))]
fn read(
    alloc: Global,
    state: State,
    look: Look,
    at: u32,
    chosen: &mut Vec<bool>,
) -> Result<(State, Verdict), AllocError>
    ensures state { IfOk result (λ r. r.0 ≡ next_state look at state) }
    ensures verdict { IfOk result (λ r. r.1 ≡ next_verdict look at state) }
    ensures marks { OnOk result (chosen.new.items ≡ next_marks look at state chosen.old.items) }
{
    let State { mut waiting, live } = state;
    let ready = settle(alloc, live, look, at)?;
    let ready = enter(alloc, ready, &mut waiting, look)?;
    let (live, shallow) = after_token(alloc, ready)?;
    let live = leave(alloc, live, &mut waiting, look)?;
    // What stands behind an identifier tells which of the threads that read it go on in one way.
    let spared = same_kind(look.kind, TokenKind::Identifier) && shallow;
    let verdict = judge(live.as_slice(), spared);
    let live = settle_choices(alloc, Stack::of(live), chosen)?;
    Ok((State { waiting, live }, verdict))
}

/// Before the first token.
#[tactic(auto, unfolding(crate::specs::Surveys::first_state))]
fn first(alloc: Global, look: Look) -> Result<State, AllocError>
    ensures { IfOk result (λ s. s ≡ first_state look) }
{
    let mut live = Stack::new(alloc);
    live.push(begin(alloc, Part::Rule(Rule::Root), 0, look)?)?;
    Ok(State {
        waiting: Stack::new(alloc),
        live,
    })
}

#[tactic(auto, using(crate::proofs::Tokens::survey_steps))]
/// For each token whether the second alternative that may be taken there is, or the token with which
/// no sentence goes on.
pub fn survey(alloc: Global, tokens: &[Token], count: u32) -> Result<Vec<bool>, SyntaxFault>
    requires { count ≡ length tokens.now }
    ensures { Gives (λ v. v.items) result (surveyed (length tokens.now) 0 tokens.now (first_state (spec.look_at tokens.now 0)) (replicate (length tokens.now) false)) }
{
    let mut state = first(alloc, look_at(tokens, 0))?;
    let mut chosen = vec![in alloc; false; tokens.len()]?;
    for at in 0..count {
        let look = look_at(tokens, at);
        let (next, verdict) = read(alloc, state, look, at, &mut chosen)?;
        state = next;
        match verdict {
            Verdict::Fine => {}
            Verdict::Unexpected => {
                return Err(SyntaxFault::Unexpected {
                    token: look.kind,
                    at,
                });
            }
            Verdict::TooDeep => return Err(SyntaxFault::TooDeep { at }),
        }
    }
    Ok(chosen)
}

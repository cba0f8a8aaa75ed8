// The second pass: one way to read the tokens, and its tree.
ghost use Rattle.std.specs.Prelude.{◌≡◌, ◌+◌, IfOk, OnOk, length};
ghost use Rattle.zig_parse.specs.Choices.{offered};
ghost use Rattle.zig_parse.specs.Growth.{known, moved, ready};
ghost use Rattle.zig_parse.specs.Growth as spec;
ghost use Rattle.zig_parse.specs.Grows.{grown};
ghost use Rattle.zig_parse.specs.Moves.{moves_for};
ghost use Rattle.zig_parse.specs.Surveys.{Gives};

use crate::built::Built;
use crate::choice::{Choice, Look, group_choice, rule_choice};
use crate::fault::SyntaxFault;
use crate::state::look_at;
use crate::survey::begin;
use crate::thread::{Move, Thread};
use std::alloc::{AllocError, Global};
use zig_tree::{Part, Rule, Token, TokenKind, Tree};
use zw_base::Seq;

/// The one thread, and the nodes so far.
#[derive(Debug, Drop)]
pub struct Growth {
    pub thread: Thread,
    pub built: Built,
}

/// Of the alternatives that may be taken the one that is.
#[tactic(auto, unfolding(crate::specs::Growth::picked))]
fn picked(choice: Choice, second: bool) -> Option<&'static [Part]>
    ensures { spec.lent result ≡ spec.picked second (offered choice) }
{
    match choice {
        Choice::Nothing => None,
        Choice::One(parts) => Some(parts),
        Choice::Two(first, other) => Some(if second { other } else { first }),
    }
}

impl Growth {
    /// Closes the innermost node, which is one of the tree's where it is solid.
    #[tactic(auto, unfolding(crate::specs::Growth::shut))]
    fn close(&mut self, tokens: &[Token]) -> Result<(), AllocError>
        ensures { OnOk result (grown self.new ≡ spec.shut tokens.now (grown self.old)) }
    {
        match self.thread.close() {
            Some(frame) => {
                if frame.solid {
                    self.built.add(frame.rule, frame.parts, tokens)?;
                }
                Ok(())
            }
            None => Ok(()),
        }
    }

    /// Replaces the first of what is to come, if an alternative is taken. Where none is, the token can't
    /// be read.
    fn replace(
        &mut self,
        rule: Option<Rule>,
        choice: Choice,
        second: bool,
    ) -> Result<Option<bool>, AllocError>
        ensures after { OnOk result (grown self.new ≡ spec.swapped rule (spec.picked second (offered choice)) (grown self.old)) }
        ensures known { IfOk result (λ r. r ≡ spec.stuck_at (spec.picked second (offered choice))) }
    {
        match picked(choice, second) {
            Some(parts) => {
                match rule {
                    Some(rule) => self.thread.replace_rule(rule, parts)?,
                    None => self.thread.replace_group(parts)?,
                }
                Ok(None)
            }
            None => Ok(Some(false)),
        }
    }

    /// One move before a token is read: whether it can be read, where that is known then.
    #[tactic(auto, unfolding(crate::specs::Growth::moved, crate::specs::Growth::known))]
    fn advance(
        &mut self,
        look: Look,
        second: bool,
        tokens: &[Token],
    ) -> Result<Option<bool>, AllocError>
        ensures after { OnOk result (grown self.new ≡ moved tokens.now look second (grown self.old)) }
        ensures known { IfOk result (λ r. r ≡ known look second (grown self.old)) }
    {
        match self.thread.next_move(look, false) {
            Move::Stop => Ok(Some(false)),
            Move::Read => Ok(Some(true)),
            Move::Close => {
                self.close(tokens)?;
                Ok(None)
            }
            Move::Rule(rule) => self.replace(Some(rule), rule_choice(rule, look), second),
            Move::Group(group) => self.replace(None, group_choice(group, look), second),
        }
    }

    /// Whether the token can be read, after the moves before it.
    fn settle(&mut self, look: Look, second: bool, tokens: &[Token]) -> Result<bool, AllocError>
        ensures fits { IfOk result (λ b. b ≡ (ready (moves_for self.old.thread) tokens.now look second (grown self.old)).fits) }
        ensures after { OnOk result (grown self.new ≡ (ready (moves_for self.old.thread) tokens.now look second (grown self.old)).grown) }
    {
        loop {
            if let Some(fits) = self.advance(look, second, tokens)? {
                return Ok(fits);
            }
        }
    }

    /// Reads a token.
    #[tactic(auto, unfolding(crate::specs::Growth::read_one))]
    fn read(
        &mut self,
        at: u32,
        look: Look,
        second: bool,
        tokens: &[Token],
    ) -> Result<(), SyntaxFault>
        ensures { Gives (λ _. grown self.new) result (spec.read_one at tokens.now look second (grown self.old)) }
    {
        if !self.settle(look, second, tokens)? {
            return Err(SyntaxFault::Unexpected {
                token: look.kind,
                at,
            });
        }
        self.thread.read();
        if self.thread.deep {
            return Err(SyntaxFault::TooDeep { at });
        }
        self.built.add_token(at)?;
        Ok(())
    }

    /// Closes all nodes that are open.
    #[tactic(auto, using(crate::proofs::Tokens::shut_steps))]
    fn close_all(&mut self, tokens: &[Token]) -> Result<(), AllocError>
        ensures { OnOk result (grown self.new ≡ spec.all_shut (length self.old.thread.frames) tokens.now (grown self.old)) }
    {
        let count = self.thread.frames.len();
        for _ in 0..count {
            self.close(tokens)?;
        }
        Ok(())
    }
}

/// Before the first token.
#[tactic(auto, unfolding(crate::specs::Growth::sprout))]
fn sprout(alloc: Global, look: Look) -> Result<Growth, AllocError>
    ensures { IfOk result (λ g. grown g ≡ spec.sprout look) }
{
    Ok(Growth {
        thread: begin(alloc, Part::Rule(Rule::Root), 0, look)?,
        built: Built::new(alloc),
    })
}

/// Whether the second alternative is taken at a token.
fn is_second(chosen: &[bool], at: u32) -> bool
    ensures { result ≡ spec.is_second chosen.now at }
{
    chosen.get(at as usize).copied().unwrap_or(false)
}

/// Reads all tokens.
#[tactic(auto, using(crate::proofs::Tokens::read_steps))]
fn read_all(
    growth: &mut Growth,
    tokens: &[Token],
    count: u32,
    chosen: &[bool],
) -> Result<(), SyntaxFault>
    requires { count ≡ length tokens.now }
    ensures { Gives (λ _. grown growth.new) result (spec.all_read (length tokens.now) 0 tokens.now chosen.now (grown growth.old)) }
{
    for at in 0..count {
        growth.read(at, look_at(tokens, at), is_second(chosen, at), tokens)?;
    }
    Ok(())
}

/// The tree of nodes that are in order, the last one its root.
fn tree_of(built: Built, at: u32) -> Result<Tree, SyntaxFault>
    ensures nodes { Gives (λ t. t.nodes) result (spec.nodes_or at built.nodes.items) }
    ensures root { IfOk result (λ t. t.root + 1 ≡ length t.nodes) }
{
    let Built { nodes, kids: _ } = built;
    if nodes.is_empty() {
        return Err(SyntaxFault::Unexpected {
            token: TokenKind::End,
            at,
        });
    }
    let Ok(root) = u32::try_from(nodes.len() - 1) else {
        return Err(SyntaxFault::OutOfMemory);
    };
    Ok(Tree {
        nodes: Seq::of(nodes),
        root,
    })
}

/// The tree of what was read, where nothing is to come.
#[tactic(auto, unfolding(crate::specs::Growth::whole))]
fn finish(mut growth: Growth, tokens: &[Token], count: u32) -> Result<Tree, SyntaxFault>
    ensures nodes { Gives (λ t. t.nodes) result (spec.whole count tokens.now (grown growth)) }
    ensures root { IfOk result (λ t. t.root + 1 ≡ length t.nodes) }
{
    if growth.thread.items.len() != 0 {
        return Err(SyntaxFault::Unexpected {
            token: TokenKind::End,
            at: count,
        });
    }
    growth.close_all(tokens)?;
    let Growth { thread: _, built } = growth;
    tree_of(built, count)
}

/// The tree of the tokens, where these alternatives are taken.
#[tactic(auto, unfolding(crate::specs::Growth::grown_from))]
pub fn grow(
    alloc: Global,
    tokens: &[Token],
    count: u32,
    chosen: &[bool],
) -> Result<Tree, SyntaxFault>
    requires { count ≡ length tokens.now }
    ensures nodes { Gives (λ t. t.nodes) result (spec.grown_from tokens.now chosen.now) }
    ensures root { IfOk result (λ t. t.root + 1 ≡ length t.nodes) }
{
    let mut growth = sprout(alloc, look_at(tokens, 0))?;
    read_all(&mut growth, tokens, count, chosen)?;
    finish(growth, tokens, count)
}

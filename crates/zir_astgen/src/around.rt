// What lies around each part of a row, and how the row is read.
ghost use Rattle.std.specs.Prelude.{◌≡◌, ◌<◌, ℕ, List, length, IfOk};
ghost use Rattle.zir_form.specs.Core.{Core};
ghost use Rattle.zir_form.specs.Core as core;
ghost use Rattle.zir_form.specs.Lines.{tree_at};
ghost use Rattle.zir_scope.specs.Syntax.{inside_of};
ghost use Rattle.zir_astgen.specs.Frames.{around_of, levels_of, with_layer, AddsPlace, FramesBelow};
ghost use Rattle.zir_astgen.specs.Levels.{Level};
ghost use Rattle.zir_astgen.specs.Stages as spec;
ghost use Rattle.zir_astgen.specs.Writing.{file, trees};

use crate::levels::{Frames, frame_of};
use crate::rows::{begins_with, is_put_off};
use crate::stage::{Layer, Stage};
use crate::writer::Writer;
use std::alloc::AllocError;
use zig_tree::{Rule, TokenKind, same_kind, same_rule};

/// The frames around a place of a part, and how its row is read.
#[derive(Clone, Copy)]
pub struct Place<'a> {
    pub frames: Frames<'a>,
    pub stage: Stage,
}

/// Names in bars.
#[tactic(auto, unfolding(crate::specs::Stages::is_bars))]
fn is_bars(rule: Rule) -> bool
    ensures { result ≡ spec.is_bars rule }
{
    same_rule(rule, Rule::Capture) || same_rule(rule, Rule::Captures)
}

/// What holds the body of an `if` or a loop and what stands behind `else`.
#[tactic(auto, unfolding(crate::specs::Stages::is_rest))]
fn is_rest(rule: Rule) -> bool
    ensures { result ≡ spec.is_rest rule }
{
    same_rule(rule, Rule::Rest) || same_rule(rule, Rule::RestExpression)
}

/// The layer that lies around a node by the row that it stands in.
pub fn layer_into(rule: Rule, stage: Stage) -> Option<Layer>
    ensures { (levels : List Level) → spec.levels_into rule levels stage ≡ with_layer result levels }
{
    match stage {
        Stage::Bound(label) => {
            if is_bars(rule) || is_rest(rule) {
                None
            } else {
                Some(Layer::Loop(label))
            }
        }
        Stage::Deferred => {
            if is_bars(rule) {
                None
            } else {
                Some(Layer::Wall)
            }
        }
        Stage::Function => {
            if same_rule(rule, Rule::Block) {
                Some(Layer::Function)
            } else {
                None
            }
        }
        Stage::Plain => None,
        Stage::Lead => None,
        Stage::Label(_) => None,
        Stage::Head(_) => None,
        Stage::Turn(_) => None,
    }
}

/// A block of its own, with the label before it.
fn block_layer(stage: Stage) -> Layer
    ensures { result ≡ spec.block_layer stage }
{
    match stage {
        Stage::Label(label) => Layer::Labelled(label),
        _ => Layer::Block,
    }
}

/// The layer that a node is by itself.
pub fn layer_within(rule: Rule, stage: Stage) -> Option<Layer>
    ensures { (levels : List Level) → spec.levels_within rule stage levels ≡ with_layer result levels }
{
    if same_rule(rule, Rule::Block) {
        Some(block_layer(stage))
    } else {
        None
    }
}

/// A layer more, where there is one.
pub fn pushed<'a>(layer: Option<Layer>, outer: &'a Frames<'a>) -> Frames<'a>
    ensures levels { (trees : List Core) → tree_at trees 1 ≡ core.absent → levels_of trees result ≡ with_layer layer (levels_of trees outer.now) }
    ensures below { (count : ℕ) → 1 < count → FramesBelow count outer.now → FramesBelow count result }
{
    match layer {
        Some(layer) => Frames::Within(frame_of(layer), outer),
        None => *outer,
    }
}

/// The label of a loop, as it stands before it.
fn loop_label(stage: Stage) -> Option<u32>
    ensures { result ≡ spec.loop_label stage }
{
    match stage {
        Stage::Label(label) => Some(label),
        _ => None,
    }
}

/// How the parts of an `if` or a loop are read: the body of a loop stands in its parts.
fn rest_stage(stage: Stage) -> Stage
    ensures { result ≡ spec.rest_stage stage }
{
    match stage {
        Stage::Bound(label) => Stage::Bound(label),
        _ => Stage::Plain,
    }
}

/// How the row that a node holds is read from its start.
#[tactic(auto, unfolding(crate::specs::Stages::stage_within))]
pub fn stage_within(rule: Rule, stage: Stage) -> Stage
    ensures { result ≡ spec.stage_within rule stage }
{
    match rule {
        Rule::Body | Rule::Primary => Stage::Lead,
        Rule::WhileStatement | Rule::WhileExpression | Rule::ForStatement | Rule::ForExpression =>
            Stage::Head(loop_label(stage)),
        Rule::Rest | Rule::RestExpression => rest_stage(stage),
        Rule::Function => Stage::Function,
        _ => Stage::Plain,
    }
}

/// How a row is read behind a node.
fn stage_past_node(rule: Rule, stage: Stage) -> Stage
    ensures { result ≡ spec.stage_past_node rule stage }
{
    match stage {
        Stage::Bound(label) => {
            if is_bars(rule) {
                Stage::Bound(label)
            } else {
                Stage::Plain
            }
        }
        Stage::Lead => Stage::Plain,
        Stage::Label(_) => Stage::Plain,
        Stage::Plain => Stage::Plain,
        Stage::Head(label) => Stage::Head(label),
        Stage::Turn(label) => Stage::Turn(label),
        Stage::Deferred => Stage::Deferred,
        Stage::Function => Stage::Function,
    }
}

/// Whether a kind of token begins a statement that puts something off.
fn defers(kind: TokenKind) -> Stage
    ensures { result ≡ spec.after_plain kind }
{
    if same_kind(kind, TokenKind::KeywordDefer) || same_kind(kind, TokenKind::KeywordErrdefer) {
        Stage::Deferred
    } else {
        Stage::Plain
    }
}

/// How a row is read behind a token of the operands of a loop.
fn after_head(label: Option<u32>, kind: TokenKind, same: Stage) -> Stage
    ensures { result ≡ spec.after_head label kind same }
{
    if same_kind(kind, TokenKind::RightParen) {
        Stage::Bound(label)
    } else {
        same
    }
}

impl Writer<'_> {
    /// How a row is read behind a token.
    fn stage_past_token(&self, token: u32, kind: TokenKind, stage: Stage) -> Stage
        ensures { result ≡ spec.stage_past_token (file self.now) token kind stage }
    {
        match stage {
            Stage::Plain => defers(kind),
            Stage::Lead => {
                if same_kind(kind, TokenKind::Identifier) {
                    Stage::Label(self.source.outline.name(token))
                } else {
                    Stage::Plain
                }
            }
            Stage::Label(label) => {
                if same_kind(kind, TokenKind::Colon) {
                    Stage::Label(label)
                } else {
                    Stage::Plain
                }
            }
            Stage::Head(label) => after_head(label, kind, Stage::Head(label)),
            Stage::Bound(label) => {
                if same_kind(kind, TokenKind::Colon) {
                    Stage::Turn(label)
                } else {
                    Stage::Bound(label)
                }
            }
            Stage::Turn(label) => after_head(label, kind, Stage::Turn(label)),
            Stage::Deferred => Stage::Deferred,
            Stage::Function => Stage::Function,
        }
    }

    /// What lies around the place behind a token.
    #[tactic(auto, unfolding(crate::specs::Stages::past_token))]
    pub fn past_token<'b>(&self, place: Place<'b>, token: u32, kind: TokenKind) -> Place<'b>
        ensures around { (trees : List Core) → around_of trees result ≡ spec.past_token (file self.now) (around_of trees place.entry) token kind }
        ensures frames { result.frames ≡ place.entry.frames }
    {
        Place {
            frames: place.frames,
            stage: self.stage_past_token(token, kind, place.stage),
        }
    }

    /// What lies around the place behind a node, whose tree has this line.
    #[tactic(auto, unfolding(crate::specs::Stages::past_node))]
    pub fn past_node<'b>(
        &mut self,
        place: Place<'b>,
        rule: Rule,
        node: u32,
        line: u32,
    ) -> Result<Place<'b>, AllocError>
        requires run { line < length (trees self.old) }
        requires below { FramesBelow (length (trees self.old)) place.frames }
        ensures around { IfOk result (AddsPlace (trees self.old) (trees self.new) (spec.past_node (around_of (trees self.old) place.entry) rule (inside_of self.old.source.outline.now node) (tree_at (trees self.old) line))) }
        ensures source { self.new.source ≡ self.old.source }
    {
        let outline = self.source.outline;
        let stage = stage_past_node(rule, place.stage);
        if !is_put_off(outline, rule, node) {
            return Ok(Place {
                frames: place.frames,
                stage,
            });
        }
        let always = begins_with(outline, TokenKind::KeywordDefer, outline.kids(node));
        let frames = self.put_off_in(always, line, place.frames)?;
        Ok(Place { frames, stage })
    }
}

// The walk over a part's tree, which writes its lines, children first.
ghost use Rattle.std.specs.Prelude.{◌≡◌, ◌<◌, ℕ, length, true, IfOk};
ghost use Rattle.zig_tree.specs.Nodes.{are_earlier};
ghost use Rattle.zir_scope.specs.Syntax.{inside_of, row_in, rule_at};
ghost use Rattle.zir_astgen.specs.Firsts.{Adds};
ghost use Rattle.zir_astgen.specs.Frames.{around_of, FramesBelow};
ghost use Rattle.zir_astgen.specs.Parts as spec;
ghost use Rattle.zir_astgen.specs.Stages.{within};
ghost use Rattle.zir_astgen.specs.Trees.{apart, is_apart, tree_at, walk};
ghost use Rattle.zir_astgen.specs.Walks.{node_first, node_tree, Walks};
ghost use Rattle.zir_astgen.specs.Writing.{file, site, trees};

use crate::around::{Place, layer_into, layer_within, pushed, stage_within};
use crate::calls::kind_at;
use crate::levels::Frames;
use crate::outline::{is_apart, lead_of};
use crate::piece::Piece;
use crate::rows::rule_at;
use crate::writer::{ABSENT, Writer};
use std::alloc::AllocError;
use zig_tree::{Kid, Rule, same_rule};
use zir_scope::Outline;

/// The pieces of a row, and the frames around its end.
#[derive(Drop)]
pub struct Row<'a> {
    pub pieces: Vec<Piece>,
    pub behind: Frames<'a>,
}

/// A node whose tree is written: its first token, and its line.
#[derive(Clone, Copy, Debug)]
pub struct Visited {
    pub first: u32,
    pub line: u32,
}

impl Writer<'_> {
    /// What stands for a node that is in a part of its own.
    #[tactic(auto, unfolding(crate::specs::Trees::apart))]
    fn apart(&mut self, rule: Rule, first: u32, node: u32) -> Result<u32, AllocError>
        requires { first ≡ spec.lead_of (inside_of self.old.source.outline.now node) }
        ensures tree { IfOk result (Adds (trees self.old) (trees self.new) (apart (file self.old) (site self.old) rule (inside_of self.old.source.outline.now node))) }
        ensures source { self.new.source ≡ self.old.source }
    {
        if same_rule(rule, Rule::Container) {
            self.container_at(first)
        } else {
            Ok(ABSENT)
        }
    }

    /// A node, and all that it holds. It goes no deeper than the tree, which has at most 200 nodes on
    /// the way to each token.
    #[cycle(walk)]
    #[tactic(auto, using(crate::proofs::AddLemmas::two_lines, crate::proofs::FrameLemmas::frames_below_stay))]
    fn visit(&mut self, place: Place<'_>, node: u32) -> Result<Visited, AllocError>
        requires { FramesBelow (length (trees self.old)) place.frames }
        ensures first { IfOk result (λ v. v.first ≡ node_first (file self.old) (site self.old) (around_of (trees self.old) place.entry) (rule_at self.old.source.outline.now.nodes.now node) (inside_of self.old.source.outline.now node)) }
        ensures tree { IfOk result (λ v. Adds (trees self.old) (trees self.new) (node_tree (file self.old) (site self.old) (around_of (trees self.old) place.entry) (rule_at self.old.source.outline.now.nodes.now node) (inside_of self.old.source.outline.now node)) v.line) }
        ensures source { self.new.source ≡ self.old.source }
    {
        let outline = self.source.outline;
        let rule = rule_at(outline, node);
        if is_apart(rule) {
            let first = lead_of(outline, outline.kids(node), node);
            let line = self.apart(rule, first, node)?;
            return Ok(Visited { first, line });
        }
        self.enter(place, rule, outline.kids(node), node)
    }

    /// A node of a rule by the row that it holds, whose nodes lie before a number.
    #[cycle(walk)]
    #[tactic(auto, using(crate::proofs::AddLemmas::two_lines, crate::proofs::FrameLemmas::frames_below_stay))]
    pub fn enter(
        &mut self,
        place: Place<'_>,
        rule: Rule,
        row: &[Kid],
        before: u32,
    ) -> Result<Visited, AllocError>
        requires frames { FramesBelow (length (trees self.old)) place.frames }
        requires earlier { are_earlier before row.now ≡ true }
        ensures first { IfOk result (λ v. v.first ≡ spec.first_of (walk (file self.old) (site self.old) (within (around_of (trees self.old) place.entry) rule) (row_in self.old.source.outline.now row.now)).parts) }
        ensures tree { IfOk result (λ v. Adds (trees self.old) (trees self.new) (tree_at (file self.old) (site self.old) (around_of (trees self.old) place.entry) rule (row_in self.old.source.outline.now row.now)) v.line) }
        ensures source { self.new.source ≡ self.old.source }
    {
        let outer = pushed(layer_into(rule, place.stage), &place.frames);
        let inner = pushed(layer_within(rule, place.stage), &outer);
        let within = Place {
            frames: inner,
            stage: stage_within(rule, place.stage),
        };
        let Row { pieces, behind } = self.walk(within, row, before)?;
        let held = pieces.as_slice();
        let first = self.first_of(held);
        let line = self.made_by(&inner, &behind, rule, held)?;
        Ok(Visited { first, line })
    }

    /// A row, from a place on.
    #[cycle(walk)]
    #[tactic(auto, using(zir_scope::proofs::Trees::earlier_steps))]
    pub fn walk<'b>(
        &mut self,
        place: Place<'b>,
        row: &[Kid],
        before: u32,
    ) -> Result<Row<'b>, AllocError>
        requires frames { FramesBelow (length (trees self.old)) place.frames }
        requires earlier { are_earlier before row.now ≡ true }
        ensures walked { IfOk result (Walks self.old.source.outline.now (trees self.old) (trees self.new) (walk (file self.old) (site self.old) (around_of (trees self.old) place.entry) (row_in self.old.source.outline.now row.now))) }
        ensures source { self.new.source ≡ self.old.source }
    {
        let outline = self.source.outline;
        let mut pieces = Vec::with_capacity(self.alloc, row.len())?;
        let mut now = place;
        let mut rest = row;
        while let [kid, more @ ..] = rest {
            match *kid {
                Kid::Token(token) => {
                    let kind = kind_at(outline.tokens, token);
                    pieces.push(Piece::Token { token, kind })?;
                    now = self.past_token(now, token, kind);
                }
                Kid::Node(node) => {
                    let rule = rule_at(outline, node);
                    let Visited { first, line } = self.visit(now, node)?;
                    pieces.push(Piece::Node {
                        rule,
                        node,
                        first,
                        line,
                    })?;
                    now = self.past_node(now, rule, node, line)?;
                }
            }
            rest = more;
        }
        Ok(Row {
            pieces,
            behind: now.frames,
        })
    }
}

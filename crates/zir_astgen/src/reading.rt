// What is read of the pieces of a row, as the lines of trees.
ghost use Rattle.std.specs.Prelude.{◌≡◌, ◌<◌, length, map, IfOk};
ghost use Rattle.zir_form.specs.Lines.{tree_at};
ghost use Rattle.zir_form.specs.Core as core;
ghost use Rattle.zig_tree.specs.declared.grammar.Rule.TheVariants as rule;
ghost use Rattle.zir_astgen.specs.Control as control;
ghost use Rattle.zir_astgen.specs.Parts as spec;
ghost use Rattle.zir_astgen.specs.Pieces.{Below};
ghost use Rattle.zir_astgen.specs.Writing.{parts, trees};

use crate::piece::Piece;
use crate::writer::{ABSENT, MISSING, Writer};
use std::alloc::AllocError;
use zig_tree::{Rule, TokenKind, same_kind, same_rule};
use zw_base::Seq;

impl Writer<'_> {
    /// The line that stands for no form.
    #[tactic(auto, using(crate::proofs::AddLemmas::first_steps))]
    pub fn missing(&self) -> u32
        ensures tree { tree_at (trees self.now) result ≡ core.missing }
        ensures inside { result < length (trees self.now) }
    {
        MISSING
    }

    /// The line for what is left out.
    #[tactic(auto, using(crate::proofs::AddLemmas::first_steps))]
    pub fn absent(&self) -> u32
        ensures tree { tree_at (trees self.now) result ≡ core.absent }
        ensures inside { result < length (trees self.now) }
    {
        ABSENT
    }

    /// The first token of a kind in a row.
    #[tactic(auto, unfolding(crate::specs::Parts::token_in, crate::specs::Pieces::parts_of))]
    pub fn token_in(&self, wanted: TokenKind, row: &[Piece]) -> Option<u32>
        ensures { result ≡ spec.token_in wanted (parts self.now row.now) }
    {
        let mut rest = row;
        while let [piece, more @ ..] = rest {
            if let Piece::Token { token, kind } = *piece {
                if same_kind(kind, wanted) {
                    return Some(token);
                }
            }
            rest = more;
        }
        None
    }

    /// Whether a row has a token of a kind.
    #[tactic(auto, unfolding(crate::specs::Parts::has_token))]
    pub fn has_token(&self, wanted: TokenKind, row: &[Piece]) -> bool
        ensures { result ≡ spec.has_token wanted (parts self.now row.now) }
    {
        self.token_in(wanted, row).is_some()
    }

    /// Whether a token of a kind leads a row.
    #[tactic(auto, unfolding(crate::specs::Parts::leads_with, crate::specs::Pieces::parts_of))]
    pub fn leads_with(&self, wanted: TokenKind, row: &[Piece]) -> bool
        ensures { result ≡ spec.leads_with wanted (parts self.now row.now) }
    {
        match row {
            [Piece::Token { token: _, kind }, ..] => same_kind(*kind, wanted),
            _ => false,
        }
    }

    /// The first token of a row.
    #[tactic(auto, unfolding(crate::specs::Parts::first_of, crate::specs::Pieces::parts_of))]
    pub fn first_of(&self, row: &[Piece]) -> u32
        ensures { result ≡ spec.first_of (parts self.now row.now) }
    {
        match row {
            [Piece::Token { token, kind: _ }, ..] => *token,
            [
                Piece::Node {
                    rule: _,
                    node: _,
                    first,
                    line: _,
                },
                ..
            ] => *first,
            [] => 0,
        }
    }

    /// The line of the first node of a row.
    #[tactic(auto, using(crate::proofs::AddLemmas::first_steps), unfolding(crate::specs::Parts::first_tree, crate::specs::Pieces::parts_of))]
    pub fn first_line(&self, row: &[Piece]) -> u32
        requires { Below (length (trees self.now)) row.now }
        ensures tree { tree_at (trees self.now) result ≡ spec.first_tree (parts self.now row.now) }
        ensures inside { result < length (trees self.now) }
    {
        let mut rest = row;
        while let [piece, more @ ..] = rest {
            if let Piece::Node {
                rule: _,
                node: _,
                first: _,
                line,
            } = *piece
            {
                return line;
            }
            rest = more;
        }
        ABSENT
    }

    /// The line of the first node behind the first token of a kind.
    #[tactic(auto, using(crate::proofs::AddLemmas::first_steps), unfolding(crate::specs::Parts::tree_behind, crate::specs::Pieces::parts_of))]
    pub fn line_behind(&self, wanted: TokenKind, row: &[Piece]) -> u32
        requires below { Below (length (trees self.now)) row.now }
        ensures tree { tree_at (trees self.now) result ≡ spec.tree_behind wanted (parts self.now row.now) }
        ensures inside { result < length (trees self.now) }
    {
        let mut rest = row;
        while let [piece, more @ ..] = rest {
            if let Piece::Token { token: _, kind } = *piece {
                if same_kind(kind, wanted) {
                    return self.first_line(more);
                }
            }
            rest = more;
        }
        ABSENT
    }

    /// The line of the last node of a row.
    #[tactic(auto, using(crate::proofs::AddLemmas::first_steps), unfolding(crate::specs::Parts::last_tree, crate::specs::Pieces::parts_of))]
    pub fn last_line(&self, row: &[Piece]) -> u32
        requires below { Below (length (trees self.now)) row.now }
        ensures tree { tree_at (trees self.now) result ≡ spec.last_tree core.absent (parts self.now row.now) }
        ensures inside { result < length (trees self.now) }
    {
        let mut last = ABSENT;
        let mut rest = row;
        while let [piece, more @ ..] = rest {
            if let Piece::Node {
                rule: _,
                node: _,
                first: _,
                line,
            } = *piece
            {
                last = line;
            }
            rest = more;
        }
        last
    }

    /// The line of the first node of a rule.
    #[tactic(auto, using(crate::proofs::AddLemmas::first_steps), unfolding(crate::specs::Parts::tree_of_rule, crate::specs::Pieces::parts_of))]
    pub fn line_of_rule(&self, wanted: Rule, row: &[Piece]) -> u32
        requires below { Below (length (trees self.now)) row.now }
        ensures tree { tree_at (trees self.now) result ≡ spec.tree_of_rule wanted (parts self.now row.now) }
        ensures inside { result < length (trees self.now) }
    {
        let mut rest = row;
        while let [piece, more @ ..] = rest {
            if let Piece::Node {
                rule,
                node: _,
                first: _,
                line,
            } = *piece
            {
                if same_rule(rule, wanted) {
                    return line;
                }
            }
            rest = more;
        }
        ABSENT
    }

    /// The lines of all nodes of a rule.
    #[tactic(auto, using(crate::proofs::AddLemmas::trees_push), unfolding(crate::specs::Parts::trees_of_rule, crate::specs::Pieces::parts_of))]
    pub fn lines_of_rule(&self, wanted: Rule, row: &[Piece]) -> Result<Seq<u32>, AllocError>
        ensures { IfOk result (λ lines. map (tree_at (trees self.now)) lines ≡ spec.trees_of_rule wanted (parts self.now row.now)) }
    {
        let mut lines = Vec::new(self.alloc);
        let mut rest = row;
        while let [piece, more @ ..] = rest {
            if let Piece::Node {
                rule,
                node: _,
                first: _,
                line,
            } = *piece
            {
                if same_rule(rule, wanted) {
                    lines.push(line)?;
                }
            }
            rest = more;
        }
        Ok(Seq::of(lines))
    }

    /// The lines of all nodes.
    #[tactic(auto, using(crate::proofs::AddLemmas::trees_push), unfolding(crate::specs::Parts::all_trees, crate::specs::Pieces::parts_of))]
    pub fn all_lines(&self, row: &[Piece]) -> Result<Seq<u32>, AllocError>
        ensures { IfOk result (λ lines. map (tree_at (trees self.now)) lines ≡ spec.all_trees (parts self.now row.now)) }
    {
        let mut lines = Vec::new(self.alloc);
        let mut rest = row;
        while let [piece, more @ ..] = rest {
            if let Piece::Node {
                rule: _,
                node: _,
                first: _,
                line,
            } = *piece
            {
                lines.push(line)?;
            }
            rest = more;
        }
        Ok(Seq::of(lines))
    }

    /// The rule of the last node of a row.
    #[tactic(auto, unfolding(crate::specs::Control::last_rule, crate::specs::Pieces::parts_of))]
    pub fn last_rule(&self, row: &[Piece]) -> Rule
        ensures { result ≡ control.last_rule rule.Root (parts self.now row.now) }
    {
        let mut last = Rule::Root;
        let mut rest = row;
        while let [piece, more @ ..] = rest {
            if let Piece::Node {
                rule,
                node: _,
                first: _,
                line: _,
            } = *piece
            {
                last = rule;
            }
            rest = more;
        }
        last
    }

    /// Whether a row has a node.
    #[tactic(auto, unfolding(crate::specs::Control::has_part, crate::specs::Pieces::parts_of))]
    pub fn has_part(&self, row: &[Piece]) -> bool
        ensures { result ≡ control.has_part (parts self.now row.now) }
    {
        let mut rest = row;
        while let [piece, more @ ..] = rest {
            if let Piece::Node {
                rule: _,
                node: _,
                first: _,
                line: _,
            } = *piece
            {
                return true;
            }
            rest = more;
        }
        false
    }

    /// Whether a row has a node of a rule.
    #[tactic(auto, unfolding(crate::specs::Control::has_rule, crate::specs::Pieces::parts_of))]
    pub fn has_rule(&self, wanted: Rule, row: &[Piece]) -> bool
        ensures { result ≡ control.has_rule wanted (parts self.now row.now) }
    {
        let mut rest = row;
        while let [piece, more @ ..] = rest {
            if let Piece::Node {
                rule,
                node: _,
                first: _,
                line: _,
            } = *piece
            {
                if same_rule(rule, wanted) {
                    return true;
                }
            }
            rest = more;
        }
        false
    }
}

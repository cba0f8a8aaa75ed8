// Operators in a row, and the operators before an operand.
ghost use Rattle.std.specs.Prelude.{◌≡◌, ◌<◌, List, [], ◌∷◌, length, IfOk};
ghost use Rattle.zig_tree.specs.declared.token.TokenKind.TheVariants as kind;
ghost use Rattle.zir_form.specs.Core as core;
ghost use Rattle.zir_form.specs.Lines.{tree_at};
ghost use Rattle.zir_astgen.specs.Chains as spec;
ghost use Rattle.zir_astgen.specs.declared.piece.Piece.{Piece};
ghost use Rattle.zir_astgen.specs.Firsts.{Adds};
ghost use Rattle.zir_astgen.specs.Leaving.{AreLeft, leaves_of};
ghost use Rattle.zir_astgen.specs.Pieces.{Below};
ghost use Rattle.zir_astgen.specs.Writing.{file, parts, site, trees};

use crate::operators::{binary_of, unary_of};
use crate::piece::Piece;
use crate::writer::{ABSENT, MISSING, Writer};
use std::alloc::AllocError;
use zig_tree::{Rule, TokenKind, same_kind, same_rule};
use zir_form::{BinaryOperator, Form, UnaryOperator};
use zw_base::Seq;

impl Writer<'_> {
    /// An operator between two operands that are both met.
    #[tactic(auto, unfolding(zir_form::specs::Lines::over_cores))]
    fn binary_by(
        &mut self,
        place: u32,
        operator_place: u32,
        operator: Option<BinaryOperator>,
        left: u32,
        right: u32,
    ) -> Result<u32, AllocError>
        ensures tree { IfOk result (Adds (trees self.old) (trees self.new) (spec.binary_by place operator_place operator (tree_at (trees self.old) left) (tree_at (trees self.old) right))) }
        ensures source { self.new.source ≡ self.old.source }
    {
        match operator {
            Some(operator) => self.put(Form::Binary {
                place,
                operator_place,
                operator,
                left,
                right,
            }),
            None => Ok(MISSING),
        }
    }

    /// Two operands with the operator between them, and what a `catch` captures.
    #[tactic(auto, unfolding(crate::specs::Chains::joined, zir_form::specs::Lines::over_cores))]
    fn joined(
        &mut self,
        place: u32,
        operator_place: u32,
        kind: TokenKind,
        capture: u32,
        left: u32,
        right: u32,
    ) -> Result<u32, AllocError>
        ensures tree { IfOk result (Adds (trees self.old) (trees self.new) (spec.joined place operator_place kind (tree_at (trees self.old) capture) (tree_at (trees self.old) left) (tree_at (trees self.old) right))) }
        ensures source { self.new.source ≡ self.old.source }
    {
        if same_kind(kind, TokenKind::KeywordOr) {
            self.put(Form::Or {
                place,
                operator_place,
                left,
                right,
            })
        } else if same_kind(kind, TokenKind::KeywordAnd) {
            self.put(Form::And {
                place,
                operator_place,
                left,
                right,
            })
        } else if same_kind(kind, TokenKind::KeywordOrelse) {
            self.put(Form::Orelse {
                place,
                operator_place,
                left,
                right,
            })
        } else if same_kind(kind, TokenKind::KeywordCatch) {
            self.put(Form::Catch {
                place,
                operator_place,
                left,
                capture,
                right,
            })
        } else {
            self.binary_by(place, operator_place, binary_of(kind), left, right)
        }
    }

    /// The operands behind a value, each behind an operator, from the left.
    #[tactic(auto, unfolding(crate::specs::Chains::chain, crate::specs::Pieces::parts_of))]
    fn chain(&mut self, place: u32, line: u32, row: &[Piece]) -> Result<u32, AllocError>
        requires below { Below (length (trees self.old)) row.now }
        requires inside { line < length (trees self.old) }
        ensures tree { IfOk result (Adds (trees self.old) (trees self.new) (spec.chain (file self.old) (site self.old) place (tree_at (trees self.old) line) 0 kind.End core.absent (parts self.old row.now))) }
        ensures source { self.new.source ≡ self.old.source }
    {
        let mut left = line;
        let mut operator = 0;
        let mut kind = TokenKind::End;
        let mut capture = ABSENT;
        let mut rest = row;
        while let [piece, more @ ..] = rest {
            match *piece {
                Piece::Token { token, kind: next } => {
                    operator = token;
                    kind = next;
                    capture = ABSENT;
                }
                Piece::Node {
                    rule,
                    node: _,
                    first: _,
                    line: tree,
                } => {
                    if same_rule(rule, Rule::Capture) {
                        capture = tree;
                    } else {
                        let operator_place = self.offset(operator);
                        left = self.joined(place, operator_place, kind, capture, left, tree)?;
                        capture = ABSENT;
                    }
                }
            }
            rest = more;
        }
        Ok(left)
    }

    /// Operands at one level of precedence; they group from the left.
    #[tactic(auto, unfolding(crate::specs::Chains::made_chain, crate::specs::Pieces::parts_of))]
    pub fn made_chain(&mut self, row: &[Piece]) -> Result<u32, AllocError>
        requires below { Below (length (trees self.old)) row.now }
        ensures tree { IfOk result (Adds (trees self.old) (trees self.new) (spec.made_chain (file self.old) (site self.old) (parts self.old row.now))) }
        ensures source { self.new.source ≡ self.old.source }
    {
        match row {
            [
                Piece::Node {
                    rule: _,
                    node: _,
                    first,
                    line,
                },
                more @ ..,
            ] => {
                let place = self.offset(*first);
                self.chain(place, *line, more)
            }
            [Piece::Token { token: _, kind: _ }, ..] => Ok(MISSING),
            [] => Ok(MISSING),
        }
    }

    /// `try`, with what runs where it returns, if it can.
    #[tactic(auto, unfolding(zir_form::specs::Lines::over_cores))]
    fn tried(&mut self, place: u32, operand: u32, leaves: Option<&[u32]>) -> Result<u32, AllocError>
        ensures tree { IfOk result (Adds (trees self.old) (trees self.new) (spec.tried place (tree_at (trees self.old) operand) (leaves_of (trees self.old) leaves.entry))) }
        ensures source { self.new.source ≡ self.old.source }
    {
        match leaves {
            Some(leaves) => {
                let leaves = Seq::of(Vec::from_slice(self.alloc, leaves)?);
                self.put(Form::Try {
                    place,
                    operand,
                    leaves,
                })
            }
            None => Ok(MISSING),
        }
    }

    /// An operator before its operand.
    #[tactic(auto, unfolding(zir_form::specs::Lines::over_cores))]
    fn unary_by(
        &mut self,
        place: u32,
        operator: Option<UnaryOperator>,
        operand: u32,
    ) -> Result<u32, AllocError>
        ensures tree { IfOk result (Adds (trees self.old) (trees self.new) (spec.unary_by place operator (tree_at (trees self.old) operand))) }
        ensures source { self.new.source ≡ self.old.source }
    {
        match operator {
            Some(operator) => self.put(Form::Unary {
                place,
                operator,
                operand,
            }),
            None => Ok(MISSING),
        }
    }

    /// A token before its operand.
    #[tactic(auto, unfolding(crate::specs::Chains::prefix_by, zir_form::specs::Lines::over_cores))]
    fn prefix_by(
        &mut self,
        leaves: Option<&[u32]>,
        place: u32,
        kind: TokenKind,
        operand: u32,
    ) -> Result<u32, AllocError>
        ensures tree { IfOk result (Adds (trees self.old) (trees self.new) (spec.prefix_by (leaves_of (trees self.old) leaves.entry) place kind (tree_at (trees self.old) operand))) }
        ensures source { self.new.source ≡ self.old.source }
    {
        if same_kind(kind, TokenKind::Ampersand) {
            self.put(Form::Address { place, operand })
        } else if same_kind(kind, TokenKind::KeywordTry) {
            self.tried(place, operand, leaves)
        } else {
            self.unary_by(place, unary_of(kind), operand)
        }
    }

    /// A part before an operand, or the operand itself, with the line of what stands behind it.
    #[tactic(auto, unfolding(crate::specs::Chains::operand, crate::specs::Pieces::parts_of))]
    fn operand_part(
        &mut self,
        leaves: Option<&[u32]>,
        piece: Piece,
        line: u32,
    ) -> Result<u32, AllocError>
        requires below { Below (length (trees self.old)) (piece ∷ []) }
        ensures tree { (more : List Piece) → tree_at (trees self.old) line ≡ spec.operand (file self.old) (site self.old) (leaves_of (trees self.old) leaves.entry) (parts self.old more) → IfOk result (Adds (trees self.old) (trees self.new) (spec.operand (file self.old) (site self.old) (leaves_of (trees self.old) leaves.entry) (parts self.old (piece ∷ more)))) }
        ensures source { self.new.source ≡ self.old.source }
    {
        match piece {
            Piece::Token { token, kind } => {
                let place = self.offset(token);
                self.prefix_by(leaves, place, kind, line)
            }
            Piece::Node {
                rule: _,
                node: _,
                first: _,
                line: tree,
            } => Ok(tree),
        }
    }

    /// An operand with the operators before it, the nearest first. `leaves` are the lines of what runs
    /// where a `try` returns, if it can from here.
    #[tactic(auto, unfolding(crate::specs::Chains::operand, crate::specs::Pieces::parts_of))]
    pub fn made_prefix(&mut self, leaves: Option<&[u32]>, row: &[Piece]) -> Result<u32, AllocError>
        requires below { Below (length (trees self.old)) row.now }
        requires left { AreLeft (length (trees self.old)) leaves }
        ensures tree { IfOk result (Adds (trees self.old) (trees self.new) (spec.operand (file self.old) (site self.old) (leaves_of (trees self.old) leaves.entry) (parts self.old row.now))) }
        ensures source { self.new.source ≡ self.old.source }
    {
        let mut line = MISSING;
        let mut at = row.len();
        while at > 0 {
            at -= 1;
            line = self.operand_part(leaves, row[at], line)?;
        }
        Ok(line)
    }
}

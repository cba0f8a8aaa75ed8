// Statements and assignments.
ghost use Rattle.std.specs.Prelude.{◌≡◌, ◌<◌, List, length, map, IfOk};
ghost use Rattle.zir_form.specs.Lines.{tree_at};
ghost use Rattle.zir_astgen.specs.Control.{labelled_part};
ghost use Rattle.zir_astgen.specs.Firsts.{Adds};
ghost use Rattle.zir_astgen.specs.Levels.{Level};
ghost use Rattle.zir_astgen.specs.Pieces.{Below};
ghost use Rattle.zir_astgen.specs.Statements as spec;
ghost use Rattle.zir_astgen.specs.Writing.{file, parts, site, trees};

use crate::operators::binary_of;
use crate::piece::Piece;
use crate::rows::is_put_off;
use crate::writer::Writer;
use std::alloc::AllocError;
use zig_tree::{Rule, TokenKind, same_kind};
use zir_form::{BinaryOperator, Form};
use zw_base::Seq;

impl Writer<'_> {
    /// The lines of the statements of a block, without those that put something off.
    #[tactic(auto, using(crate::proofs::AddLemmas::trees_push), unfolding(crate::specs::Statements::statements_in, crate::specs::Pieces::parts_of))]
    fn statement_lines(&self, row: &[Piece]) -> Result<Seq<u32>, AllocError>
        ensures { IfOk result (λ lines. map (tree_at (trees self.now)) lines ≡ spec.statements_in (parts self.now row.now)) }
    {
        let mut lines = Vec::new(self.alloc);
        let mut rest = row;
        while let [piece, more @ ..] = rest {
            if let Piece::Node {
                rule,
                node,
                first: _,
                line,
            } = *piece
            {
                if !is_put_off(self.source.outline, rule, node) {
                    lines.push(line)?;
                }
            }
            rest = more;
        }
        Ok(Seq::of(lines))
    }

    /// Statements in braces, where a line has what runs behind the last one.
    #[tactic(auto, using(crate::proofs::AddLemmas::add_steps, crate::proofs::AddLemmas::first_steps), unfolding(crate::specs::Statements::made_block, zir_form::specs::Lines::over_cores))]
    pub fn made_block(&mut self, leaves: u32, row: &[Piece]) -> Result<u32, AllocError>
        requires below { Below (length (trees self.old)) row.now }
        ensures tree { (behind : List Level) → tree_at (trees self.old) leaves ≡ spec.defers_at behind → IfOk result (Adds (trees self.old) (trees self.new) (spec.made_block (file self.old) (site self.old) behind (parts self.old row.now))) }
        ensures source { self.new.source ≡ self.old.source }
    {
        let statements = self.statement_lines(row)?;
        let place = self.offset(self.first_of(row));
        self.put(Form::Block {
            place,
            statements,
            leaves,
        })
    }

    /// A statement that a token begins: of `defer` and `errdefer` what is put off.
    #[tactic(auto, using(crate::proofs::AddLemmas::add_steps, crate::proofs::AddLemmas::first_steps), unfolding(crate::specs::Statements::word_statement, zir_form::specs::Lines::over_cores))]
    fn word_statement(
        &mut self,
        token: u32,
        kind: TokenKind,
        more: &[Piece],
    ) -> Result<u32, AllocError>
        requires below { Below (length (trees self.old)) more.now }
        ensures tree { IfOk result (Adds (trees self.old) (trees self.new) (spec.word_statement (file self.old) (site self.old) token kind (parts self.old more.now))) }
        ensures source { self.new.source ≡ self.old.source }
    {
        let body = self.last_line(more);
        if same_kind(kind, TokenKind::KeywordComptime) {
            let place = self.offset(token);
            self.put(Form::Comptime { place, inner: body })
        } else if same_kind(kind, TokenKind::KeywordErrdefer) {
            let capture = self.line_of_rule(Rule::Capture, more);
            self.put(Form::OnError { capture, body })
        } else {
            Ok(body)
        }
    }

    /// A statement.
    #[tactic(auto, using(crate::proofs::AddLemmas::add_steps, crate::proofs::AddLemmas::first_steps), unfolding(crate::specs::Statements::made_statement, crate::specs::Pieces::parts_of))]
    pub fn made_statement(&mut self, row: &[Piece]) -> Result<u32, AllocError>
        requires below { Below (length (trees self.old)) row.now }
        ensures tree { IfOk result (Adds (trees self.old) (trees self.new) (spec.made_statement (file self.old) (site self.old) (parts self.old row.now))) }
        ensures source { self.new.source ≡ self.old.source }
    {
        match row {
            [Piece::Token { token, kind }, more @ ..] => self.word_statement(*token, *kind, more),
            [
                Piece::Node {
                    rule: _,
                    node: _,
                    first: _,
                    line,
                },
                ..
            ] => Ok(*line),
            [] => Ok(self.missing()),
        }
    }

    /// What stands behind a label at a place: a block that it can leave, or a loop.
    #[tactic(auto, using(crate::proofs::AddLemmas::add_steps, crate::proofs::AddLemmas::first_steps), unfolding(crate::specs::Control::labelled_part, zir_form::specs::Lines::over_cores))]
    pub fn labelled_part(&mut self, place: u32, more: &[Piece]) -> Result<u32, AllocError>
        requires below { Below (length (trees self.old)) more.now }
        ensures tree { IfOk result (Adds (trees self.old) (trees self.new) (labelled_part place (parts self.old more.now))) }
        ensures source { self.new.source ≡ self.old.source }
    {
        let inner = self.first_line(more);
        if self.has_rule(Rule::Block, more) {
            self.put(Form::Labelled {
                place,
                block: inner,
            })
        } else {
            self.put(Form::Grouped { place, inner })
        }
    }

    /// A statement that declares nothing, behind its label if it has one.
    #[tactic(auto, using(crate::proofs::AddLemmas::add_steps, crate::proofs::AddLemmas::first_steps), unfolding(crate::specs::Statements::made_body, crate::specs::Control::first_statement, crate::specs::Pieces::parts_of))]
    pub fn made_body(&mut self, row: &[Piece]) -> Result<u32, AllocError>
        requires below { Below (length (trees self.old)) row.now }
        ensures tree { IfOk result (Adds (trees self.old) (trees self.new) (spec.made_body (file self.old) (site self.old) (parts self.old row.now))) }
        ensures source { self.new.source ≡ self.old.source }
    {
        match row {
            [Piece::Token { token, kind: _ }, more @ ..] => {
                let place = self.offset(*token);
                self.labelled_part(place, more)
            }
            [
                Piece::Node {
                    rule,
                    node,
                    first,
                    line,
                },
                ..
            ] => self.statement_of(*rule, *node, *first, *line),
            [] => Ok(self.missing()),
        }
    }

    /// An assignment by an operator that is between two operands elsewhere.
    #[tactic(auto, using(crate::proofs::AddLemmas::add_steps, crate::proofs::AddLemmas::first_steps), unfolding(zir_form::specs::Lines::over_cores))]
    fn assign_with(
        &mut self,
        place: u32,
        operator_place: u32,
        operator: Option<BinaryOperator>,
        target: u32,
        value: u32,
    ) -> Result<u32, AllocError>
        ensures tree { IfOk result (Adds (trees self.old) (trees self.new) (spec.assign_with place operator_place operator (tree_at (trees self.old) target) (tree_at (trees self.old) value))) }
        ensures source { self.new.source ≡ self.old.source }
    {
        match operator {
            Some(operator) => self.put(Form::AssignWith {
                place,
                operator_place,
                operator,
                target,
                value,
            }),
            None => Ok(self.missing()),
        }
    }

    /// An assignment by the kind of its operator.
    #[tactic(auto, using(crate::proofs::AddLemmas::add_steps, crate::proofs::AddLemmas::first_steps), unfolding(crate::specs::Statements::assigned, zir_form::specs::Lines::over_cores))]
    fn assigned(
        &mut self,
        place: u32,
        operator_place: u32,
        kind: TokenKind,
        target: u32,
        value: u32,
    ) -> Result<u32, AllocError>
        ensures tree { IfOk result (Adds (trees self.old) (trees self.new) (spec.assigned place operator_place kind (tree_at (trees self.old) target) (tree_at (trees self.old) value))) }
        ensures source { self.new.source ≡ self.old.source }
    {
        if same_kind(kind, TokenKind::Equal) {
            self.put(Form::Assign {
                place,
                operator_place,
                target,
                value,
            })
        } else {
            self.assign_with(place, operator_place, binary_of(kind), target, value)
        }
    }

    /// What stands behind an operand: an operator and a value, or nothing.
    #[tactic(auto, using(crate::proofs::AddLemmas::add_steps, crate::proofs::AddLemmas::first_steps), unfolding(crate::specs::Pieces::parts_of))]
    fn assignment(&mut self, first: u32, target: u32, more: &[Piece]) -> Result<u32, AllocError>
        requires below { Below (length (trees self.old)) more.now }
        requires inside { target < length (trees self.old) }
        ensures tree { IfOk result (Adds (trees self.old) (trees self.new) (spec.assignment (file self.old) (site self.old) first (tree_at (trees self.old) target) (parts self.old more.now))) }
        ensures source { self.new.source ≡ self.old.source }
    {
        match more {
            [Piece::Token { token, kind }, behind @ ..] => {
                let place = self.offset(first);
                let operator_place = self.offset(*token);
                let value = self.first_line(behind);
                self.assigned(place, operator_place, *kind, target, value)
            }
            [
                Piece::Node {
                    rule: _,
                    node: _,
                    first: _,
                    line: _,
                },
                ..
            ] => Ok(target),
            [] => Ok(target),
        }
    }

    /// `_ = a`, an assignment, or an expression alone.
    #[tactic(auto, using(crate::proofs::AddLemmas::add_steps, crate::proofs::AddLemmas::first_steps), unfolding(crate::specs::Statements::made_assignment, crate::specs::Pieces::parts_of, zir_form::specs::Lines::over_cores))]
    pub fn made_assignment(&mut self, row: &[Piece]) -> Result<u32, AllocError>
        requires below { Below (length (trees self.old)) row.now }
        ensures tree { IfOk result (Adds (trees self.old) (trees self.new) (spec.made_assignment (file self.old) (site self.old) (parts self.old row.now))) }
        ensures source { self.new.source ≡ self.old.source }
    {
        match row {
            [Piece::Token { token, kind: _ }, more @ ..] => {
                let place = self.offset(*token);
                let value = self.first_line(more);
                self.put(Form::Discard { place, value })
            }
            [
                Piece::Node {
                    rule: _,
                    node: _,
                    first,
                    line,
                },
                more @ ..,
            ] => self.assignment(*first, *line, more),
            [] => Ok(self.missing()),
        }
    }
}

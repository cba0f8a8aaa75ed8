// Branches, loops, switches, and the names in bars.
ghost use Rattle.std.specs.Prelude.{◌≡◌, ◌<◌, length, false, IfOk, if◌then◌else◌};
ghost use Rattle.zig_tree.specs.declared.token.TokenKind.TheVariants as kind;
ghost use Rattle.zig_tree.specs.declared.grammar.Rule.TheVariants as rule;
ghost use Rattle.zir_form.specs.Core as core;
ghost use Rattle.zir_form.specs.Core.{cores_of};
ghost use Rattle.zir_form.specs.Lines.{tree_at};
ghost use Rattle.zir_scope.specs.Syntax.{inside_of};
ghost use Rattle.zir_astgen.specs.Control as spec;
ghost use Rattle.zir_astgen.specs.Firsts.{Adds, AddsAll};
ghost use Rattle.zir_astgen.specs.Parts.{has_token, last_tree, tree_behind, tree_of_rule, trees_of_rule};
ghost use Rattle.zir_astgen.specs.Pieces.{Below};
ghost use Rattle.zir_astgen.specs.Stages.{is_rest};
ghost use Rattle.zir_astgen.specs.Writing.{file, parts, site, trees};

use crate::piece::Piece;
use crate::rows::holds_one_node;
use crate::writer::{ABSENT, Writer};
use std::alloc::AllocError;
use zig_tree::{Rule, TokenKind, same_kind, same_rule};
use zir_form::Form;
use zw_base::Seq;

/// Whether a rule is what a condition or a loop does.
#[tactic(auto, unfolding(crate::specs::Stages::is_rest))]
fn is_rest(rule: Rule) -> bool
    ensures { result ≡ is_rest rule }
{
    same_rule(rule, Rule::Rest) || same_rule(rule, Rule::RestExpression)
}

impl Writer<'_> {
    /// A node as a statement.
    #[tactic(auto, using(crate::proofs::AddLemmas::add_steps, crate::proofs::AddLemmas::first_steps), unfolding(crate::specs::Control::statement_of, zir_form::specs::Lines::over_cores))]
    pub fn statement_of(
        &mut self,
        rule: Rule,
        node: u32,
        first: u32,
        line: u32,
    ) -> Result<u32, AllocError>
        requires inside { line < length (trees self.old) }
        ensures tree { IfOk result (Adds (trees self.old) (trees self.new) (spec.statement_of (file self.old) (site self.old) rule (inside_of self.old.source.outline.now node) first (tree_at (trees self.old) line))) }
        ensures source { self.new.source ≡ self.old.source }
    {
        if same_rule(rule, Rule::Assignment) && holds_one_node(self.source.outline, node) {
            let place = self.offset(first);
            self.put(Form::Ignored { place, value: line })
        } else {
            Ok(line)
        }
    }

    /// The first node of a row as a statement.
    #[tactic(auto, using(crate::proofs::AddLemmas::add_steps, crate::proofs::AddLemmas::first_steps), unfolding(crate::specs::Control::first_statement, crate::specs::Pieces::parts_of))]
    pub fn first_statement(&mut self, row: &[Piece]) -> Result<u32, AllocError>
        requires below { Below (length (trees self.old)) row.now }
        ensures tree { IfOk result (Adds (trees self.old) (trees self.new) (spec.first_statement (file self.old) (site self.old) (parts self.old row.now))) }
        ensures source { self.new.source ≡ self.old.source }
    {
        let mut rest = row;
        while let [piece, more @ ..] = rest {
            if let Piece::Node {
                rule,
                node,
                first,
                line,
            } = *piece
            {
                return self.statement_of(rule, node, first, line);
            }
            rest = more;
        }
        Ok(ABSENT)
    }

    /// The first node behind the first token of a kind, as a statement.
    #[tactic(auto, using(crate::proofs::AddLemmas::add_steps, crate::proofs::AddLemmas::first_steps), unfolding(crate::specs::Control::statement_behind, crate::specs::Pieces::parts_of))]
    pub fn statement_behind(&mut self, wanted: TokenKind, row: &[Piece]) -> Result<u32, AllocError>
        requires below { Below (length (trees self.old)) row.now }
        ensures tree { IfOk result (Adds (trees self.old) (trees self.new) (spec.statement_behind (file self.old) (site self.old) wanted (parts self.old row.now))) }
        ensures source { self.new.source ≡ self.old.source }
    {
        let mut rest = row;
        while let [piece, more @ ..] = rest {
            if let Piece::Token { token: _, kind } = *piece {
                if same_kind(kind, wanted) {
                    return self.first_statement(more);
                }
            }
            rest = more;
        }
        Ok(ABSENT)
    }

    /// A name in bars: `_` is none of the part's locals.
    #[tactic(auto, using(crate::proofs::AddLemmas::add_steps, crate::proofs::AddLemmas::first_steps), unfolding(crate::specs::Control::made_name, crate::specs::Pieces::parts_of, zir_form::specs::Lines::over_cores))]
    pub fn made_name(&mut self, row: &[Piece]) -> Result<u32, AllocError>
        ensures tree { IfOk result (Adds (trees self.old) (trees self.new) (spec.made_name (file self.old) (site self.old) (parts self.old row.now))) }
        ensures source { self.new.source ≡ self.old.source }
    {
        match row {
            [Piece::Token { token, kind: _ }, ..] => {
                let place = self.offset(*token);
                let local = self.local_number(*token)?;
                self.put(Form::Capture { place, local })
            }
            [
                Piece::Node {
                    rule: _,
                    node: _,
                    first: _,
                    line: _,
                },
                ..
            ] => Ok(self.missing()),
            [] => Ok(self.missing()),
        }
    }

    /// A name in bars, captured by pointer or not.
    #[tactic(auto, using(crate::proofs::AddLemmas::add_steps, crate::proofs::AddLemmas::first_steps), unfolding(zir_form::specs::Lines::over_cores))]
    fn captured_name(&mut self, pointer: bool, line: u32) -> Result<u32, AllocError>
        requires inside { line < length (trees self.old) }
        ensures tree { IfOk result (Adds (trees self.old) (trees self.new) (if pointer then core.pointer_capture (tree_at (trees self.old) line) else tree_at (trees self.old) line)) }
        ensures source { self.new.source ≡ self.old.source }
    {
        if pointer {
            self.put(Form::PointerCapture { capture: line })
        } else {
            Ok(line)
        }
    }

    /// The names of a row, by pointer where `*` stands before one.
    #[tactic(auto, using(crate::proofs::AddLemmas::add_steps, crate::proofs::AddLemmas::first_steps), unfolding(crate::specs::Control::captured_names, crate::specs::Pieces::parts_of))]
    fn captured_names(&mut self, row: &[Piece]) -> Result<Seq<u32>, AllocError>
        requires below { Below (length (trees self.old)) row.now }
        ensures trees { IfOk result (AddsAll (trees self.old) (trees self.new) (spec.captured_names false (parts self.old row.now))) }
        ensures source { self.new.source ≡ self.old.source }
    {
        let mut names = Vec::new(self.alloc);
        let mut pointer = false;
        let mut rest = row;
        while let [piece, more @ ..] = rest {
            match *piece {
                Piece::Token { token: _, kind } => {
                    pointer = same_kind(kind, TokenKind::Asterisk);
                }
                Piece::Node {
                    rule: _,
                    node: _,
                    first: _,
                    line,
                } => {
                    let name = self.captured_name(pointer, line)?;
                    names.push(name)?;
                    pointer = false;
                }
            }
            rest = more;
        }
        Ok(Seq::of(names))
    }

    /// The names that a loop captures.
    #[tactic(auto, using(crate::proofs::AddLemmas::add_steps, crate::proofs::AddLemmas::first_steps), unfolding(crate::specs::Control::made_captures, zir_form::specs::Lines::over_cores))]
    pub fn made_captures(&mut self, row: &[Piece]) -> Result<u32, AllocError>
        requires below { Below (length (trees self.old)) row.now }
        ensures tree { IfOk result (Adds (trees self.old) (trees self.new) (spec.made_captures (parts self.old row.now))) }
        ensures source { self.new.source ≡ self.old.source }
    {
        let captures = self.captured_names(row)?;
        self.put(Form::Captures { captures })
    }

    /// The one name in bars.
    #[tactic(auto, using(crate::proofs::AddLemmas::add_steps, crate::proofs::AddLemmas::first_steps), unfolding(crate::specs::Control::made_capture, crate::specs::Control::captured_names, crate::specs::Pieces::parts_of))]
    pub fn made_capture(&mut self, row: &[Piece]) -> Result<u32, AllocError>
        requires below { Below (length (trees self.old)) row.now }
        ensures tree { IfOk result (Adds (trees self.old) (trees self.new) (spec.made_capture (parts self.old row.now))) }
        ensures source { self.new.source ≡ self.old.source }
    {
        let mut pointer = false;
        let mut rest = row;
        while let [piece, more @ ..] = rest {
            match *piece {
                Piece::Token { token: _, kind } => {
                    pointer = same_kind(kind, TokenKind::Asterisk);
                }
                Piece::Node {
                    rule: _,
                    node: _,
                    first: _,
                    line,
                } => return self.captured_name(pointer, line),
            }
            rest = more;
        }
        Ok(ABSENT)
    }

    /// What stands behind `else`.
    fn otherwise_line(&self, row: &[Piece]) -> u32
        requires below { Below (length (trees self.now)) row.now }
        ensures tree { tree_at (trees self.now) result ≡ (if has_token kind.KeywordElse (parts self.now row.now) then last_tree core.absent (parts self.now row.now) else core.absent) }
        ensures inside { result < length (trees self.now) }
    {
        if self.has_token(TokenKind::KeywordElse, row) {
            self.last_line(row)
        } else {
            self.absent()
        }
    }

    /// The body, what `else` captures, and what stands behind it.
    #[tactic(auto, using(crate::proofs::AddLemmas::add_steps, crate::proofs::AddLemmas::first_steps), unfolding(zir_form::specs::Lines::over_cores))]
    pub fn made_rest(&mut self, row: &[Piece]) -> Result<u32, AllocError>
        requires below { Below (length (trees self.old)) row.now }
        ensures tree { IfOk result (Adds (trees self.old) (trees self.new) (spec.made_rest (file self.old) (site self.old) (parts self.old row.now))) }
        ensures source { self.new.source ≡ self.old.source }
    {
        let body = self.first_statement(row)?;
        let capture = self.line_of_rule(Rule::Capture, row);
        let otherwise = self.otherwise_line(row);
        self.put(Form::Branches {
            body,
            capture,
            otherwise,
        })
    }

    /// The branches that a row ends with; an expression alone has no `else`.
    #[tactic(auto, using(crate::proofs::AddLemmas::add_steps, crate::proofs::AddLemmas::first_steps), unfolding(crate::specs::Control::branches_in, zir_form::specs::Lines::over_cores))]
    fn branches_in(&mut self, row: &[Piece]) -> Result<u32, AllocError>
        requires below { Below (length (trees self.old)) row.now }
        ensures tree { IfOk result (Adds (trees self.old) (trees self.new) (spec.branches_in (parts self.old row.now))) }
        ensures source { self.new.source ≡ self.old.source }
    {
        let body = self.last_line(row);
        if is_rest(self.last_rule(row)) {
            Ok(body)
        } else {
            self.put(Form::Branches {
                body,
                capture: ABSENT,
                otherwise: ABSENT,
            })
        }
    }

    /// `if (c) |x| A else |e| B`.
    #[tactic(auto, using(crate::proofs::AddLemmas::add_steps, crate::proofs::AddLemmas::first_steps), unfolding(crate::specs::Control::made_if, zir_form::specs::Lines::over_cores))]
    pub fn made_if(&mut self, row: &[Piece]) -> Result<u32, AllocError>
        requires below { Below (length (trees self.old)) row.now }
        ensures tree { IfOk result (Adds (trees self.old) (trees self.new) (spec.made_if (file self.old) (site self.old) (parts self.old row.now))) }
        ensures source { self.new.source ≡ self.old.source }
    {
        let branches = self.branches_in(row)?;
        let place = self.offset(self.first_of(row));
        let condition = self.line_behind(TokenKind::LeftParen, row);
        let capture = self.line_of_rule(Rule::Capture, row);
        self.put(Form::If {
            place,
            condition,
            capture,
            branches,
        })
    }

    /// What a `while` asks before each turn.
    #[tactic(auto, using(crate::proofs::AddLemmas::add_steps, crate::proofs::AddLemmas::first_steps), unfolding(zir_form::specs::Lines::over_cores))]
    fn while_head(&mut self, row: &[Piece]) -> Result<u32, AllocError>
        requires below { Below (length (trees self.old)) row.now }
        ensures tree { IfOk result (Adds (trees self.old) (trees self.new) (core.while_head (tree_behind kind.LeftParen (parts self.old row.now)) (tree_of_rule rule.Capture (parts self.old row.now)))) }
        ensures source { self.new.source ≡ self.old.source }
    {
        let condition = self.line_behind(TokenKind::LeftParen, row);
        let capture = self.line_of_rule(Rule::Capture, row);
        self.put(Form::WhileHead { condition, capture })
    }

    /// `while (c) |x| : (k) A else B`.
    #[tactic(auto, using(crate::proofs::AddLemmas::add_steps, crate::proofs::AddLemmas::first_steps), unfolding(crate::specs::Control::made_while, zir_form::specs::Lines::over_cores))]
    pub fn made_while(&mut self, row: &[Piece]) -> Result<u32, AllocError>
        requires below { Below (length (trees self.old)) row.now }
        ensures tree { IfOk result (Adds (trees self.old) (trees self.new) (spec.made_while (file self.old) (site self.old) (parts self.old row.now))) }
        ensures source { self.new.source ≡ self.old.source }
    {
        let head = self.while_head(row)?;
        let turn = self.statement_behind(TokenKind::Colon, row)?;
        let branches = self.branches_in(row)?;
        let place = self.offset(self.first_of(row));
        self.put(Form::Loop {
            place,
            head,
            turn,
            branches,
        })
    }

    /// The operands that a `for` goes over, and the names that it captures.
    #[tactic(auto, using(crate::proofs::AddLemmas::add_steps, crate::proofs::AddLemmas::first_steps), unfolding(zir_form::specs::Lines::over_cores))]
    fn for_head(&mut self, row: &[Piece]) -> Result<u32, AllocError>
        requires below { Below (length (trees self.old)) row.now }
        ensures tree { IfOk result (Adds (trees self.old) (trees self.new) (core.for_head (cores_of (trees_of_rule rule.ForArgument (parts self.old row.now))) (tree_of_rule rule.Captures (parts self.old row.now)))) }
        ensures source { self.new.source ≡ self.old.source }
    {
        let operands = self.lines_of_rule(Rule::ForArgument, row)?;
        let captures = self.line_of_rule(Rule::Captures, row);
        self.put(Form::ForHead { operands, captures })
    }

    /// `for (a, b) |x, y| A else B`, a loop too.
    #[tactic(auto, using(crate::proofs::AddLemmas::add_steps, crate::proofs::AddLemmas::first_steps), unfolding(crate::specs::Control::made_for, zir_form::specs::Lines::over_cores))]
    pub fn made_for(&mut self, row: &[Piece]) -> Result<u32, AllocError>
        requires below { Below (length (trees self.old)) row.now }
        ensures tree { IfOk result (Adds (trees self.old) (trees self.new) (spec.made_for (file self.old) (site self.old) (parts self.old row.now))) }
        ensures source { self.new.source ≡ self.old.source }
    {
        let head = self.for_head(row)?;
        let branches = self.branches_in(row)?;
        let place = self.offset(self.first_of(row));
        self.put(Form::Loop {
            place,
            head,
            turn: ABSENT,
            branches,
        })
    }

    /// An operand of a `for`: an expression, or a range.
    #[tactic(auto, using(crate::proofs::AddLemmas::add_steps, crate::proofs::AddLemmas::first_steps), unfolding(crate::specs::Control::made_for_argument, zir_form::specs::Lines::over_cores))]
    pub fn made_for_argument(&mut self, row: &[Piece]) -> Result<u32, AllocError>
        requires below { Below (length (trees self.old)) row.now }
        ensures tree { IfOk result (Adds (trees self.old) (trees self.new) (spec.made_for_argument (file self.old) (site self.old) (parts self.old row.now))) }
        ensures source { self.new.source ≡ self.old.source }
    {
        let start = self.first_line(row);
        if self.has_token(TokenKind::Ellipsis2, row) {
            let place = self.offset(self.first_of(row));
            let end = self.line_behind(TokenKind::Ellipsis2, row);
            self.put(Form::Range { place, start, end })
        } else {
            Ok(start)
        }
    }

    /// `switch (a) { .. }`.
    #[tactic(auto, using(crate::proofs::AddLemmas::add_steps, crate::proofs::AddLemmas::first_steps), unfolding(crate::specs::Control::made_switch, zir_form::specs::Lines::over_cores))]
    pub fn made_switch(&mut self, row: &[Piece]) -> Result<u32, AllocError>
        requires below { Below (length (trees self.old)) row.now }
        ensures tree { IfOk result (Adds (trees self.old) (trees self.new) (spec.made_switch (file self.old) (site self.old) (parts self.old row.now))) }
        ensures source { self.new.source ≡ self.old.source }
    {
        let prongs = self.lines_of_rule(Rule::Prong, row)?;
        let place = self.offset(self.first_of(row));
        let operand = self.line_behind(TokenKind::LeftParen, row);
        self.put(Form::Switch {
            place,
            operand,
            prongs,
        })
    }

    /// A prong with the values that it takes, or the prong `else`.
    #[tactic(auto, using(crate::proofs::AddLemmas::add_steps, crate::proofs::AddLemmas::first_steps), unfolding(crate::specs::Control::made_prong, zir_form::specs::Lines::over_cores))]
    pub fn made_prong(&mut self, row: &[Piece]) -> Result<u32, AllocError>
        requires below { Below (length (trees self.old)) row.now }
        ensures tree { IfOk result (Adds (trees self.old) (trees self.new) (spec.made_prong (file self.old) (site self.old) (parts self.old row.now))) }
        ensures source { self.new.source ≡ self.old.source }
    {
        let capture = self.line_of_rule(Rule::Capture, row);
        let body = self.last_line(row);
        if self.leads_with(TokenKind::KeywordElse, row) {
            let place = self.offset(self.first_of(row));
            self.put(Form::ElseProng {
                place,
                capture,
                body,
            })
        } else {
            let items = self.lines_of_rule(Rule::Item, row)?;
            self.put(Form::Prong {
                items,
                capture,
                body,
            })
        }
    }

    /// A value that a prong takes, or an interval of them.
    #[tactic(auto, using(crate::proofs::AddLemmas::add_steps, crate::proofs::AddLemmas::first_steps), unfolding(crate::specs::Control::made_item, zir_form::specs::Lines::over_cores))]
    pub fn made_item(&mut self, row: &[Piece]) -> Result<u32, AllocError>
        requires below { Below (length (trees self.old)) row.now }
        ensures tree { IfOk result (Adds (trees self.old) (trees self.new) (spec.made_item (file self.old) (site self.old) (parts self.old row.now))) }
        ensures source { self.new.source ≡ self.old.source }
    {
        let first = self.first_line(row);
        if self.has_token(TokenKind::Ellipsis3, row) {
            let place = self.offset(self.first_of(row));
            let last = self.line_behind(TokenKind::Ellipsis3, row);
            self.put(Form::Interval { place, first, last })
        } else {
            Ok(first)
        }
    }
}

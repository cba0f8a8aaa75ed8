// Types: their prefixes, and error unions.
ghost use Rattle.std.specs.Prelude.{◌≡◌, ◌<◌, ◌∷◌, false, length, IfOk};
ghost use Rattle.zir_form.specs.Core as core;
ghost use Rattle.zir_form.specs.Lines.{tree_at};
ghost use Rattle.zir_scope.specs.Syntax.{inside_of};
ghost use Rattle.zir_astgen.specs.Chains as spec;
ghost use Rattle.zir_astgen.specs.Firsts.{Adds};
ghost use Rattle.zir_astgen.specs.Pieces.{Below};
ghost use Rattle.zir_astgen.specs.Writing.{file, parts, site, trees};

use crate::piece::Piece;
use crate::rows::begins_with;
use crate::words::{has_word, second_is};
use crate::writer::{MISSING, Writer};
use std::alloc::AllocError;
use zig_tree::{Rule, TokenKind, same_rule};
use zir_form::Form;

impl Writer<'_> {
    /// A pointer to a pointer, written as one token.
    #[tactic(auto, unfolding(zir_form::specs::Lines::over_cores))]
    fn pointers(&mut self, place: u32, is_const: bool, child: u32) -> Result<u32, AllocError>
        ensures tree { IfOk result (Adds (trees self.old) (trees self.new) (core.pointer place false (core.pointer place is_const (tree_at (trees self.old) child)))) }
        ensures source { self.new.source ≡ self.old.source }
    {
        let inner = self.put(Form::Pointer {
            place,
            is_const,
            child,
        })?;
        self.put(Form::Pointer {
            place,
            is_const: false,
            child: inner,
        })
    }

    /// A type behind one prefix, by the node of the prefix and the line of the length that it may have.
    #[tactic(auto, unfolding(crate::specs::Chains::prefixed, zir_form::specs::Lines::over_cores))]
    fn prefixed(
        &mut self,
        place: u32,
        node: u32,
        length: u32,
        child: u32,
    ) -> Result<u32, AllocError>
        ensures tree { IfOk result (Adds (trees self.old) (trees self.new) (spec.prefixed place (inside_of self.old.source.outline.now node) (tree_at (trees self.old) length) (tree_at (trees self.old) child))) }
        ensures source { self.new.source ≡ self.old.source }
    {
        let outline = self.source.outline;
        let row = outline.kids(node);
        let is_const = has_word(outline, TokenKind::KeywordConst, row);
        if begins_with(outline, TokenKind::QuestionMark, row) {
            self.put(Form::Optional { place, child })
        } else if begins_with(outline, TokenKind::Asterisk, row) {
            self.put(Form::Pointer {
                place,
                is_const,
                child,
            })
        } else if begins_with(outline, TokenKind::AsteriskAsterisk, row) {
            self.pointers(place, is_const, child)
        } else if second_is(outline, TokenKind::RightBracket, row) {
            self.put(Form::SliceType {
                place,
                is_const,
                child,
            })
        } else {
            self.put(Form::ArrayType {
                place,
                length,
                child,
            })
        }
    }

    /// A type behind its prefixes, `E!T` or one alone.
    #[tactic(auto, unfolding(zir_form::specs::Lines::over_cores))]
    fn unprefixed(&mut self, place: u32, tree: u32, more: &[Piece]) -> Result<u32, AllocError>
        requires below { Below (length (trees self.old)) more.now }
        requires inside { tree < length (trees self.old) }
        ensures tree { IfOk result (Adds (trees self.old) (trees self.new) (spec.unprefixed place (tree_at (trees self.old) tree) (parts self.old more.now))) }
        ensures source { self.new.source ≡ self.old.source }
    {
        if self.has_token(TokenKind::Bang, more) {
            let payload = self.first_line(more);
            self.put(Form::ErrorUnion {
                place,
                errors: tree,
                payload,
            })
        } else {
            Ok(tree)
        }
    }

    /// A prefix, or what the prefixes stand before, with the line of the type behind it.
    #[tactic(auto, unfolding(crate::specs::Chains::made_type, crate::specs::Pieces::parts_of))]
    fn type_part(&mut self, piece: Piece, line: u32, more: &[Piece]) -> Result<u32, AllocError>
        requires below { Below (length (trees self.old)) (piece ∷ more.now) }
        requires behind { tree_at (trees self.old) line ≡ spec.made_type (file self.old) (site self.old) (parts self.old more.now) }
        ensures tree { IfOk result (Adds (trees self.old) (trees self.new) (spec.made_type (file self.old) (site self.old) (parts self.old (piece ∷ more.now)))) }
        ensures source { self.new.source ≡ self.old.source }
    {
        match piece {
            Piece::Token { token: _, kind: _ } => Ok(MISSING),
            Piece::Node {
                rule,
                node,
                first,
                line: tree,
            } => {
                let place = self.offset(first);
                if same_rule(rule, Rule::TypePrefix) {
                    self.prefixed(place, node, tree, line)
                } else {
                    self.unprefixed(place, tree, more)
                }
            }
        }
    }

    /// A type: the prefixes apply to what stands behind them, an error union whole.
    #[tactic(auto, unfolding(crate::specs::Chains::made_type, crate::specs::Pieces::parts_of))]
    pub fn made_type(&mut self, row: &[Piece]) -> Result<u32, AllocError>
        requires below { Below (length (trees self.old)) row.now }
        ensures tree { IfOk result (Adds (trees self.old) (trees self.new) (spec.made_type (file self.old) (site self.old) (parts self.old row.now))) }
        ensures source { self.new.source ≡ self.old.source }
    {
        let mut line = MISSING;
        let mut at = row.len();
        while at > 0 {
            at -= 1;
            line = self.type_part(row[at], line, &row[at + 1..])?;
        }
        Ok(line)
    }
}

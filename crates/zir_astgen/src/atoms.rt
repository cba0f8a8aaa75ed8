// Atoms: names, literals, calls of builtins, and what stands in parentheses.
ghost use Rattle.std.specs.Prelude.{◌≡◌, length, IfOk};
ghost use Rattle.zir_form.specs.Core as core;
ghost use Rattle.zir_form.specs.Lines.{tree_at};
ghost use Rattle.zir_astgen.specs.Firsts.{Adds};
ghost use Rattle.zir_astgen.specs.Names as spec;
ghost use Rattle.zir_astgen.specs.Numbers.{char_value, int_value};
ghost use Rattle.zir_astgen.specs.Parts.{all_trees, first_tree};
ghost use Rattle.zir_astgen.specs.Pieces.{Below};
ghost use Rattle.zir_astgen.specs.Site.{offset, written_at};
ghost use Rattle.zir_astgen.specs.Values.{multiline_value, string_value};
ghost use Rattle.zir_astgen.specs.Writing.{file, parts, site, trees};

use crate::calls::is_import;
use crate::piece::Piece;
use crate::values::{char_value, int_value, multiline_value, string_value};
use crate::words::string_in;
use crate::writer::{ABSENT, MISSING, Writer};
use std::alloc::AllocError;
use zig_tree::{Rule, TokenKind, same_kind, same_rule};
use zir_form::{BuiltinFn, Form, builtin_fn};
use zw_base::{Bytes, Seq};

impl Writer<'_> {
    /// The names of a row.
    #[tactic(auto, unfolding(crate::specs::Names::names_in, crate::specs::Pieces::parts_of))]
    fn names_in(&self, row: &[Piece]) -> Result<Seq<Bytes>, AllocError>
        ensures { IfOk result (λ names. names ≡ spec.names_in (file self.now) (parts self.now row.now)) }
    {
        let mut names = Vec::new(self.alloc);
        let mut rest = row;
        while let [piece, more @ ..] = rest {
            if let Piece::Token { token, kind } = *piece {
                if same_kind(kind, TokenKind::Identifier) {
                    let name = self.bytes_of_name(token)?;
                    names.push(name)?;
                }
            }
            rest = more;
        }
        Ok(Seq::of(names))
    }

    /// The string that the first node of a row is.
    #[tactic(auto, unfolding(crate::specs::Names::string_argument, crate::specs::Pieces::parts_of))]
    fn string_argument(&self, row: &[Piece]) -> Option<u32>
        ensures { result ≡ spec.string_argument (parts self.now row.now) }
    {
        let mut rest = row;
        while let [piece, more @ ..] = rest {
            if let Piece::Node {
                rule,
                node,
                first: _,
                line: _,
            } = *piece
            {
                if same_rule(rule, Rule::Atom) {
                    let outline = self.source.outline;
                    return string_in(outline, outline.kids(node));
                }
                return None;
            }
            rest = more;
        }
        None
    }

    /// `@import` of a string.
    #[tactic(auto, unfolding(zir_form::specs::Lines::over_cores))]
    fn import_of(&mut self, place: u32, token: Option<u32>) -> Result<u32, AllocError>
        ensures tree { IfOk result (Adds (trees self.old) (trees self.new) (spec.import_of (file self.old) place token)) }
        ensures source { self.new.source ≡ self.old.source }
    {
        match token {
            Some(token) => {
                let path = string_value(self.alloc, self.written_at(token))?;
                self.put(Form::Import { place, path })
            }
            None => Ok(MISSING),
        }
    }

    /// A builtin with its arguments.
    #[tactic(auto, unfolding(zir_form::specs::Lines::over_cores))]
    fn builtin_by(
        &mut self,
        place: u32,
        called: Option<BuiltinFn>,
        arguments: &[Piece],
    ) -> Result<u32, AllocError>
        ensures tree { IfOk result (Adds (trees self.old) (trees self.new) (spec.builtin_by (file self.old) place called (parts self.old arguments.now))) }
        ensures source { self.new.source ≡ self.old.source }
    {
        match called {
            Some(
                BuiltinFn {
                    builtin,
                    parameters: _,
                },
            ) => {
                if is_import(builtin) {
                    let path = self.string_argument(arguments);
                    return self.import_of(place, path);
                }
                let arguments = self.all_lines(arguments)?;
                self.put(Form::Builtin {
                    place,
                    builtin,
                    arguments,
                })
            }
            None => Ok(MISSING),
        }
    }

    /// A call of a builtin.
    #[tactic(auto, unfolding(crate::specs::Names::builtin_call))]
    fn builtin_call(&mut self, token: u32, arguments: &[Piece]) -> Result<u32, AllocError>
        ensures tree { IfOk result (Adds (trees self.old) (trees self.new) (spec.builtin_call (file self.old) (site self.old) token (parts self.old arguments.now))) }
        ensures source { self.new.source ≡ self.old.source }
    {
        let place = self.offset(token);
        let called = builtin_fn(self.written_at(token));
        self.builtin_by(place, called, arguments)
    }

    /// `.name`, or values of a container whose type the place of use gives.
    #[tactic(auto, unfolding(crate::specs::Names::dot_atom, zir_form::specs::Lines::over_cores))]
    fn dot_atom(&mut self, place: u32, more: &[Piece]) -> Result<u32, AllocError>
        requires below { Below (length (trees self.old)) more.now }
        ensures tree { IfOk result (Adds (trees self.old) (trees self.new) (spec.dot_atom (file self.old) place (parts self.old more.now))) }
        ensures source { self.new.source ≡ self.old.source }
    {
        if self.has_token(TokenKind::Identifier, more) {
            let name = self.name_or_none(self.token_in(TokenKind::Identifier, more))?;
            self.put(Form::EnumLiteral { place, name })
        } else {
            let values = self.first_line(more);
            self.put(Form::Initializer {
                place,
                ty: ABSENT,
                values,
            })
        }
    }

    /// `error.Name`, or `error{ A, B }`.
    #[tactic(auto, unfolding(crate::specs::Names::error_atom, zir_form::specs::Lines::over_cores))]
    fn error_atom(&mut self, place: u32, more: &[Piece]) -> Result<u32, AllocError>
        ensures tree { IfOk result (Adds (trees self.old) (trees self.new) (spec.error_atom (file self.old) place (parts self.old more.now))) }
        ensures source { self.new.source ≡ self.old.source }
    {
        if self.has_token(TokenKind::LeftBrace, more) {
            let names = self.names_in(more)?;
            self.put(Form::ErrorSet { place, names })
        } else {
            let name = self.name_or_none(self.token_in(TokenKind::Identifier, more))?;
            self.put(Form::ErrorValue { place, name })
        }
    }

    /// A whole number.
    #[tactic(auto, unfolding(zir_form::specs::Lines::over_cores))]
    fn integer_atom(&mut self, token: u32) -> Result<u32, AllocError>
        ensures tree { IfOk result (Adds (trees self.old) (trees self.new) (core.integer (offset (file self.old) (site self.old) token) (int_value (written_at (file self.old) token)))) }
        ensures source { self.new.source ≡ self.old.source }
    {
        let place = self.offset(token);
        let value = int_value(self.written_at(token));
        self.put(Form::Integer { place, value })
    }

    /// A character.
    #[tactic(auto, unfolding(zir_form::specs::Lines::over_cores))]
    fn character_atom(&mut self, token: u32) -> Result<u32, AllocError>
        ensures tree { IfOk result (Adds (trees self.old) (trees self.new) (core.integer (offset (file self.old) (site self.old) token) (char_value (written_at (file self.old) token)))) }
        ensures source { self.new.source ≡ self.old.source }
    {
        let place = self.offset(token);
        let value = u128::from(char_value(self.written_at(token)));
        self.put(Form::Integer { place, value })
    }

    /// A string on one line.
    #[tactic(auto, unfolding(zir_form::specs::Lines::over_cores))]
    fn text_atom(&mut self, token: u32) -> Result<u32, AllocError>
        ensures tree { IfOk result (Adds (trees self.old) (trees self.new) (core.text (offset (file self.old) (site self.old) token) (string_value (written_at (file self.old) token)))) }
        ensures source { self.new.source ≡ self.old.source }
    {
        let place = self.offset(token);
        let bytes = string_value(self.alloc, self.written_at(token))?;
        self.put(Form::Text { place, bytes })
    }

    /// A string of several lines.
    #[tactic(auto, unfolding(zir_form::specs::Lines::over_cores))]
    fn lines_atom(&mut self, token: u32) -> Result<u32, AllocError>
        ensures tree { IfOk result (Adds (trees self.old) (trees self.new) (core.lines (offset (file self.old) (site self.old) token) (multiline_value (written_at (file self.old) token)))) }
        ensures source { self.new.source ≡ self.old.source }
    {
        let place = self.offset(token);
        let bytes = multiline_value(self.alloc, self.written_at(token))?;
        self.put(Form::Lines { place, bytes })
    }

    /// What stands in parentheses.
    #[tactic(auto, unfolding(zir_form::specs::Lines::over_cores))]
    fn grouped_atom(&mut self, place: u32, more: &[Piece]) -> Result<u32, AllocError>
        requires below { Below (length (trees self.old)) more.now }
        ensures tree { IfOk result (Adds (trees self.old) (trees self.new) (core.grouped place (first_tree (parts self.old more.now)))) }
        ensures source { self.new.source ≡ self.old.source }
    {
        let inner = self.first_line(more);
        self.put(Form::Grouped { place, inner })
    }

    /// An atom that a token begins.
    #[tactic(auto, unfolding(crate::specs::Names::word_atom, zir_form::specs::Lines::over_cores))]
    fn word_atom(&mut self, token: u32, kind: TokenKind, more: &[Piece]) -> Result<u32, AllocError>
        requires below { Below (length (trees self.old)) more.now }
        ensures tree { IfOk result (Adds (trees self.old) (trees self.new) (spec.word_atom (file self.old) (site self.old) token kind (parts self.old more.now))) }
        ensures source { self.new.source ≡ self.old.source }
    {
        if same_kind(kind, TokenKind::Identifier) {
            self.named(token)
        } else if same_kind(kind, TokenKind::Integer) {
            self.integer_atom(token)
        } else if same_kind(kind, TokenKind::Char) {
            self.character_atom(token)
        } else if same_kind(kind, TokenKind::Str) {
            self.text_atom(token)
        } else if same_kind(kind, TokenKind::MultilineStr) {
            self.lines_atom(token)
        } else if same_kind(kind, TokenKind::KeywordUnreachable) {
            let place = self.offset(token);
            self.put(Form::Unreachable { place })
        } else if same_kind(kind, TokenKind::Period) {
            let place = self.offset(token);
            self.dot_atom(place, more)
        } else if same_kind(kind, TokenKind::KeywordError) {
            let place = self.offset(token);
            self.error_atom(place, more)
        } else if same_kind(kind, TokenKind::Builtin) {
            self.builtin_call(token, more)
        } else if same_kind(kind, TokenKind::LeftParen) {
            let place = self.offset(token);
            self.grouped_atom(place, more)
        } else {
            Ok(MISSING)
        }
    }

    /// An atom; a container and a switch stand for themselves.
    #[tactic(auto, unfolding(crate::specs::Names::made_atom, crate::specs::Pieces::parts_of))]
    pub fn made_atom(&mut self, row: &[Piece]) -> Result<u32, AllocError>
        requires below { Below (length (trees self.old)) row.now }
        ensures tree { IfOk result (Adds (trees self.old) (trees self.new) (spec.made_atom (file self.old) (site self.old) (parts self.old row.now))) }
        ensures source { self.new.source ≡ self.old.source }
    {
        match row {
            [Piece::Token { token, kind }, more @ ..] => self.word_atom(*token, *kind, more),
            [
                Piece::Node {
                    rule: _,
                    node: _,
                    first: _,
                    line,
                },
                ..
            ] => Ok(*line),
            [] => Ok(MISSING),
        }
    }
}

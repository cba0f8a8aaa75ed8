// The values of a container in braces.
ghost use Rattle.std.specs.Prelude.{◌≡◌, length, map, IfOk};
ghost use Rattle.zir_form.specs.Core as core;
ghost use Rattle.zir_astgen.specs.Site.{bytes_of_name};
ghost use Rattle.zir_form.specs.Lines.{tree_at};
ghost use Rattle.zir_astgen.specs.Firsts.{Adds, AddsAll};
ghost use Rattle.zir_astgen.specs.Names as spec;
ghost use Rattle.zir_astgen.specs.Pieces.{Below};
ghost use Rattle.zir_astgen.specs.Writing.{file, parts, trees};

use crate::piece::Piece;
use crate::writer::Writer;
use std::alloc::AllocError;
use zig_tree::{TokenKind, same_kind};
use zir_form::Form;
use zw_base::Seq;

impl Writer<'_> {
    /// A value with the name of its field.
    #[tactic(auto, unfolding(zir_form::specs::Lines::over_cores))]
    fn value_named(&mut self, token: u32, value: u32) -> Result<u32, AllocError>
        ensures tree { IfOk result (Adds (trees self.old) (trees self.new) (core.named_value (bytes_of_name (file self.old) token) (tree_at (trees self.old) value))) }
        ensures source { self.new.source ≡ self.old.source }
    {
        let name = self.bytes_of_name(token)?;
        self.put(Form::NamedValue { name, value })
    }

    /// Values with their names, each behind the name's token.
    #[tactic(auto, unfolding(crate::specs::Names::values_named, crate::specs::Pieces::parts_of))]
    fn values_named(&mut self, row: &[Piece]) -> Result<Seq<u32>, AllocError>
        requires below { Below (length (trees self.old)) row.now }
        ensures all { IfOk result (AddsAll (trees self.old) (trees self.new) (spec.values_named (file self.old) 0 (parts self.old row.now))) }
        ensures source { self.new.source ≡ self.old.source }
    {
        let mut lines = Vec::new(self.alloc);
        let mut name = 0;
        let mut rest = row;
        while let [piece, more @ ..] = rest {
            match *piece {
                Piece::Token { token, kind } => {
                    if same_kind(kind, TokenKind::Identifier) {
                        name = token;
                    }
                }
                Piece::Node {
                    rule: _,
                    node: _,
                    first: _,
                    line,
                } => {
                    let value = self.value_named(name, line)?;
                    lines.push(value)?;
                }
            }
            rest = more;
        }
        Ok(Seq::of(lines))
    }

    /// Values without names.
    #[tactic(auto, unfolding(zir_form::specs::Lines::over_cores))]
    fn listed(&mut self, values: Seq<u32>) -> Result<u32, AllocError>
        ensures tree { IfOk result (Adds (trees self.old) (trees self.new) (spec.listed (map (tree_at (trees self.old)) values))) }
        ensures source { self.new.source ≡ self.old.source }
    {
        if values.is_empty() {
            self.put(Form::NoValues)
        } else {
            self.put(Form::ListedValues { values })
        }
    }

    /// The values of a container in braces.
    #[tactic(auto, unfolding(crate::specs::Names::made_values, zir_form::specs::Lines::over_cores))]
    pub fn made_values(&mut self, row: &[Piece]) -> Result<u32, AllocError>
        requires below { Below (length (trees self.old)) row.now }
        ensures tree { IfOk result (Adds (trees self.old) (trees self.new) (spec.made_values (file self.old) (parts self.old row.now))) }
        ensures source { self.new.source ≡ self.old.source }
    {
        if self.has_token(TokenKind::Period, row) {
            let values = self.values_named(row)?;
            self.put(Form::NamedValues { values })
        } else {
            let values = self.all_lines(row)?;
            self.listed(values)
        }
    }
}

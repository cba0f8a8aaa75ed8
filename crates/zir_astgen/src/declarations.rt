// Declarations, heads of functions, and what containers hold.
ghost use Rattle.std.specs.Prelude.{◌≡◌, ◌<◌, length, map, IfOk};
ghost use Rattle.zig_tree.specs.declared.token.TokenKind.TheVariants as kind;
ghost use Rattle.zig_tree.specs.declared.grammar.Rule.TheVariants as rule;
ghost use Rattle.zir_form.specs.Core as core;
ghost use Rattle.zir_form.specs.Lines.{tree_at};
ghost use Rattle.zir_astgen.specs.Firsts.{Adds};
ghost use Rattle.zir_astgen.specs.Parts.{first_of, first_tree, token_in, tree_of_rule};
ghost use Rattle.zir_astgen.specs.Pieces.{Below};
ghost use Rattle.zir_astgen.specs.Site.{offset};
ghost use Rattle.zir_astgen.specs.Statements as spec;
ghost use Rattle.zir_astgen.specs.Writing.{file, parts, site, trees};

use crate::piece::Piece;
use crate::rows::holds_rule;
use crate::source::Linkage;
use crate::writer::Writer;
use std::alloc::AllocError;
use zig_tree::{Rule, TokenKind};
use zir_form::Form;
use zw_base::{Bytes, Seq};

impl Writer<'_> {
    /// The token of the name that a row declares.
    fn name_token(&self, row: &[Piece]) -> u32
        ensures { result ≡ spec.name_token (parts self.now row.now) }
    {
        match self.token_in(TokenKind::Identifier, row) {
            Some(token) => token,
            None => 0,
        }
    }

    /// A constant or a variable, which in the part is one of its locals.
    #[tactic(auto, using(crate::proofs::AddLemmas::add_steps), unfolding(crate::specs::Statements::made_variable, zir_form::specs::Lines::over_cores))]
    pub fn made_variable(&mut self, row: &[Piece]) -> Result<u32, AllocError>
        requires below { Below (length (trees self.old)) row.now }
        ensures tree { IfOk result (Adds (trees self.old) (trees self.new) (spec.made_variable (file self.old) (site self.old) (parts self.old row.now))) }
        ensures source { self.new.source ≡ self.old.source }
    {
        let token = self.name_token(row);
        let name_place = self.offset(token);
        let local = self.local_number(token)?;
        let ty = self.line_behind(TokenKind::Colon, row);
        let value = self.line_behind(TokenKind::Equal, row);
        if self.leads_with(TokenKind::KeywordVar, row) {
            self.put(Form::Variable {
                name_place,
                local,
                ty,
                value,
            })
        } else {
            self.put(Form::Constant {
                name_place,
                local,
                ty,
                value,
            })
        }
    }

    /// The local that a parameter is; `_` is none.
    fn local_by(&self, token: Option<u32>) -> Result<Option<u32>, AllocError>
        ensures { IfOk result (λ local. local ≡ spec.local_by (site self.now) token) }
    {
        match token {
            Some(token) => self.local_number(token),
            None => Ok(None),
        }
    }

    /// The type of a parameter, or `anytype`.
    #[tactic(auto, using(crate::proofs::AddLemmas::add_steps), unfolding(zir_form::specs::Lines::over_cores))]
    fn type_line(&mut self, row: &[Piece]) -> Result<u32, AllocError>
        requires below { Below (length (trees self.old)) row.now }
        ensures tree { IfOk result (Adds (trees self.old) (trees self.new) (spec.type_by (file self.old) (site self.old) (token_in kind.KeywordAnytype (parts self.old row.now)) (first_tree (parts self.old row.now)))) }
        ensures source { self.new.source ≡ self.old.source }
    {
        match self.token_in(TokenKind::KeywordAnytype, row) {
            Some(token) => {
                let place = self.offset(token);
                self.put(Form::Anytype { place })
            }
            None => Ok(self.first_line(row)),
        }
    }

    /// A parameter.
    #[tactic(auto, using(crate::proofs::AddLemmas::add_steps), unfolding(crate::specs::Statements::made_parameter, zir_form::specs::Lines::over_cores))]
    pub fn made_parameter(&mut self, row: &[Piece]) -> Result<u32, AllocError>
        requires below { Below (length (trees self.old)) row.now }
        ensures tree { IfOk result (Adds (trees self.old) (trees self.new) (spec.made_parameter (file self.old) (site self.old) (parts self.old row.now))) }
        ensures source { self.new.source ≡ self.old.source }
    {
        let ty = self.type_line(row)?;
        let token = self.token_in(TokenKind::Identifier, row);
        let local = self.local_by(token)?;
        let is_comptime = self.has_token(TokenKind::KeywordComptime, row);
        self.put(Form::Parameter {
            local,
            is_comptime,
            ty,
        })
    }

    /// How the function of the part is linked.
    #[tactic(auto, using(crate::proofs::AddLemmas::add_steps), unfolding(zir_form::specs::Lines::over_cores))]
    fn linkage_line(&mut self) -> Result<u32, AllocError>
        ensures tree { IfOk result (Adds (trees self.old) (trees self.new) (site self.old).linkage) }
        ensures source { self.new.source ≡ self.old.source }
    {
        match self.source.part.linkage {
            Linkage::Within => Ok(self.absent()),
            Linkage::Exported => self.put(Form::Exported),
            Linkage::External(library) => {
                let library = Bytes::of(Vec::from_slice(self.alloc, library)?);
                self.put(Form::External { library })
            }
        }
    }

    /// `!` before the result of a function.
    #[tactic(auto, using(crate::proofs::AddLemmas::add_steps), unfolding(zir_form::specs::Lines::over_cores))]
    fn inferred_line(&mut self, row: &[Piece]) -> Result<u32, AllocError>
        ensures tree { IfOk result (Adds (trees self.old) (trees self.new) (spec.inferred_by (file self.old) (site self.old) (token_in kind.Bang (parts self.old row.now)))) }
        ensures source { self.new.source ≡ self.old.source }
    {
        match self.token_in(TokenKind::Bang, row) {
            Some(token) => {
                let place = self.offset(token);
                self.put(Form::Inferred { place })
            }
            None => Ok(self.absent()),
        }
    }

    /// The head of a function.
    #[tactic(auto, using(crate::proofs::AddLemmas::add_steps), unfolding(crate::specs::Statements::made_prototype, zir_form::specs::Lines::over_cores))]
    pub fn made_prototype(&mut self, row: &[Piece]) -> Result<u32, AllocError>
        requires below { Below (length (trees self.old)) row.now }
        ensures tree { IfOk result (Adds (trees self.old) (trees self.new) (spec.made_prototype (file self.old) (site self.old) (parts self.old row.now))) }
        ensures source { self.new.source ≡ self.old.source }
    {
        let inferred = self.inferred_line(row)?;
        let linkage = self.linkage_line()?;
        let parameters = self.lines_of_rule(Rule::Parameter, row)?;
        let name_place = self.offset(self.name_token(row));
        let returned = self.last_line(row);
        self.put(Form::Head {
            name_place,
            linkage,
            parameters,
            inferred,
            result: returned,
        })
    }

    /// A function by the lines of its head and its body.
    #[tactic(auto, using(crate::proofs::AddLemmas::add_steps), unfolding(zir_form::specs::Lines::over_cores))]
    pub fn made_function(&mut self, head: u32, body: u32) -> Result<u32, AllocError>
        ensures tree { IfOk result (Adds (trees self.old) (trees self.new) (core.function (tree_at (trees self.old) head) (tree_at (trees self.old) body))) }
        ensures source { self.new.source ≡ self.old.source }
    {
        self.put(Form::Function { head, body })
    }

    /// A field of a struct, or a member of an enum or a union.
    #[tactic(auto, using(crate::proofs::AddLemmas::add_steps), unfolding(crate::specs::Statements::made_field, zir_form::specs::Lines::over_cores))]
    pub fn made_field(&mut self, row: &[Piece]) -> Result<u32, AllocError>
        requires below { Below (length (trees self.old)) row.now }
        ensures tree { IfOk result (Adds (trees self.old) (trees self.new) (spec.made_field (file self.old) (site self.old) (parts self.old row.now))) }
        ensures source { self.new.source ≡ self.old.source }
    {
        let name_place = self.offset(self.name_token(row));
        let name = self.name_or_none(self.token_in(TokenKind::Identifier, row))?;
        let ty = self.line_behind(TokenKind::Colon, row);
        let value = self.line_behind(TokenKind::Equal, row);
        self.put(Form::Field {
            name_place,
            name,
            ty,
            value,
        })
    }

    /// The lines of the fields among the members of a container.
    #[tactic(auto, using(crate::proofs::AddLemmas::trees_push), unfolding(crate::specs::Statements::fields_in, crate::specs::Pieces::parts_of))]
    fn field_lines(&self, row: &[Piece]) -> Result<Seq<u32>, AllocError>
        ensures { IfOk result (λ lines. map (tree_at (trees self.now)) lines ≡ spec.fields_in (parts self.now row.now)) }
    {
        let mut lines = Vec::new(self.alloc);
        let mut rest = row;
        while let [piece, more @ ..] = rest {
            if let Piece::Node {
                rule: _,
                node,
                first: _,
                line,
            } = *piece
            {
                if holds_rule(self.source.outline, Rule::Field, node) {
                    lines.push(line)?;
                }
            }
            rest = more;
        }
        Ok(Seq::of(lines))
    }

    /// The fields of a container.
    #[tactic(auto, using(crate::proofs::AddLemmas::add_steps), unfolding(crate::specs::Statements::made_members, zir_form::specs::Lines::over_cores))]
    pub fn made_members(&mut self, row: &[Piece]) -> Result<u32, AllocError>
        ensures tree { IfOk result (Adds (trees self.old) (trees self.new) (spec.made_members (parts self.old row.now))) }
        ensures source { self.new.source ≡ self.old.source }
    {
        let fields = self.field_lines(row)?;
        self.put(Form::Fields { fields })
    }

    /// The tag of a union: an enum of its own, or a named one.
    #[tactic(auto, using(crate::proofs::AddLemmas::add_steps), unfolding(zir_form::specs::Lines::over_cores))]
    fn union_tag(&mut self, row: &[Piece]) -> Result<u32, AllocError>
        requires below { Below (length (trees self.old)) row.now }
        ensures tree { IfOk result (Adds (trees self.old) (trees self.new) (spec.union_tag (parts self.old row.now))) }
        ensures source { self.new.source ≡ self.old.source }
    {
        if self.has_token(TokenKind::KeywordEnum, row) {
            self.put(Form::OwnTag)
        } else {
            Ok(self.line_behind(TokenKind::LeftParen, row))
        }
    }

    /// A union.
    #[tactic(auto, using(crate::proofs::AddLemmas::add_steps), unfolding(zir_form::specs::Lines::over_cores))]
    fn made_union(&mut self, row: &[Piece]) -> Result<u32, AllocError>
        requires below { Below (length (trees self.old)) row.now }
        ensures tree { IfOk result (Adds (trees self.old) (trees self.new) (core.union (offset (file self.old) (site self.old) (first_of (parts self.old row.now))) (spec.union_tag (parts self.old row.now)) (tree_of_rule rule.ContainerBody (parts self.old row.now)))) }
        ensures source { self.new.source ≡ self.old.source }
    {
        let tag = self.union_tag(row)?;
        let place = self.offset(self.first_of(row));
        let fields = self.line_of_rule(Rule::ContainerBody, row);
        self.put(Form::Union { place, tag, fields })
    }

    /// The fields of a container as a part.
    #[tactic(auto, using(crate::proofs::AddLemmas::add_steps), unfolding(crate::specs::Statements::made_container, zir_form::specs::Lines::over_cores))]
    pub fn made_container(&mut self, row: &[Piece]) -> Result<u32, AllocError>
        requires below { Below (length (trees self.old)) row.now }
        ensures tree { IfOk result (Adds (trees self.old) (trees self.new) (spec.made_container (file self.old) (site self.old) (parts self.old row.now))) }
        ensures source { self.new.source ≡ self.old.source }
    {
        let place = self.offset(self.first_of(row));
        let fields = self.line_of_rule(Rule::ContainerBody, row);
        if self.leads_with(TokenKind::KeywordStruct, row) {
            self.put(Form::Struct { place, fields })
        } else if self.leads_with(TokenKind::KeywordEnum, row) {
            let tag = self.line_behind(TokenKind::LeftParen, row);
            self.put(Form::Enum { place, tag, fields })
        } else {
            self.made_union(row)
        }
    }
}

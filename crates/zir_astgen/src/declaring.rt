// The declarations of a file, as rows that name lines.
ghost use Rattle.std.specs.Prelude.{◌≡◌, ◌<◌, ℕ, List, [], ◌∷◌, length, codes, true, IfOk, None, Some};
ghost use Rattle.std.specs.Option.{option_map};
ghost use Rattle.zig_tree.specs.Nodes.{are_earlier};
ghost use Rattle.zir_form.specs.Core.{Core};
ghost use Rattle.zir_form.specs.Core as core;
ghost use Rattle.zir_form.specs.Lines.{tree_at, trees_of};
ghost use Rattle.zir_form.specs.Tables.{declaration_of};
ghost use Rattle.zir_scope.specs.Syntax.{row_in};
ghost use Rattle.zir_astgen.specs.Entering.{Within, filed, linked_core, part_site};
ghost use Rattle.zir_astgen.specs.Files as spec;
ghost use Rattle.zir_astgen.specs.Filing.{file_known, where_of};
ghost use Rattle.zir_astgen.specs.Outline.{own_locals};
ghost use Rattle.zir_astgen.specs.Parts as parts;
ghost use Rattle.zir_astgen.specs.Rows.{IsBelow, RowsBelow, filed_by, filed_more};
ghost use Rattle.zir_astgen.specs.Site.{captures_from};
ghost use Rattle.zir_astgen.specs.Writing.{linkage_of};

use crate::content::{Held, content, held_of_rule, word_in};
use crate::file::{FileSource, Location};
use crate::linked::Linked;
use crate::outline::{lead_of, own_locals};
use crate::part_tree::function_in;
use crate::places::Places;
use crate::rows::begins_with;
use crate::sheet::{Rows, Sheet, Tables, Written};
use crate::source::{Linkage, Part};
use crate::start::Start;
use crate::values::string_value;
use crate::words::has_word;
use crate::writer::ABSENT;
use std::alloc::AllocError;
use zig_tree::{Kid, Rule, TokenKind};
use zir_form::DeclarationRow;
use zw_base::{Bytes, Seq};

impl FileSource<'_> {
    /// The module that a function is imported from, by its string: `env` where it has none.
    fn library(&self, string: Option<u32>) -> Result<Bytes, AllocError>
        ensures { IfOk result (λ b. b ≡ spec.library_by (file_known self.now) string) }
    {
        match string {
            Some(token) => string_value(self.alloc, self.written_at(token)),
            None => Ok(Bytes::of(Vec::from_slice(self.alloc, b"env")?)),
        }
    }

    /// How what a declaration declares is linked.
    #[tactic(auto, unfolding(crate::specs::Files::linkage_of))]
    pub fn linked(&self, row: &[Kid]) -> Result<Linked, AllocError>
        ensures { IfOk result (λ l. linked_core l ≡ spec.linkage_of (file_known self.now) (row_in self.now.outline.now row.now)) }
    {
        if has_word(self.outline, TokenKind::KeywordExport, row) {
            return Ok(Linked::Exported);
        }
        if has_word(self.outline, TokenKind::KeywordExtern, row) {
            let library = self.library(word_in(self.outline, TokenKind::Str, row))?;
            return Ok(Linked::External(library));
        }
        Ok(Linked::Within)
    }

    /// The locals of a part, by what it holds.
    pub fn locals_in(&self, content: &Held<'_>) -> Result<Places, AllocError>
        ensures { IfOk result (λ p. p ≡ own_locals (row_in self.now.outline.now content.now.row.now)) }
    {
        let mut found = Vec::new(self.alloc);
        own_locals(self.outline, content.row, content.before, &mut found)?;
        Places::of(self.alloc, found)
    }

    /// A part that this row begins.
    pub fn part_at<'b>(
        &self,
        containers: &'b Places,
        captured: &'b Places,
        around: &'b Places,
        locals: &'b Places,
        linkage: Linkage<'b>,
        content: &Held<'_>,
    ) -> Part<'b>
        ensures { part_site result ≡ record { origin = spec.start_of (file_known self.now) (parts.lead_of (row_in self.now.outline.now content.now.row.now)); locals = locals.now; containers = containers.now; captured = captured.now; around = around.now; linkage = linkage_of linkage.entry } }
    {
        let lead = lead_of(self.outline, content.row, content.before);
        Part {
            origin: self.start_of(lead),
            locals,
            containers,
            captured,
            around,
            linkage,
        }
    }

    /// A declaration as a row, by the lines of its trees.
    fn declaration_row(
        &self,
        at: &Location<'_>,
        row: &[Kid],
        content: &Held<'_>,
        head: Option<u32>,
        whole: u32,
    ) -> Result<DeclarationRow, AllocError>
        ensures head { IfOk result (λ r. r.head ≡ head) }
        ensures whole { IfOk result (λ r. r.whole ≡ whole) }
        ensures stands { IfOk result (λ r. (t : List Core) → declaration_of t r ≡ spec.declaration (file_known self.now) (where_of at.now) (row_in self.now.outline.now row.now) (row_in self.now.outline.now content.now.row.now) (option_map (tree_at t) head) (tree_at t whole)) }
    {
        let lead = lead_of(self.outline, content.row, content.before);
        let name = self.name_at(at.owner)?;
        let containers = Vec::from_slice(self.alloc, at.containers.as_slice())?;
        Ok(DeclarationRow {
            container: at.container,
            token: at.owner,
            name,
            is_pub: begins_with(self.outline, TokenKind::KeywordPub, row),
            is_export: has_word(self.outline, TokenKind::KeywordExport, row),
            start: self.start_of(lead),
            name_start: self.start_of(at.owner),
            containers: Seq::of(containers),
            head,
            whole,
            fingerprint: self.fingerprint(content.row, content.before),
        })
    }

    /// A constant or a variable.
    #[tactic(auto, using(crate::proofs::RowLemmas::row_steps, crate::proofs::AddLemmas::add_steps))]
    pub fn declare_variable(
        &self,
        tables: Tables,
        at: &Location<'_>,
        row: &[Kid],
        content: &Held<'_>,
    ) -> Result<Tables, AllocError>
        requires captured { at.now.captured.now ≡ captures_from at.now.container self.now.captures.now }
        requires within { Within tables }
        ensures within { IfOk result (λ t. Within t) }
        ensures filed { IfOk result (λ t. filed t ≡ filed_more (filed tables) (spec.variable_declaration (file_known self.now) (where_of at.now) (row_in self.now.outline.now row.now) (row_in self.now.outline.now content.now.row.now) ∷ []) [] []) }
    {
        let linked = Linked::Within;
        let locals = self.locals_in(content)?;
        let part = self.part_at(
            at.containers,
            at.captured,
            at.around,
            &locals,
            linked.linkage(),
            content,
        );
        let Tables { sheet, rows } = tables;
        let Written { sheet, line } = self.tree_in(
            sheet,
            &part,
            Start::Plain,
            Rule::Variable,
            content.row,
            content.before,
        )?;
        let row = self.declaration_row(at, row, content, None, line)?;
        enter_declaration(sheet, rows, row)
    }

    /// A function: its head, and its body where it has one.
    #[tactic(auto, using(crate::proofs::RowLemmas::row_steps, crate::proofs::AddLemmas::add_steps))]
    fn declare_function(
        &self,
        tables: Tables,
        at: &Location<'_>,
        row: &[Kid],
        content: &Held<'_>,
    ) -> Result<Tables, AllocError>
        requires captured { at.now.captured.now ≡ captures_from at.now.container self.now.captures.now }
        requires within { Within tables }
        ensures within { IfOk result (λ t. Within t) }
        ensures filed { IfOk result (λ t. filed t ≡ filed_more (filed tables) (spec.function_declaration (file_known self.now) (where_of at.now) (spec.site_of (file_known self.now) (where_of at.now) (spec.linkage_of (file_known self.now) (row_in self.now.outline.now row.now)) (parts.lead_of (row_in self.now.outline.now content.now.row.now)) (own_locals (row_in self.now.outline.now content.now.row.now))) (row_in self.now.outline.now row.now) (row_in self.now.outline.now content.now.row.now) ∷ []) [] []) }
    {
        let linked = self.linked(row)?;
        let locals = self.locals_in(content)?;
        let part = self.part_at(
            at.containers,
            at.captured,
            at.around,
            &locals,
            linked.linkage(),
            content,
        );
        let Tables { sheet, rows } = tables;
        let prototype = held_of_rule(self.outline, Rule::Prototype, content.row);
        let Written { sheet, line: head } = self.tree_in(
            sheet,
            &part,
            Start::Plain,
            Rule::Prototype,
            prototype.row,
            prototype.before,
        )?;
        let block = held_of_rule(self.outline, Rule::Block, content.row);
        let Written { sheet, line: body } = self.tree_in(
            sheet,
            &part,
            Start::Function,
            Rule::Block,
            block.row,
            block.before,
        )?;
        let Written { sheet, line } = function_in(sheet, head, body)?;
        let row = self.declaration_row(at, row, content, Some(head), line)?;
        enter_declaration(sheet, rows, row)
    }

    /// A function that is imported.
    #[tactic(auto, using(crate::proofs::RowLemmas::row_steps, crate::proofs::AddLemmas::add_steps))]
    fn declare_imported(
        &self,
        tables: Tables,
        at: &Location<'_>,
        row: &[Kid],
        content: &Held<'_>,
    ) -> Result<Tables, AllocError>
        requires captured { at.now.captured.now ≡ captures_from at.now.container self.now.captures.now }
        requires within { Within tables }
        ensures within { IfOk result (λ t. Within t) }
        ensures filed { IfOk result (λ t. filed t ≡ filed_more (filed tables) (spec.imported_declaration (file_known self.now) (where_of at.now) (spec.site_of (file_known self.now) (where_of at.now) (spec.linkage_of (file_known self.now) (row_in self.now.outline.now row.now)) (parts.lead_of (row_in self.now.outline.now content.now.row.now)) (own_locals (row_in self.now.outline.now content.now.row.now))) (row_in self.now.outline.now row.now) (row_in self.now.outline.now content.now.row.now) ∷ []) [] []) }
    {
        let linked = self.linked(row)?;
        let locals = self.locals_in(content)?;
        let part = self.part_at(
            at.containers,
            at.captured,
            at.around,
            &locals,
            linked.linkage(),
            content,
        );
        let Tables { sheet, rows } = tables;
        let Written { sheet, line: head } = self.tree_in(
            sheet,
            &part,
            Start::Plain,
            Rule::Prototype,
            content.row,
            content.before,
        )?;
        let Written { sheet, line } = function_in(sheet, head, ABSENT)?;
        let row = self.declaration_row(at, row, content, Some(head), line)?;
        enter_declaration(sheet, rows, row)
    }

    /// What a declaration declares.
    #[tactic(auto, using(crate::proofs::RowLemmas::filed_none, crate::proofs::DeclareLemmas::declared_none), unfolding(crate::specs::Files::declared_by, zig_tree::specs::Kinds::number_of_rule))]
    pub fn declare(
        &self,
        tables: Tables,
        at: &Location<'_>,
        row: &[Kid],
        content: &Held<'_>,
    ) -> Result<Tables, AllocError>
        requires captured { at.now.captured.now ≡ captures_from at.now.container self.now.captures.now }
        requires within { Within tables }
        ensures within { IfOk result (λ t. Within t) }
        ensures filed { IfOk result (λ t. filed t ≡ filed_more (filed tables) (spec.declared_by (file_known self.now) (where_of at.now) (row_in self.now.outline.now row.now) (row_in self.now.outline.now content.now.row.now) content.now.rule) [] []) }
    {
        match content.rule {
            Rule::Variable => self.declare_variable(tables, at, row, content),
            Rule::Function => self.declare_function(tables, at, row, content),
            Rule::Prototype => self.declare_imported(tables, at, row, content),
            _ => Ok(tables),
        }
    }
}

/// A declaration is put behind those so far, whose lines are there.
#[tactic(auto, using(crate::proofs::RowLemmas::enter_steps))]
pub fn enter_declaration(
    sheet: Sheet,
    rows: Rows,
    row: DeclarationRow,
) -> Result<Tables, AllocError>
    requires rows { RowsBelow (length (trees_of sheet.lines)) rows.declarations.items rows.containers.items rows.blocks.items }
    requires head { IsBelow (length (trees_of sheet.lines)) row.head }
    requires whole { row.whole < length (trees_of sheet.lines) }
    ensures within { IfOk result (λ t. Within t) }
    ensures filed { IfOk result (λ t. filed t ≡ filed_more (filed_by (trees_of sheet.lines) rows.declarations.items rows.containers.items rows.blocks.items) (declaration_of (trees_of sheet.lines) row ∷ []) [] []) }
{
    let Rows {
        mut declarations,
        containers,
        blocks,
    } = rows;
    declarations.push(row)?;
    Ok(Tables {
        sheet,
        rows: Rows {
            declarations,
            containers,
            blocks,
        },
    })
}

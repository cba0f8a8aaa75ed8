// The parts of a file, in the order of the text.
ghost use Rattle.std.specs.Prelude.{◌≡◌, ◌<◌, ℕ, List, [], ◌∷◌, length, true, IfOk};
ghost use Rattle.zig_tree.specs.Nodes.{are_earlier};
ghost use Rattle.zig_tree.specs.declared.grammar.Rule.TheVariants as rule;
ghost use Rattle.zir_form.specs.Core.{Core};
ghost use Rattle.zir_form.specs.Lines.{tree_at, trees_of};
ghost use Rattle.zir_form.specs.Tables.{block_of, container_of};
ghost use Rattle.zir_scope.specs.Syntax.{inside_of, row_in, rule_at};
ghost use Rattle.zir_astgen.specs.Entering.{Within, filed, node_entries};
ghost use Rattle.zir_astgen.specs.Files as spec;
ghost use Rattle.zir_astgen.specs.Filing.{file_known, where_of};
ghost use Rattle.zir_astgen.specs.Outline.{entries};
ghost use Rattle.zir_astgen.specs.Rows.{RowsBelow, filed_by, filed_more};
ghost use Rattle.zir_astgen.specs.Site.{captures_from};

use crate::content::{Held, content};
use crate::file::{FileSource, Location};
use crate::linked::Linked;
use crate::outline::{brace_of, declared_token, lead_of, own_containers};
use crate::places::Places;
use crate::rows::{begins_with, rule_at};
use crate::sheet::{Rows, Sheet, Tables, Written};
use crate::start::Start;
use std::alloc::AllocError;
use zig_tree::{Kid, Rule, TokenKind, same_rule};
use zir_form::{BlockRow, ContainerRow};
use zw_base::Seq;

/// A container is put behind those so far, whose lines are there.
#[tactic(auto, using(crate::proofs::RowLemmas::enter_steps))]
fn enter_container(sheet: Sheet, rows: Rows, row: ContainerRow) -> Result<Tables, AllocError>
    requires rows { RowsBelow (length (trees_of sheet.lines)) rows.declarations.items rows.containers.items rows.blocks.items }
    requires fields { row.fields < length (trees_of sheet.lines) }
    ensures within { IfOk result (λ t. Within t) }
    ensures filed { IfOk result (λ t. filed t ≡ filed_more (filed_by (trees_of sheet.lines) rows.declarations.items rows.containers.items rows.blocks.items) [] (container_of (trees_of sheet.lines) row ∷ []) []) }
{
    let Rows {
        declarations,
        mut containers,
        blocks,
    } = rows;
    containers.push(row)?;
    Ok(Tables {
        sheet,
        rows: Rows {
            declarations,
            containers,
            blocks,
        },
    })
}

/// A block is put behind those so far, whose lines are there.
#[tactic(auto, using(crate::proofs::RowLemmas::enter_steps))]
fn enter_block(sheet: Sheet, rows: Rows, row: BlockRow) -> Result<Tables, AllocError>
    requires rows { RowsBelow (length (trees_of sheet.lines)) rows.declarations.items rows.containers.items rows.blocks.items }
    requires line { row.line < length (trees_of sheet.lines) }
    ensures within { IfOk result (λ t. Within t) }
    ensures filed { IfOk result (λ t. filed t ≡ filed_more (filed_by (trees_of sheet.lines) rows.declarations.items rows.containers.items rows.blocks.items) [] [] (block_of (trees_of sheet.lines) row ∷ [])) }
{
    let Rows {
        declarations,
        containers,
        mut blocks,
    } = rows;
    blocks.push(row)?;
    Ok(Tables {
        sheet,
        rows: Rows {
            declarations,
            containers,
            blocks,
        },
    })
}

impl FileSource<'_> {
    /// A container, with its fields.
    #[tactic(auto, using(crate::proofs::RowLemmas::row_steps, crate::proofs::AddLemmas::add_steps))]
    pub fn contain(
        &self,
        tables: Tables,
        at: &Location<'_>,
        held: &Held<'_>,
    ) -> Result<Tables, AllocError>
        requires captured { at.now.captured.now ≡ captures_from at.now.container self.now.captures.now }
        requires within { Within tables }
        ensures within { IfOk result (λ t. Within t) }
        ensures filed { IfOk result (λ t. filed t ≡ filed_more (filed tables) [] (spec.container (file_known self.now) (where_of at.now) (row_in self.now.outline.now held.now.row.now) ∷ []) []) }
    {
        let linked = Linked::Within;
        let locals = self.locals_in(held)?;
        let part = self.part_at(
            at.containers,
            at.captured,
            at.around,
            &locals,
            linked.linkage(),
            held,
        );
        let Tables { sheet, rows } = tables;
        let Written { sheet, line } = self.tree_in(
            sheet,
            &part,
            Start::Plain,
            Rule::Container,
            held.row,
            held.before,
        )?;
        let token = lead_of(self.outline, held.row, held.before);
        let row = ContainerRow {
            token,
            start: self.start_of(token),
            fields: line,
            fingerprint: self.fingerprint(held.row, held.before),
        };
        enter_container(sheet, rows, row)
    }

    /// A block that is evaluated at comptime.
    #[tactic(auto, using(crate::proofs::RowLemmas::row_steps, crate::proofs::AddLemmas::add_steps))]
    pub fn put_block(
        &self,
        tables: Tables,
        at: &Location<'_>,
        row: &[Kid],
        content: &Held<'_>,
    ) -> Result<Tables, AllocError>
        requires captured { at.now.captured.now ≡ captures_from at.now.container self.now.captures.now }
        requires within { Within tables }
        ensures within { IfOk result (λ t. Within t) }
        ensures filed { IfOk result (λ t. filed t ≡ filed_more (filed tables) [] [] (spec.block (file_known self.now) (where_of at.now) (row_in self.now.outline.now row.now) (row_in self.now.outline.now content.now.row.now) ∷ [])) }
    {
        let linked = Linked::Within;
        let locals = self.locals_in(content)?;
        let part = self.part_at(
            at.containers,
            at.captured,
            at.around,
            &locals,
            linked.linkage(),
            content,
        );
        let Tables { sheet, rows } = tables;
        let Written { sheet, line } = self.tree_in(
            sheet,
            &part,
            Start::Plain,
            Rule::Block,
            content.row,
            content.before,
        )?;
        let lead = lead_of(self.outline, content.row, content.before);
        let containers = Vec::from_slice(self.alloc, at.containers.as_slice())?;
        let row = BlockRow {
            token: at.owner,
            start: self.start_of(lead),
            word_start: self.start_of(at.owner),
            containers: Seq::of(containers),
            line,
            fingerprint: self.fingerprint(content.row, content.before),
        };
        enter_block(sheet, rows, row)
    }

    /// The block that a declaration is, where it is one of the file's.
    #[tactic(auto, using(crate::proofs::RowLemmas::filed_none), unfolding(crate::specs::Files::block_by))]
    pub fn put_block_by(
        &self,
        tables: Tables,
        at: &Location<'_>,
        row: &[Kid],
        content: &Held<'_>,
    ) -> Result<Tables, AllocError>
        requires captured { at.now.captured.now ≡ captures_from at.now.container self.now.captures.now }
        requires within { Within tables }
        requires content { row_in self.now.outline.now content.now.row.now ≡ spec.content_of (row_in self.now.outline.now row.now) }
        ensures within { IfOk result (λ t. Within t) }
        ensures filed { IfOk result (λ t. filed t ≡ filed_more (filed tables) [] [] (spec.block_by (file_known self.now) (where_of at.now) (row_in self.now.outline.now row.now))) }
    {
        if begins_with(self.outline, TokenKind::KeywordComptime, row) && at.container == 0 {
            self.put_block(tables, at, row, content)
        } else {
            Ok(tables)
        }
    }

    /// The parts of a declaration: its own, and those within it.
    #[cycle(parts)]
    fn declaration_parts(
        &self,
        tables: Tables,
        at: &Location<'_>,
        node: u32,
    ) -> Result<Tables, AllocError>
        requires captured { at.now.captured.now ≡ captures_from at.now.container self.now.captures.now }
        requires within { Within tables }
        ensures within { IfOk result (λ t. Within t) }
        ensures filed { IfOk result (λ t. filed t ≡ filed_more (filed tables) (spec.declarations_of (file_known self.now) (node_entries (where_of at.now) rule.Declaration (inside_of self.now.outline.now node))) (spec.containers_of (file_known self.now) (node_entries (where_of at.now) rule.Declaration (inside_of self.now.outline.now node))) (spec.blocks_of (file_known self.now) (node_entries (where_of at.now) rule.Declaration (inside_of self.now.outline.now node)))) }
    {
        let row = self.outline.kids(node);
        let mut found = Vec::new(self.alloc);
        own_containers(self.outline, row, node, &mut found)?;
        let containers = Places::of(self.alloc, found)?;
        let inner = Location {
            container: at.container,
            around: at.around,
            captured: at.captured,
            owner: declared_token(self.outline, row, node),
            containers: &containers,
        };
        let content = content(self.outline, row);
        let tables = self.declare(tables, &inner, row, &content)?;
        let tables = self.put_block_by(tables, &inner, row, &content)?;
        self.row_parts(tables, &inner, row, node)
    }

    /// The parts of a container: its fields, and those within it.
    #[cycle(parts)]
    fn container_parts(
        &self,
        tables: Tables,
        at: &Location<'_>,
        node: u32,
    ) -> Result<Tables, AllocError>
        requires captured { at.now.captured.now ≡ captures_from at.now.container self.now.captures.now }
        requires within { Within tables }
        ensures within { IfOk result (λ t. Within t) }
        ensures filed { IfOk result (λ t. filed t ≡ filed_more (filed tables) (spec.declarations_of (file_known self.now) (node_entries (where_of at.now) rule.Container (inside_of self.now.outline.now node))) (spec.containers_of (file_known self.now) (node_entries (where_of at.now) rule.Container (inside_of self.now.outline.now node))) (spec.blocks_of (file_known self.now) (node_entries (where_of at.now) rule.Container (inside_of self.now.outline.now node)))) }
    {
        let row = self.outline.kids(node);
        let container = lead_of(self.outline, row, node);
        let mut braces = Vec::from_slice(self.alloc, at.around.as_slice())?;
        braces.push(brace_of(self.outline, row))?;
        let around = Places::of(self.alloc, braces)?;
        let locals = Vec::from_slice(self.alloc, self.captures.locals(container))?;
        let captured = Places::of(self.alloc, locals)?;
        let inner = Location {
            container,
            around: &around,
            captured: &captured,
            owner: at.owner,
            containers: at.containers,
        };
        let held = crate::content::node_in(self.outline, node);
        let tables = self.contain(tables, &inner, &held)?;
        self.row_parts(tables, &inner, row, node)
    }

    /// The parts of a node.
    #[cycle(parts)]
    fn node_parts(&self, tables: Tables, at: &Location<'_>, node: u32) -> Result<Tables, AllocError>
        requires captured { at.now.captured.now ≡ captures_from at.now.container self.now.captures.now }
        requires within { Within tables }
        ensures within { IfOk result (λ t. Within t) }
        ensures filed { IfOk result (λ t. filed t ≡ filed_more (filed tables) (spec.declarations_of (file_known self.now) (node_entries (where_of at.now) (rule_at self.now.outline.now.nodes.now node) (inside_of self.now.outline.now node))) (spec.containers_of (file_known self.now) (node_entries (where_of at.now) (rule_at self.now.outline.now.nodes.now node) (inside_of self.now.outline.now node))) (spec.blocks_of (file_known self.now) (node_entries (where_of at.now) (rule_at self.now.outline.now.nodes.now node) (inside_of self.now.outline.now node)))) }
    {
        let rule = rule_at(self.outline, node);
        if same_rule(rule, Rule::Declaration) {
            self.declaration_parts(tables, at, node)
        } else if same_rule(rule, Rule::Container) {
            self.container_parts(tables, at, node)
        } else {
            self.row_parts(tables, at, self.outline.kids(node), node)
        }
    }

    /// The parts of a row.
    #[cycle(parts)]
    pub fn row_parts(
        &self,
        tables: Tables,
        at: &Location<'_>,
        row: &[Kid],
        before: u32,
    ) -> Result<Tables, AllocError>
        requires captured { at.now.captured.now ≡ captures_from at.now.container self.now.captures.now }
        requires within { Within tables }
        requires earlier { are_earlier before row.now ≡ true }
        ensures within { IfOk result (λ t. Within t) }
        ensures filed { IfOk result (λ t. filed t ≡ filed_more (filed tables) (spec.declarations_of (file_known self.now) (entries (where_of at.now) (row_in self.now.outline.now row.now))) (spec.containers_of (file_known self.now) (entries (where_of at.now) (row_in self.now.outline.now row.now))) (spec.blocks_of (file_known self.now) (entries (where_of at.now) (row_in self.now.outline.now row.now)))) }
    {
        let mut tables = tables;
        let mut rest = row;
        while let [kid, more @ ..] = rest {
            match *kid {
                Kid::Token(_) => {}
                Kid::Node(node) => tables = self.node_parts(tables, at, node)?,
            }
            rest = more;
        }
        Ok(tables)
    }
}

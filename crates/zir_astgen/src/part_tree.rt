// The tree of a node of a part.
ghost use Rattle.std.specs.Prelude.{◌≡◌, true, IfOk};
ghost use Rattle.zig_tree.specs.Nodes.{are_earlier};
ghost use Rattle.zir_form.specs.Core as core;
ghost use Rattle.zir_form.specs.Lines.{tree_at, trees_of};
ghost use Rattle.zir_scope.specs.Syntax.{row_in};
ghost use Rattle.zir_astgen.specs.Entering.{around_of, part_site};
ghost use Rattle.zir_astgen.specs.Filing.{file_known};
ghost use Rattle.zir_astgen.specs.Firsts.{Adds};
ghost use Rattle.zir_astgen.specs.Trees as spec;
ghost use Rattle.zir_astgen.specs.Writing.{file, site, trees};

use crate::around::Place;
use crate::file::FileSource;
use crate::levels::Frames;
use crate::sheet::{Sheet, Written};
use crate::source::{Part, Source};
use crate::stage::Stage;
use crate::start::Start;
use crate::walk::Visited;
use crate::writer::Writer;
use std::alloc::AllocError;
use zig_tree::{Kid, Rule};
use zir_form::Form;

/// How the row is read that a part's node stands in.
fn stage_of(start: Start) -> Stage
    ensures { result ≡ (around_of start).stage }
{
    match start {
        Start::Plain => Stage::Plain,
        Start::Function => Stage::Function,
    }
}

impl Writer<'_> {
    /// The tree of a node of the part, by its rule and what it holds.
    pub fn tree_at(
        &mut self,
        start: Start,
        rule: Rule,
        row: &[Kid],
        before: u32,
    ) -> Result<u32, AllocError>
        requires { are_earlier before row.now ≡ true }
        ensures tree { IfOk result (Adds (trees self.old) (trees self.new) (spec.tree_at (file self.old) (site self.old) (around_of start) rule (row_in self.old.source.outline.now row.now))) }
        ensures source { self.new.source ≡ self.old.source }
    {
        let place = Place {
            frames: Frames::Outside,
            stage: stage_of(start),
        };
        let Visited { first: _, line } = self.enter(place, rule, row, before)?;
        Ok(line)
    }
}

impl FileSource<'_> {
    /// Writes the tree of a node of a part.
    pub fn tree_in(
        &self,
        sheet: Sheet,
        part: &Part<'_>,
        start: Start,
        rule: Rule,
        row: &[Kid],
        before: u32,
    ) -> Result<Written, AllocError>
        requires { are_earlier before row.now ≡ true }
        ensures { IfOk result (λ w. Adds (trees_of sheet.lines) (trees_of w.sheet.lines) (spec.tree_at (file_known self.now) (part_site part.now) (around_of start) rule (row_in self.now.outline.now row.now)) w.line) }
    {
        let Sheet { lines } = sheet;
        let mut writer = Writer {
            alloc: self.alloc,
            source: Source {
                text: self.text,
                outline: self.outline,
                events: self.events,
                captures: self.captures,
                part,
            },
            lines,
        };
        let line = writer.tree_at(start, rule, row, before)?;
        let Writer {
            alloc: _,
            source: _,
            lines,
        } = writer;
        Ok(Written {
            sheet: Sheet { lines },
            line,
        })
    }
}

/// Writes a function, by the lines of its head and of its body.
#[tactic(auto, using(crate::proofs::AddLemmas::firsts_stay))]
pub fn function_in(sheet: Sheet, head: u32, body: u32) -> Result<Written, AllocError>
    ensures { IfOk result (λ w. Adds (trees_of sheet.lines) (trees_of w.sheet.lines) (core.function (tree_at (trees_of sheet.lines) head) (tree_at (trees_of sheet.lines) body)) w.line) }
{
    let Sheet { mut lines } = sheet;
    let line = lines.put(Form::Function { head, body })?;
    Ok(Written {
        sheet: Sheet { lines },
        line,
    })
}

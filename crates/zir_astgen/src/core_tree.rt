// The core tree of a file, and what is wrong with its builtins.
ghost use Rattle.std.specs.Prelude.{◌≡◌, ◌<◌, ◌^◌, [], ◌∷◌, length, IfOk};
ghost use Rattle.zir_form.specs.Tables.{file_in};
ghost use Rattle.zir_scope.specs.Captures.{captures_of};
ghost use Rattle.zir_scope.specs.Findings.{scoped};
ghost use Rattle.zir_astgen.specs.Calls.{builtin_faults, calls_in};
ghost use Rattle.zir_astgen.specs.Entering.{Within, filed};
ghost use Rattle.zir_astgen.specs.Files.{core_file, core_of};
ghost use Rattle.zir_astgen.specs.Filing.{file_known};
ghost use Rattle.zir_astgen.specs.Rows.{Filed};
ghost use Rattle.zir_scope.specs.Syntax.{inside_of};

use crate::calls::{Called, call_faults};
use crate::captured::Captured;
use crate::file::{FileSource, Location};
use crate::mentions::Mentions;
use crate::places::Places;
use crate::sheet::{Rows, Sheet, Tables};
use std::alloc::{AllocError, Global};
use zig_tree::{Token, Tree};
use zir_form::{Form, Lines, Zir};
use zir_scope::{Outline, Scopes, facts_of};
use zw_base::{Found, Seq};

/// The core tree of a file, and the diagnostics of its builtins.
#[derive(Debug, Drop)]
pub struct AstGenOut {
    pub zir: Zir,
    pub found: Seq<Found>,
}

/// No parts yet: two lines, for no form and for what is left out.
fn begun(alloc: Global) -> Result<Tables, AllocError>
    ensures within { IfOk result (λ t. Within t) }
    ensures filed { IfOk result (λ t. filed t ≡ record { declarations = []; containers = []; blocks = [] }) }
{
    let mut lines = Lines::new(alloc);
    let _ = lines.put(Form::Missing)?;
    let _ = lines.put(Form::Absent)?;
    Ok(Tables {
        sheet: Sheet { lines },
        rows: Rows {
            declarations: Vec::new(alloc),
            containers: Vec::new(alloc),
            blocks: Vec::new(alloc),
        },
    })
}

impl FileSource<'_> {
    /// The calls of builtins in the file with this root.
    fn calls(&self, root: u32) -> Result<Vec<Called>, AllocError>
        ensures { IfOk result (λ calls. calls.items ≡ calls_in self.now.text.now self.now.outline.now.tokens.now (inside_of self.now.outline.now root)) }
    {
        let mut calls = Vec::new(self.alloc);
        self.calls_in(self.outline.kids(root), root, &mut calls)?;
        Ok(calls)
    }

    /// The core tree of the file with this root, in which these builtins are called.
    fn zir(&self, root: u32, calls: &[Called]) -> Result<Zir, AllocError>
        requires { calls.now ≡ calls_in self.now.text.now self.now.outline.now.tokens.now (inside_of self.now.outline.now root) }
        ensures { IfOk result (λ z. file_in z ≡ core_of (file_known self.now) (inside_of self.now.outline.now root)) }
    {
        let mut braces = Vec::new(self.alloc);
        braces.push(0)?;
        let around = Places::of(self.alloc, braces)?;
        let locals = Vec::from_slice(self.alloc, self.captures.locals(0))?;
        let captured = Places::of(self.alloc, locals)?;
        let containers = Places::of(self.alloc, Vec::new(self.alloc))?;
        let at = Location {
            container: 0,
            around: &around,
            captured: &captured,
            owner: 0,
            containers: &containers,
        };
        let row = self.outline.kids(root);
        let tables = self.row_parts(begun(self.alloc)?, &at, row, root)?;
        let imports = self.imports(calls)?;
        let Tables {
            sheet: Sheet { lines },
            rows: Rows {
                declarations,
                containers,
                blocks,
            },
        } = tables;
        Zir::of(self.alloc, lines, declarations, containers, blocks, imports)
    }
}

/// The core tree of a file, and E206 and E207: an `@import` of anything but one string literal, and a
/// builtin that is none or has a wrong number of arguments. `tokens` and `tree` are those of the text,
/// and `scopes` what scoping found in it. Near-linear in the file.
pub fn astgen(
    alloc: Global,
    text: &[u8],
    tokens: &[Token],
    tree: &Tree,
    scopes: &Scopes,
) -> Result<AstGenOut, AllocError>
    requires tokens { length tokens.now < 2 ^ 32 }
    requires events { scopes.now.events ≡ scoped text.now tokens.now tree.now.nodes tree.now.root }
    requires captures { scopes.now.captures ≡ captures_of (scoped text.now tokens.now tree.now.nodes tree.now.root) }
    ensures zir { IfOk result (λ o. file_in o.zir ≡ core_file text.now tokens.now tree.now.nodes tree.now.root) }
    ensures found { IfOk result (λ o. o.found ≡ builtin_faults text.now tokens.now tree.now.nodes tree.now.root) }
{
    let facts = facts_of(alloc, text, tokens)?;
    let outline = Outline {
        tokens,
        nodes: tree.nodes.as_slice(),
        facts: facts.as_slice(),
    };
    let events = Mentions::of(alloc, scopes.events.as_slice())?;
    let captures = Captured::of(alloc, scopes.captures.as_slice())?;
    let source = FileSource {
        alloc,
        text,
        outline: &outline,
        events: &events,
        captures: &captures,
    };
    let calls = source.calls(tree.root)?;
    let zir = source.zir(tree.root, calls.as_slice())?;
    let found = call_faults(alloc, tokens, calls.as_slice())?;
    Ok(AstGenOut {
        zir,
        found: Seq::of(found),
    })
}

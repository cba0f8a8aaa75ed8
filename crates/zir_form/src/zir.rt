// The core tree of a file as it is kept: lines, and tables of what the file declares.
ghost use Rattle.std.specs.Prelude.{◌≡◌, slice_get, IfOk};
ghost use Rattle.std.specs.Option.{option_copied};
ghost use Rattle.zir_form.specs.File as file;
ghost use Rattle.zir_form.specs.File.{container_of, container_of_block, name_of, name_start_of, start_of, tree_of};
ghost use Rattle.zir_form.specs.Tables.{file_in, tree_by};
ghost use Rattle.zir_form.specs.Tables as table;

use crate::build::{members_of, places_of};
use crate::lines::Lines;
use crate::names::place_of;
use crate::table::{BlockRow, ContainerRow, DeclarationRow, ImportRow};
use std::alloc::{AllocError, Global};
use std::collections::BTreeMap;
use std::marker::Model;
use zw_base::Bytes;

/// A container of a file by its keyword's token; 0 is the file itself.
#[derive(Clone, Copy, Debug, PartialEq, Eq)]
pub struct ContainerRef(pub u32);

/// A part of a file, whose text is asked for.
#[derive(Debug, Drop)]
pub enum Part {
    /// The head of a function.
    Head {
        container: ContainerRef,
        name: Bytes,
    },
    /// The whole text of a function, a constant or a variable.
    Whole {
        container: ContainerRef,
        name: Bytes,
    },
    /// The fields of a container.
    Fields {
        container: ContainerRef,
    },
    /// The block of this number that the file has at its top level, from 0.
    Block {
        number: u32,
    },
}

/// The answer to who asks for the text of a part: the line of its tree. Lines of two files are compared by
/// the trees that they stand for, and nothing else of a part counts.
#[derive(Clone, Copy, Debug)]
pub struct PartRef {
    pub line: u32,
}

/// The answer to who asks for a name in a container that has a declaration of this name: whether other
/// files may use it.
#[derive(Clone, Copy, Debug, PartialEq, Eq)]
pub struct NameRef {
    pub is_pub: bool,
}

/// A part in the tables: the line of its tree, and where its text begins in the file.
#[derive(Clone, Copy, Debug)]
struct PartRow {
    line: u32,
    start: u32,
}

/// The core tree of a file: lines, and tables of what the file declares, which name the lines of its parts.
#[derive(Debug, Drop)]
pub struct Zir {
    lines: Lines,
    declarations: Vec<DeclarationRow>,
    containers: Vec<ContainerRow>,
    blocks: Vec<BlockRow>,
    imports: Vec<ImportRow>,
    /// At a container and a name the number of the declaration.
    members: BTreeMap<u32, BTreeMap<Vec<u8>, u32>>,
    /// At a container's keyword its number.
    places: BTreeMap<u32, u32>,
}

impl Model for Zir {
    ghost use Rattle.zir_form.specs.Tables.{ZirState, AgreeTables};

    ghost Value = { ZirState };

    ghost view = { λ z. record { lines = z.lines; declarations = z.declarations.items; containers = z.containers.items; blocks = z.blocks.items; imports = z.imports.items } };

    ghost invariant = { λ z. AgreeTables z.declarations.items z.containers.items z.members z.places };
}

/// The number of the declaration that a name has in a container.
#[tactic(auto, unfolding(crate::specs::Tables::member_in))]
fn member_in(
    members: &BTreeMap<u32, BTreeMap<Vec<u8>, u32>>,
    container: u32,
    name: &[u8],
) -> Option<u32>
    ensures { result ≡ table.member_in members.now container name.now }
{
    match members.get(&container) {
        Some(inner) => place_of(inner, name),
        None => None,
    }
}

/// The number of a container.
#[tactic(auto, unfolding(crate::specs::Tables::number_in))]
fn number_in(places: &BTreeMap<u32, u32>, token: u32) -> Option<u32>
    ensures { result ≡ table.number_in places.now token }
{
    places.get(&token).copied()
}

impl Zir {
    /// The core tree of a file, by its lines and tables.
    pub fn of(
        alloc: Global,
        lines: Lines,
        declarations: Vec<DeclarationRow>,
        containers: Vec<ContainerRow>,
        blocks: Vec<BlockRow>,
        imports: Vec<ImportRow>,
    ) -> Result<Zir, AllocError>
        ensures { IfOk result (λ z. z ≡ record { lines = lines; declarations = declarations.items; containers = containers.items; blocks = blocks.items; imports = imports.items }) }
    {
        let members = members_of(alloc, declarations.as_slice())?;
        let places = places_of(alloc, containers.as_slice())?;
        Ok(Zir {
            lines,
            declarations,
            containers,
            blocks,
            imports,
            members,
            places,
        })
    }

    /// The declaration that a name has in a container.
    #[tactic(auto, using(crate::proofs::TableLemmas::found_none))]
    fn declaration(&self, container: ContainerRef, name: &[u8]) -> Option<&DeclarationRow>
        ensures { option_copied result ≡ table.row_named self.now.declarations container.0 name.now }
    {
        match member_in(&self.members, container.0, name) {
            Some(at) => declaration_at(self.declarations.as_slice(), at),
            None => None,
        }
    }

    /// The container with a keyword.
    #[tactic(auto, using(crate::proofs::TableLemmas::found_none))]
    fn container(&self, container: ContainerRef) -> Option<&ContainerRow>
        ensures { option_copied result ≡ table.row_with self.now.containers container.0 }
    {
        match number_in(&self.places, container.0) {
            Some(at) => container_at(self.containers.as_slice(), at),
            None => None,
        }
    }

    /// The text of a part, as its tree, if there is such a part.
    #[tactic(auto, using(crate::proofs::FileLaws::tree_law))]
    pub fn part(&self, part: &Part) -> Option<PartRef>
        ensures { tree_by self.now.lines result ≡ tree_of (file_in self.now) part.now }
    {
        match self.row(part) {
            Some(PartRow { line, start: _ }) => Some(PartRef { line }),
            None => None,
        }
    }

    /// Where a part begins in the file, if there is such a part: in bytes from its start. A place in the tree
    /// of the part is counted from there.
    #[tactic(auto, using(crate::proofs::FileLaws::start_law))]
    pub fn part_start(&self, part: &Part) -> Option<u32>
        ensures { result ≡ start_of (file_in self.now) part.now }
    {
        match self.row(part) {
            Some(PartRow { line: _, start }) => Some(start),
            None => None,
        }
    }

    /// A part in the tables.
    #[tactic(auto, unfolding(crate::specs::Tables::part_in))]
    fn row(&self, part: &Part) -> Option<PartRow>
        ensures { result ≡ table.part_in self.now part.now }
    {
        match part {
            Part::Head { container, name } => self.head(*container, name.as_slice()),
            Part::Whole { container, name } => self.whole(*container, name.as_slice()),
            Part::Fields { container } => self.fields(*container),
            Part::Block { number } => self.block(*number),
        }
    }

    /// The head of a function.
    fn head(&self, container: ContainerRef, name: &[u8]) -> Option<PartRow>
        ensures { result ≡ table.head_row (table.row_named self.now.declarations container.0 name.now) }
    {
        match self.declaration(container, name) {
            Some(row) => head_of(row),
            None => None,
        }
    }

    /// The whole text of a declaration.
    fn whole(&self, container: ContainerRef, name: &[u8]) -> Option<PartRow>
        ensures { result ≡ table.whole_row (table.row_named self.now.declarations container.0 name.now) }
    {
        match self.declaration(container, name) {
            Some(row) => Some(whole_of(row)),
            None => None,
        }
    }

    /// The fields of a container.
    fn fields(&self, container: ContainerRef) -> Option<PartRow>
        ensures { result ≡ table.fields_row (table.row_with self.now.containers container.0) }
    {
        match self.container(container) {
            Some(row) => Some(fields_of(row)),
            None => None,
        }
    }

    /// The text of a block.
    fn block(&self, number: u32) -> Option<PartRow>
        ensures { result ≡ table.block_row (slice_get self.now.blocks number) }
    {
        match block_at(self.blocks.as_slice(), number) {
            Some(row) => Some(block_of(row)),
            None => None,
        }
    }

    /// Whether a container has a declaration of this name, and of which kind it is; fields have none.
    #[tactic(auto, using(crate::proofs::FileLaws::name_law))]
    pub fn name_in(&self, container: ContainerRef, name: &[u8]) -> Option<NameRef>
        ensures { result ≡ name_of (file_in self.now) container name.now }
    {
        match self.declaration(container, name) {
            Some(row) => Some(NameRef { is_pub: row.is_pub }),
            None => None,
        }
    }

    /// Where the name of a declaration begins in the file, in bytes from its start.
    #[tactic(auto, using(crate::proofs::FileLaws::name_start_law))]
    pub fn name_start(&self, container: ContainerRef, name: &[u8]) -> Option<u32>
        ensures { result ≡ name_start_of (file_in self.now) container name.now }
    {
        match self.declaration(container, name) {
            Some(row) => Some(row.name_start),
            None => None,
        }
    }

    /// The container of an ordinal in a declaration.
    #[tactic(auto, using(crate::proofs::FileLaws::container_law))]
    pub fn container_in(
        &self,
        container: ContainerRef,
        name: &[u8],
        ordinal: u32,
    ) -> Option<ContainerRef>
        ensures { result ≡ container_of (file_in self.now) container name.now ordinal }
    {
        match self.declaration(container, name) {
            Some(row) => ordinal_in(row.containers.as_slice(), ordinal),
            None => None,
        }
    }

    /// The container of an ordinal in a block.
    #[tactic(auto, using(crate::proofs::FileLaws::block_law))]
    pub fn container_in_block(&self, number: u32, ordinal: u32) -> Option<ContainerRef>
        ensures { result ≡ container_of_block (file_in self.now) number ordinal }
    {
        match block_at(self.blocks.as_slice(), number) {
            Some(row) => ordinal_in(row.containers.as_slice(), ordinal),
            None => None,
        }
    }

    /// The lines, which trees are read from.
    pub fn lines(&self) -> &Lines
        ensures { result.now ≡ self.now.lines }
    {
        &self.lines
    }

    /// The declarations, in the order of the text.
    pub fn declarations(&self) -> &[DeclarationRow]
        ensures { result.now ≡ self.now.declarations }
    {
        self.declarations.as_slice()
    }

    /// The blocks that are evaluated at comptime, in the order of the text.
    pub fn blocks(&self) -> &[BlockRow]
        ensures { result.now ≡ self.now.blocks }
    {
        self.blocks.as_slice()
    }

    /// The `@import`s, in the order of the text.
    pub fn imports(&self) -> &[ImportRow]
        ensures { result.now ≡ self.now.imports }
    {
        self.imports.as_slice()
    }
}

/// The declaration with a number.
fn declaration_at(rows: &[DeclarationRow], at: u32) -> Option<&DeclarationRow>
    ensures { option_copied result ≡ slice_get rows.now at }
{
    rows.get(at as usize)
}

/// The container with a number.
fn container_at(rows: &[ContainerRow], at: u32) -> Option<&ContainerRow>
    ensures { option_copied result ≡ slice_get rows.now at }
{
    rows.get(at as usize)
}

/// The block with a number.
fn block_at(rows: &[BlockRow], at: u32) -> Option<&BlockRow>
    ensures { option_copied result ≡ slice_get rows.now at }
{
    rows.get(at as usize)
}

/// The head of a declaration, if it has one.
fn head_of(row: &DeclarationRow) -> Option<PartRow>
    ensures { result ≡ table.head_by row.now row.now.head }
{
    match row.head {
        Some(line) => Some(PartRow {
            line,
            start: row.start,
        }),
        None => None,
    }
}

/// The whole text of a declaration.
fn whole_of(row: &DeclarationRow) -> PartRow
    ensures { result ≡ table.part_row row.now.whole row.now.start }
{
    PartRow {
        line: row.whole,
        start: row.start,
    }
}

/// The fields of a container.
fn fields_of(row: &ContainerRow) -> PartRow
    ensures { result ≡ table.part_row row.now.fields row.now.start }
{
    PartRow {
        line: row.fields,
        start: row.start,
    }
}

/// The text of a block.
fn block_of(row: &BlockRow) -> PartRow
    ensures { result ≡ table.part_row row.now.line row.now.start }
{
    PartRow {
        line: row.line,
        start: row.start,
    }
}

/// The container of an ordinal.
fn ordinal_in(containers: &[u32], ordinal: u32) -> Option<ContainerRef>
    ensures { result ≡ file.ordinal_in containers.now ordinal }
{
    match containers.get(ordinal as usize) {
        Some(token) => Some(ContainerRef(*token)),
        None => None,
    }
}

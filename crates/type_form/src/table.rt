// Containers with their fields.
ghost use Rattle.std.specs.Prelude.{◌≡◌, [], ◌∷◌, ◌++◌, length, OnOk, OnErr};
ghost use Rattle.type_form.specs.Heights.{AreHigh};

use crate::tree::{Ty, Value};
use std::alloc::{AllocError, Global};
use std::marker::Model;
use zw_base::{Bytes, Seq};

/// What a container is.
#[derive(Clone, Copy, Debug, PartialEq, Eq)]
pub enum ContainerKind {
    Struct,
    Enum,
    /// A union with a tag.
    Union,
}

/// A field of a struct or a union.
#[derive(Drop)]
pub struct Field {
    pub name: Bytes,
    pub ty: Ty,
    pub default: Option<Value>,
}

/// A member of an enum, or of a union's tag, with its number.
#[derive(Drop)]
pub struct Member {
    pub name: Bytes,
    pub number: i128,
}

/// What the fields of a container are.
#[derive(Drop)]
pub struct Fields {
    pub kind: ContainerKind,
    pub fields: Seq<Field>,
    /// The tag type of an enum or a union.
    pub tag: Option<Ty>,
    pub members: Seq<Member>,
    /// 0 where it holds no struct or union without a pointer or slice, else 1 more than the
    /// greatest height of those.
    pub height: u32,
}

/// The result of a Fields unit.
#[derive(Drop)]
pub enum FieldsResult {
    Good(Fields),
    Failed,
}

/// A container with its fields.
#[derive(Drop)]
pub struct FieldsOf {
    pub container: Ty,
    pub result: FieldsResult,
}

/// A list of containers with their fields. The height of each is above the heights of the structs
/// and unions of the list that it holds without a pointer or slice.
#[derive(Drop)]
pub struct FieldTable {
    entries: Vec<FieldsOf>,
}

impl Model for FieldTable {
    ghost use Rattle.std.specs.Prelude.{List};
    ghost use Rattle.std.specs.Coded.{coded_list};
    ghost use Rattle.type_form.specs.declared.table.FieldsOf.{FieldsOf};
    ghost use Rattle.type_form.specs.contracts.table.FieldsOf as row;

    ghost Value = { List FieldsOf };

    ghost coded = { coded_list row.the_row.coded };

    ghost use Rattle.type_form.specs.Heights.{AreHigh};

    ghost view = { λ t. t.entries.items };

    ghost invariant = { λ t. AreHigh t.entries.items };
}

impl FieldTable {
    /// An empty table. Takes no memory.
    pub fn new(alloc: Global) -> FieldTable
        ensures { result ≡ [] }
    {
        FieldTable {
            entries: Vec::new(alloc),
        }
    }

    pub fn len(&self) -> usize
        ensures { result ≡ length self.now }
    {
        self.entries.len()
    }

    /// Adds a container at the end. An Err leaves the table as it was.
    pub fn push(&mut self, entry: FieldsOf) -> Result<(), AllocError>
        requires { AreHigh (self.old ++ entry ∷ []) }
        ensures ok { OnOk result (self.new ≡ self.old ++ entry ∷ []) }
        ensures err { OnErr result (self.new ≡ self.old) }
    {
        self.entries.push(entry)?;
        Ok(())
    }

    pub fn as_slice(&self) -> &[FieldsOf]
        ensures value { result.now ≡ self.now }
        ensures high { AreHigh self.now }
    {
        self.entries.as_slice()
    }
}

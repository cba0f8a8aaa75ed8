// A module, section by section (WebAssembly Core 1.0, section 5.5).
use crate::instr::Instr;
use zw_base::{Bytes, Seq};

/// A type of values (section 5.3.1).
#[derive(Clone, Copy, Debug, PartialEq, Eq)]
pub enum ValType {
    I32,
    I64,
}

/// The type of a function: what it takes, and what it gives if anything (section 5.3.3).
#[derive(Debug, Drop)]
pub struct FnType {
    pub params: Seq<ValType>,
    pub result: Option<ValType>,
}

/// A function that the module's host gives, by the two levels of its name (section 5.5.5).
#[derive(Debug, Drop)]
pub struct Import {
    pub module_name: Bytes,
    pub name: Bytes,
    pub kind: TypeIndex,
}

/// A place in the list of types.
#[derive(Clone, Copy, Debug, PartialEq, Eq)]
pub struct TypeIndex(pub u32);

/// A memory without a maximum; a page has 65,536 bytes (section 5.3.5).
#[derive(Clone, Copy, Debug, PartialEq, Eq)]
pub struct Memory {
    pub min_pages: u32,
}

/// A global variable and the constant expression that it begins with (section 5.5.9).
#[derive(Debug, Drop)]
pub struct Global {
    pub kind: ValType,
    pub is_mutable: bool,
    pub init: Seq<Instr>,
}

/// What an export names.
#[derive(Clone, Copy, Debug, PartialEq, Eq)]
pub enum Exported {
    /// The function with this index.
    Function(u32),
    /// The memory with this index.
    Memory(u32),
}

/// A name under which the module's host finds something (section 5.5.10).
#[derive(Debug, Drop)]
pub struct Export {
    pub name: Bytes,
    pub what: Exported,
}

/// Neighbouring locals of one type (section 5.5.13).
#[derive(Clone, Copy, Debug, PartialEq, Eq)]
pub struct Locals {
    pub count: u32,
    pub kind: ValType,
}

/// The code of a function, without the `end` that closes it (section 5.5.13).
#[derive(Debug, Drop)]
pub struct Code {
    pub locals: Seq<Locals>,
    pub body: Seq<Instr>,
}

/// Bytes that stand in memory 0 from the start, and where (section 5.5.14).
#[derive(Debug, Drop)]
pub struct Segment {
    pub place: i32,
    pub bytes: Bytes,
}

/// A module. Its sections stand in the order of the binary format; one without an entry is left out.
#[derive(Debug, Drop)]
pub struct Module {
    pub types: Seq<FnType>,
    pub imports: Seq<Import>,
    pub functions: Seq<TypeIndex>,
    pub memories: Seq<Memory>,
    pub globals: Seq<Global>,
    pub exports: Seq<Export>,
    /// The codes of `functions`, in their order.
    pub codes: Seq<Code>,
    pub segments: Seq<Segment>,
}

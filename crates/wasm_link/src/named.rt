// What is linked: code and data under their spellings.
use wasm_form::{DataItem, FnCode};
use zw_base::{Bytes, FilePath};

/// Where a function is declared: a byte of a file.
#[derive(Debug, Drop)]
pub struct Place {
    pub path: FilePath,
    pub offset: u32,
}

/// A function with a body, under the spelling of its instance.
#[derive(Debug, Drop)]
pub struct Function {
    pub spelling: Bytes,
    /// The name under which the module's host finds it, where it is exported.
    pub export: Option<Bytes>,
    pub place: Place,
    pub code: FnCode,
}

/// A data item under its spelling.
#[derive(Debug, Drop)]
pub struct Item {
    pub spelling: Bytes,
    pub item: DataItem,
}

/// A function under the name by which the module's host finds it, by its number in the module.
#[derive(Debug, Drop)]
pub struct NamedExport {
    pub name: Bytes,
    pub function: u32,
}

// Instances of functions, and the units of analysis.
use crate::tree::{Arg, DeclPath, Ty};
use sqlite_items::Items;
use zw_base::Bytes;

/// An instance of a function: its declaration and the arguments that are known at comptime. A
/// parameter that gives nothing has no entry.
#[derive(Drop)]
pub struct Instance {
    pub decl: DeclPath,
    pub args: Items<Arg>,
}

/// A unit of analysis.
#[derive(Drop)]
pub enum Unit {
    /// A constant's type and value, a variable's, or a function's value.
    Decl(DeclPath),
    /// The typed body of an instance.
    Body(Instance),
    /// The inferred error set of an instance.
    ErrorSet(Instance),
    /// The fields of a container or a file.
    Fields(Ty),
    /// The code of an instance.
    Code(Instance),
    /// The top-level `comptime` block of this number in a file, from 0.
    Comptime { file: Bytes, number: u32 },
}

//! The form of a WebAssembly module (WebAssembly Core 1.0, chapter 5) and its binary encoding.
//!
//! The model: a `Module` is plain data, section by section, as the binary format lays it out; its
//! bytes are the function `module_bytes` of it, put together from the bytes of each part in the words
//! of the standard. Code and data that are not linked yet name what their operands stand for.
//! Public calls: `encode`. The crate stands on `zw_base` (lists) and `zw_bytes` (the buffer, LEB128).
#![tactic(auto)]

mod encoder;
mod instr;
mod instr_bytes;
mod linked;
mod module;
mod parts;
#[cfg(test)]
mod tests;

pub use encoder::{EncodeFault, encode};
pub use instr::{BinaryOp, BlockType, Comparison, Instr, LoadKind, StoreKind, UnaryOp};
pub use linked::{Alignment, DataItem, ExternFunction, FnCode, Reloc, Symbol};
pub use module::{
    Code, Export, Exported, FnType, Global, Import, Locals, Memory, Module, Segment, TypeIndex,
    ValType,
};

// The bytes of each part of a module (WebAssembly Core 1.0, chapter 5).
ghost use Rattle.std.specs.Prelude.{◌≡◌, ◌++◌, [], ◌∷◌, ℕ, List, OnOk};
ghost use Rattle.std.specs.List.{flat_map};
ghost use Rattle.zw_bytes.specs.Leb.{unsigned_leb};
ghost use Rattle.wasm_form.specs.Binary.{vector_bytes, name_bytes, val_type_bytes, fn_type_bytes, expr_bytes, type_index_bytes, memory_bytes, global_bytes, import_bytes, segment_bytes, exported_bytes, export_bytes, locals_bytes, function_bytes, code_bytes};

use crate::instr::Instr;
use crate::module::{
    Code, Export, Exported, FnType, Global, Import, Locals, Memory, Segment, TypeIndex, ValType,
};
use std::alloc::{AllocError, Global as Heap};
use zw_bytes::ByteBuf;

/// A part of a module that has bytes.
pub trait Encode {
    /// Its bytes.
    ghost bytes: { Self → List ℕ };

    /// Appends the bytes.
    fn put_into(&self, alloc: Heap, out: &mut ByteBuf) -> Result<(), AllocError>
        ensures { OnOk result (out.new.bytes ≡ out.old.bytes ++ bytes self.now) };
}

/// Appends entries one after another.
pub fn put_all<T: Encode>(alloc: Heap, entries: &[T], out: &mut ByteBuf) -> Result<(), AllocError>
    ensures { OnOk result (out.new.bytes ≡ out.old.bytes ++ flat_map T.bytes entries.now) }
{
    for entry in entries {
        entry.put_into(alloc, out)?;
    }
    Ok(())
}

/// Appends a vector: its length, then its entries.
pub fn put_vector<T: Encode>(
    alloc: Heap,
    entries: &[T],
    out: &mut ByteBuf,
) -> Result<(), AllocError>
    ensures { OnOk result (out.new.bytes ≡ out.old.bytes ++ vector_bytes T.bytes entries.now) }
{
    put_len(entries.len(), out)?;
    put_all(alloc, entries, out)
}

/// Appends a length.
pub fn put_len(n: usize, out: &mut ByteBuf) -> Result<(), AllocError>
    ensures { OnOk result (out.new.bytes ≡ out.old.bytes ++ unsigned_leb n) }
{
    out.reserve(10)?;
    out.put_len(n);
    Ok(())
}

/// Appends one byte.
pub fn put_byte(b: u8, out: &mut ByteBuf) -> Result<(), AllocError>
    ensures { OnOk result (out.new.bytes ≡ out.old.bytes ++ b ∷ []) }
{
    out.reserve(1)?;
    out.put(b);
    Ok(())
}

/// Appends an unsigned number.
fn put_number(n: u32, out: &mut ByteBuf) -> Result<(), AllocError>
    ensures { OnOk result (out.new.bytes ≡ out.old.bytes ++ unsigned_leb n) }
{
    out.reserve(5)?;
    out.put_u32(n);
    Ok(())
}

/// Appends a name: its length, then its bytes.
fn put_name(name: &[u8], out: &mut ByteBuf) -> Result<(), AllocError>
    ensures { OnOk result (out.new.bytes ≡ out.old.bytes ++ name_bytes name.now) }
{
    put_len(name.len(), out)?;
    out.put_slice(name)
}

/// Appends an expression: its instructions, and the `end` that closes it.
fn put_expr(alloc: Heap, instrs: &[Instr], out: &mut ByteBuf) -> Result<(), AllocError>
    ensures { OnOk result (out.new.bytes ≡ out.old.bytes ++ expr_bytes instrs.now) }
{
    put_all(alloc, instrs, out)?;
    put_byte(END, out)
}

/// The byte of `end`.
const END: u8 = 0x0b;

impl Encode for ValType {
    ghost bytes = { val_type_bytes };

    fn put_into(&self, _alloc: Heap, out: &mut ByteBuf) -> Result<(), AllocError> {
        match self {
            ValType::I32 => put_byte(0x7f, out),
            ValType::I64 => put_byte(0x7e, out),
        }
    }
}

impl Encode for FnType {
    ghost bytes = { fn_type_bytes };

    fn put_into(&self, alloc: Heap, out: &mut ByteBuf) -> Result<(), AllocError> {
        put_byte(0x60, out)?;
        put_vector(alloc, self.params.as_slice(), out)?;
        match self.result {
            None => put_vector::<ValType>(alloc, &[], out),
            Some(result) => put_vector(alloc, &[result], out),
        }
    }
}

impl Encode for TypeIndex {
    ghost bytes = { type_index_bytes };

    fn put_into(&self, _alloc: Heap, out: &mut ByteBuf) -> Result<(), AllocError> {
        put_number(self.0, out)
    }
}

impl Encode for Import {
    ghost bytes = { import_bytes };

    fn put_into(&self, alloc: Heap, out: &mut ByteBuf) -> Result<(), AllocError> {
        put_name(self.module_name.as_slice(), out)?;
        put_name(self.name.as_slice(), out)?;
        put_byte(0x00, out)?;
        self.kind.put_into(alloc, out)
    }
}

impl Encode for Memory {
    ghost bytes = { memory_bytes };

    fn put_into(&self, _alloc: Heap, out: &mut ByteBuf) -> Result<(), AllocError> {
        put_byte(0x00, out)?;
        put_number(self.min_pages, out)
    }
}

impl Encode for Global {
    ghost bytes = { global_bytes };

    fn put_into(&self, alloc: Heap, out: &mut ByteBuf) -> Result<(), AllocError> {
        self.kind.put_into(alloc, out)?;
        put_byte(if self.is_mutable { 0x01 } else { 0x00 }, out)?;
        put_expr(alloc, self.init.as_slice(), out)
    }
}

impl Encode for Exported {
    ghost bytes = { exported_bytes };

    fn put_into(&self, _alloc: Heap, out: &mut ByteBuf) -> Result<(), AllocError> {
        let (kind, index) = match self {
            Exported::Function(index) => (0x00, *index),
            Exported::Memory(index) => (0x02, *index),
        };
        put_byte(kind, out)?;
        put_number(index, out)
    }
}

impl Encode for Export {
    ghost bytes = { export_bytes };

    fn put_into(&self, alloc: Heap, out: &mut ByteBuf) -> Result<(), AllocError> {
        put_name(self.name.as_slice(), out)?;
        self.what.put_into(alloc, out)
    }
}

impl Encode for Locals {
    ghost bytes = { locals_bytes };

    fn put_into(&self, alloc: Heap, out: &mut ByteBuf) -> Result<(), AllocError> {
        put_number(self.count, out)?;
        self.kind.put_into(alloc, out)
    }
}

impl Encode for Code {
    ghost bytes = { code_bytes };

    fn put_into(&self, alloc: Heap, out: &mut ByteBuf) -> Result<(), AllocError> {
        let mut function = ByteBuf::with_room(alloc, 0)?;
        put_function(alloc, self, &mut function)?;
        put_len(function.len(), out)?;
        out.put_slice(function.as_slice())
    }
}

impl Encode for Segment {
    ghost bytes = { segment_bytes };

    fn put_into(&self, alloc: Heap, out: &mut ByteBuf) -> Result<(), AllocError> {
        put_byte(0x00, out)?;
        put_expr(alloc, &[Instr::I32Const(self.place)], out)?;
        put_len(self.bytes.len(), out)?;
        out.put_slice(self.bytes.as_slice())
    }
}

/// Appends the locals and the expression of a function.
fn put_function(alloc: Heap, code: &Code, out: &mut ByteBuf) -> Result<(), AllocError>
    ensures { OnOk result (out.new.bytes ≡ out.old.bytes ++ function_bytes code.now) }
{
    put_vector(alloc, code.locals.as_slice(), out)?;
    put_expr(alloc, code.body.as_slice(), out)
}

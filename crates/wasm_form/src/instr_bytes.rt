// The bytes of each instruction (WebAssembly Core 1.0, section 5.4).
ghost use Rattle.std.specs.Prelude.{◌≡◌, ◌++◌, [], ◌∷◌, OnOk};
ghost use Rattle.zw_bytes.specs.Leb.{unsigned_leb, signed_leb, unsigned_padded, signed_padded};
ghost use Rattle.wasm_form.specs.Binary.{instr_bytes, block_type_byte};

use crate::instr::{BlockType, Instr, eqz_opcode_of};
use crate::parts::{Encode, put_byte};
use std::alloc::{AllocError, Global as Heap};
use zw_bytes::ByteBuf;

impl Encode for Instr {
    ghost bytes = { instr_bytes };

    fn put_into(&self, _alloc: Heap, out: &mut ByteBuf) -> Result<(), AllocError> {
        match self {
            Instr::Unreachable => put_byte(0x00, out),
            Instr::Block(kind) => put_block(0x02, *kind, out),
            Instr::Loop(kind) => put_block(0x03, *kind, out),
            Instr::If(kind) => put_block(0x04, *kind, out),
            Instr::Else => put_byte(0x05, out),
            Instr::End => put_byte(0x0b, out),
            Instr::Br(label) => put_indexed(0x0c, *label, out),
            Instr::Return => put_byte(0x0f, out),
            Instr::Drop => put_byte(0x1a, out),
            Instr::Select => put_byte(0x1b, out),
            Instr::LocalGet(local) => put_indexed(0x20, *local, out),
            Instr::LocalSet(local) => put_indexed(0x21, *local, out),
            Instr::LocalTee(local) => put_indexed(0x22, *local, out),
            Instr::GlobalGet(global) => put_indexed(0x23, *global, out),
            Instr::GlobalSet(global) => put_indexed(0x24, *global, out),
            Instr::Load(kind, offset) => put_memory(kind.opcode(), *offset, out),
            Instr::Store(kind, offset) => put_memory(kind.opcode(), *offset, out),
            Instr::I32Const(n) => put_constant(*n, out),
            Instr::I64Const(n) => put_long_constant(*n, out),
            Instr::Call(function) => put_call(*function, out),
            Instr::LinkedConst(n) => put_linked(*n, out),
            Instr::IsZero(class) => put_byte(eqz_opcode_of(*class), out),
            Instr::Compare(class, op) => put_byte(op.opcode(*class), out),
            Instr::Unary(class, op) => put_byte(op.opcode(*class), out),
            Instr::Binary(class, op) => put_byte(op.opcode(*class), out),
            Instr::Wrap => put_byte(0xa7, out),
            Instr::ExtendSigned => put_byte(0xac, out),
            Instr::ExtendUnsigned => put_byte(0xad, out),
        }
    }
}

/// Appends an opcode and what its block leaves.
fn put_block(opcode: u8, kind: BlockType, out: &mut ByteBuf) -> Result<(), AllocError>
    ensures { OnOk result (out.new.bytes ≡ out.old.bytes ++ opcode ∷ block_type_byte kind ∷ []) }
{
    out.reserve(2)?;
    out.put(opcode);
    out.put(match kind {
        BlockType::Empty => 0x40,
        BlockType::I32 => 0x7f,
    });
    Ok(())
}

/// Appends an opcode and the index or label that it names.
fn put_indexed(opcode: u8, index: u32, out: &mut ByteBuf) -> Result<(), AllocError>
    ensures { OnOk result (out.new.bytes ≡ out.old.bytes ++ opcode ∷ unsigned_leb index) }
{
    out.reserve(6)?;
    out.put(opcode);
    out.put_u32(index);
    Ok(())
}

/// Appends an opcode that reads or writes memory: alignment 0, and the offset.
fn put_memory(opcode: u8, offset: u32, out: &mut ByteBuf) -> Result<(), AllocError>
    ensures { OnOk result (out.new.bytes ≡ out.old.bytes ++ opcode ∷ 0x00 ∷ unsigned_leb offset) }
{
    out.reserve(7)?;
    out.put(opcode);
    out.put(0x00);
    out.put_u32(offset);
    Ok(())
}

/// Appends `i32.const` of a number.
fn put_constant(n: i32, out: &mut ByteBuf) -> Result<(), AllocError>
    ensures { OnOk result (out.new.bytes ≡ out.old.bytes ++ 0x41 ∷ signed_leb n) }
{
    out.reserve(6)?;
    out.put(0x41);
    out.put_s32(n);
    Ok(())
}

/// Appends `i64.const` of a number.
fn put_long_constant(n: i64, out: &mut ByteBuf) -> Result<(), AllocError>
    ensures { OnOk result (out.new.bytes ≡ out.old.bytes ++ 0x42 ∷ signed_leb n) }
{
    out.reserve(11)?;
    out.put(0x42);
    out.put_s64(n);
    Ok(())
}

/// Appends `call` of a function, whose index takes five bytes.
fn put_call(function: u32, out: &mut ByteBuf) -> Result<(), AllocError>
    ensures { OnOk result (out.new.bytes ≡ out.old.bytes ++ 0x10 ∷ unsigned_padded function) }
{
    out.reserve(6)?;
    out.put(0x10);
    out.put_u32_padded(function);
    Ok(())
}

/// Appends `i32.const` of a number, which takes five bytes.
fn put_linked(n: i32, out: &mut ByteBuf) -> Result<(), AllocError>
    ensures { OnOk result (out.new.bytes ≡ out.old.bytes ++ 0x41 ∷ signed_padded n) }
{
    out.reserve(6)?;
    out.put(0x41);
    out.put_s32_padded(n);
    Ok(())
}

// Modules whose bytes were put together by hand from the standard, or by `wat2wasm`.
use crate::{
    BinaryOp, BlockType, Code, Comparison, Export, Exported, FnType, Global, Import, Instr,
    LoadKind, Locals, Memory, Module, Segment, StoreKind, TypeIndex, UnaryOp, ValType, encode,
};
use std::alloc::Global as Heap;
use std::test::Fail;
use zw_base::{Bytes, Seq};
use zw_bytes::ByteBuf;

/// A function type with parameters, a constant global, locals of two groups and nothing exported.
fn wide(alloc: Heap) -> Result<Module, Fail> {
    let types = FnType {
        params: Seq::of(vec![in alloc; ValType::I32, ValType::I64]?),
        result: None,
    };
    let global = Global {
        kind: ValType::I64,
        is_mutable: false,
        init: Seq::of(vec![in alloc; Instr::I32Const(-1)]?),
    };
    let i32s = Locals {
        count: 300,
        kind: ValType::I32,
    };
    let i64s = Locals {
        count: 1,
        kind: ValType::I64,
    };
    let code = Code {
        locals: Seq::of(vec![in alloc; i32s, i64s]?),
        body: Seq::of(vec![in alloc; Instr::Return, Instr::End]?),
    };
    let export = Export {
        name: Bytes::of(Vec::from_slice(alloc, b"a b")?),
        what: Exported::Function(130),
    };
    Ok(Module {
        types: Seq::of(vec![in alloc; types]?),
        imports: Seq::of(Vec::new(alloc)),
        functions: Seq::of(vec![in alloc; TypeIndex(0)]?),
        memories: Seq::of(vec![in alloc; Memory { min_pages: 128 }]?),
        globals: Seq::of(vec![in alloc; global]?),
        exports: Seq::of(vec![in alloc; export]?),
        codes: Seq::of(vec![in alloc; code]?),
        segments: Seq::of(Vec::new(alloc)),
    })
}

fn empty(alloc: Heap) -> Module {
    Module {
        types: Seq::of(Vec::new(alloc)),
        imports: Seq::of(Vec::new(alloc)),
        functions: Seq::of(Vec::new(alloc)),
        memories: Seq::of(Vec::new(alloc)),
        globals: Seq::of(Vec::new(alloc)),
        exports: Seq::of(Vec::new(alloc)),
        codes: Seq::of(Vec::new(alloc)),
        segments: Seq::of(Vec::new(alloc)),
    }
}

/// A function's body in which each shape of instruction stands.
const SHAPES: [Instr; 37] = [
    Instr::Unreachable,
    Instr::Block(BlockType::Empty),
    Instr::Br(0),
    Instr::End,
    Instr::Loop(BlockType::I32),
    Instr::Unreachable,
    Instr::End,
    Instr::If(BlockType::I32),
    Instr::I32Const(-1),
    Instr::Else,
    Instr::I32Const(64),
    Instr::End,
    Instr::Drop,
    Instr::LocalGet(200),
    Instr::LocalSet(0),
    Instr::Unreachable,
    Instr::LocalTee(2),
    Instr::GlobalSet(0),
    Instr::GlobalGet(0),
    Instr::Load(LoadKind::I64, 300),
    Instr::IsZero(ValType::I64),
    Instr::Drop,
    Instr::Unreachable,
    Instr::Store(StoreKind::I32Low8, 1),
    Instr::Unreachable,
    Instr::Compare(ValType::I32, Comparison::LessSigned),
    Instr::Unary(ValType::I32, UnaryOp::CountOnes),
    Instr::ExtendSigned,
    Instr::Wrap,
    Instr::ExtendUnsigned,
    Instr::I64Const(-1),
    Instr::Binary(ValType::I64, BinaryOp::RotateRight),
    Instr::Unreachable,
    Instr::Select,
    Instr::Drop,
    Instr::Return,
    Instr::Unreachable,
];

/// A module with that body, an import and a segment of data.
fn full(alloc: Heap) -> Result<Module, Fail> {
    let pair = FnType {
        params: Seq::of(vec![in alloc; ValType::I32, ValType::I64]?),
        result: None,
    };
    let constant = FnType {
        params: Seq::of(Vec::new(alloc)),
        result: Some(ValType::I32),
    };
    let import = Import {
        module_name: Bytes::of(Vec::from_slice(alloc, b"env")?),
        name: Bytes::of(Vec::from_slice(alloc, b"put")?),
        kind: TypeIndex(1),
    };
    let global = Global {
        kind: ValType::I32,
        is_mutable: true,
        init: Seq::of(vec![in alloc; Instr::I32Const(1_048_576)]?),
    };
    let i32s = Locals {
        count: 1,
        kind: ValType::I32,
    };
    let i64s = Locals {
        count: 1,
        kind: ValType::I64,
    };
    let many = Locals {
        count: 200,
        kind: ValType::I32,
    };
    let code = Code {
        locals: Seq::of(vec![in alloc; i32s, i64s, many]?),
        body: Seq::of(Vec::from_slice(alloc, &SHAPES)?),
    };
    let segment = Segment {
        place: 1_048_576,
        bytes: Bytes::of(Vec::from_slice(alloc, b"ab\x00")?),
    };
    Ok(Module {
        types: Seq::of(vec![in alloc; pair, constant]?),
        imports: Seq::of(vec![in alloc; import]?),
        functions: Seq::of(vec![in alloc; TypeIndex(0)]?),
        memories: Seq::of(vec![in alloc; Memory { min_pages: 17 }]?),
        globals: Seq::of(vec![in alloc; global]?),
        exports: Seq::of(Vec::new(alloc)),
        codes: Seq::of(vec![in alloc; code]?),
        segments: Seq::of(vec![in alloc; segment]?),
    })
}

/// A module with one body, whose operands linking fills in but for the last.
fn linked(alloc: Heap) -> Result<Module, Fail> {
    let body = [
        Instr::Call(3),
        Instr::LinkedConst(1_048_576),
        Instr::I64Const(-1),
    ];
    let code = Code {
        locals: Seq::of(Vec::new(alloc)),
        body: Seq::of(Vec::from_slice(alloc, &body)?),
    };
    let mut whole = empty(alloc);
    whole.codes = Seq::of(vec![in alloc; code]?);
    Ok(whole)
}

#[test]
fn encodes_known_modules(rt: HostRuntime) -> Result<(), Fail> {
    let alloc = rt.alloc();
    let mut into = ByteBuf::with_room(alloc, 0)?;
    encode(alloc, &empty(alloc), &mut into)?;
    assert_eq!(rt; into.as_slice(), b"\x00asm\x01\x00\x00\x00".as_slice());

    let mut into = ByteBuf::with_room(alloc, 0)?;
    encode(alloc, &wide(alloc)?, &mut into)?;
    let wanted: &[u8] =
        b"\x00asm\x01\x00\x00\x00\x01\x06\x01\x60\x02\x7f\x7e\x00\x03\x02\x01\x00\x05\x04\x01\x00\x80\x01\x06\x06\x01\x7e\x00\x41\x7f\x0b\x07\x08\x01\x03a b\x00\x82\x01\x0a\x0b\x01\x09\x02\xac\x02\x7f\x01\x7e\x0f\x0b\x0b";
    assert_eq!(rt; into.as_slice(), wanted);

    let mut into = ByteBuf::with_room(alloc, 0)?;
    encode(alloc, &full(alloc)?, &mut into)?;
    let wanted: &[u8] =
        b"\x00\x61\x73\x6d\x01\x00\x00\x00\x01\x0a\x02\x60\x02\x7f\x7e\x00\x60\x00\x01\x7f\x02\x0b\x01\x03\x65\x6e\x76\x03\x70\x75\x74\x00\x01\x03\x02\x01\x00\x05\x03\x01\x00\x11\x06\x09\x01\x7f\x01\x41\x80\x80\xc0\x00\x0b\x0a\x43\x01\x41\x03\x01\x7f\x01\x7e\xc8\x01\x7f\x00\x02\x40\x0c\x00\x0b\x03\x7f\x00\x0b\x04\x7f\x41\x7f\x05\x41\xc0\x00\x0b\x1a\x20\xc8\x01\x21\x00\x00\x22\x02\x24\x00\x23\x00\x29\x00\xac\x02\x50\x1a\x00\x3a\x00\x01\x00\x48\x69\xac\xa7\xad\x42\x7f\x8a\x00\x1b\x1a\x0f\x00\x0b\x0b\x0c\x01\x00\x41\x80\x80\xc0\x00\x0b\x03\x61\x62\x00";
    assert_eq!(rt; into.as_slice(), wanted);

    let mut into = ByteBuf::with_room(alloc, 0)?;
    encode(alloc, &linked(alloc)?, &mut into)?;
    let wanted: &[u8] =
        b"\x00asm\x01\x00\x00\x00\x0a\x12\x01\x10\x00\x10\x83\x80\x80\x80\x00\x41\x80\x80\xc0\x80\x00\x42\x7f\x0b";
    assert_eq!(rt; into.as_slice(), wanted);
    Ok(())
}

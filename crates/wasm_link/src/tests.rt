// Modules that were put together by hand from the standard, and valid ones by `wasm2wat`.

use crate::{Function, Item, LinkFault, Place, link};
use std::alloc::{AllocError, Global as Heap};
use std::test::Fail;
use wasm_form::{
    Alignment, BinaryOp, DataItem, ExternFunction, FnCode, FnType, Instr, Reloc, Symbol, ValType,
};
use zw_base::{Bytes, FilePath, Seq};

fn bytes(alloc: Heap, text: &[u8]) -> Result<Bytes, Fail> {
    Ok(Bytes::of(Vec::from_slice(alloc, text)?))
}

fn kind(alloc: Heap, params: &[ValType], gives: Option<ValType>) -> Result<FnType, Fail> {
    Ok(FnType {
        params: Seq::of(Vec::from_slice(alloc, params)?),
        result: gives,
    })
}

fn code(alloc: Heap, kind: FnType, body: &[Instr], relocs: Vec<Reloc>) -> Result<FnCode, Fail> {
    Ok(FnCode {
        kind,
        locals: Seq::of(Vec::new(alloc)),
        body: Seq::of(Vec::from_slice(alloc, body)?),
        relocs: Seq::of(relocs),
    })
}

fn function(
    alloc: Heap,
    spelling: &[u8],
    offset: u32,
    export: Option<&[u8]>,
    code: FnCode,
) -> Result<Function, Fail> {
    let export = match export {
        None => None,
        Some(name) => Some(bytes(alloc, name)?),
    };
    let place = Place {
        path: FilePath::of(alloc, "m.zig")?,
        offset,
    };
    Ok(Function {
        spelling: bytes(alloc, spelling)?,
        export,
        place,
        code,
    })
}

/// A function that takes and gives nothing.
fn plain(alloc: Heap, spelling: &[u8], offset: u32, name: &[u8]) -> Result<Function, Fail> {
    let code = code(alloc, kind(alloc, &[], None)?, &[], Vec::new(alloc))?;
    function(alloc, spelling, offset, Some(name), code)
}

fn host(alloc: Heap, module_name: &[u8], name: &[u8]) -> Result<Symbol, Fail> {
    Ok(Symbol::Extern(ExternFunction {
        spelling: bytes(alloc, name)?,
        module_name: bytes(alloc, module_name)?,
        name: bytes(alloc, name)?,
        kind: kind(alloc, &[ValType::I32], None)?,
    }))
}

/// `extern "m" fn p(x: u32) void; export fn f() u32 { p(7); return 7; }`
fn calls_host(alloc: Heap) -> Result<Vec<Function>, Fail> {
    let body = [
        Instr::I32Const(7),
        Instr::Call(0),
        Instr::I32Const(7),
        Instr::Return,
    ];
    let call = Reloc {
        place: 1,
        symbol: host(alloc, b"m", b"p")?,
    };
    let kind = kind(alloc, &[], Some(ValType::I32))?;
    let code = code(alloc, kind, &body, vec![in alloc; call]?)?;
    Ok(vec![in alloc; function(alloc, b"f", 0, Some(b"f"), code)?]?)
}

/// Three groups of locals would be two: the first two are of one type.
fn first(alloc: Heap) -> Result<Function, Fail> {
    let body = [
        Instr::LinkedConst(0),
        Instr::Drop,
        Instr::LocalGet(0),
        Instr::Call(0),
        Instr::Binary(ValType::I32, BinaryOp::Add),
    ];
    let address = Reloc {
        place: 0,
        symbol: Symbol::Data {
            spelling: bytes(alloc, b"d")?,
            beyond: 2,
        },
    };
    let call = Reloc {
        place: 3,
        symbol: Symbol::Function(bytes(alloc, b"b")?),
    };
    let kind = kind(alloc, &[ValType::I32], Some(ValType::I32))?;
    let mut code = code(alloc, kind, &body, vec![in alloc; address, call]?)?;
    let locals = [ValType::I32, ValType::I32, ValType::I64];
    code.locals = Seq::of(Vec::from_slice(alloc, &locals)?);
    function(alloc, b"a", 0, Some(b"zeta"), code)
}

/// Two error numbers, one import that is called twice, and a call of the first function.
fn second(alloc: Heap) -> Result<Function, Fail> {
    let body = [
        Instr::LinkedConst(0),
        Instr::Call(0),
        Instr::LinkedConst(0),
        Instr::Call(0),
        Instr::I32Const(5),
        Instr::Call(0),
    ];
    let symbols = [
        Symbol::Error(bytes(alloc, b"Bad")?),
        host(alloc, b"env", b"put")?,
        Symbol::Error(bytes(alloc, b"Zed")?),
        host(alloc, b"env", b"put")?,
    ];
    let mut relocs = Vec::new(alloc);
    for (place, symbol) in symbols.into_iter().enumerate() {
        relocs.push(Reloc { place, symbol })?;
    }
    relocs.push(Reloc {
        place: 5,
        symbol: Symbol::Function(bytes(alloc, b"a")?),
    })?;
    let kind = kind(alloc, &[], Some(ValType::I32))?;
    let code = code(alloc, kind, &body, relocs)?;
    function(alloc, b"b", 0, Some(b"alpha"), code)
}

/// Three bytes, and behind a gap a slice of two of them and an error's number.
fn data(alloc: Heap) -> Result<Vec<Item>, Fail> {
    let pointer = Reloc {
        place: 0,
        symbol: Symbol::Data {
            spelling: bytes(alloc, b"d")?,
            beyond: 1,
        },
    };
    let error = Reloc {
        place: 8,
        symbol: Symbol::Error(bytes(alloc, b"Zed")?),
    };
    let slice = DataItem::Bytes {
        bytes: bytes(alloc, b"\x00\x00\x00\x00\x02\x00\x00\x00\x00\x00")?,
        align: Alignment::Four,
        relocs: Seq::of(vec![in alloc; pointer, error]?),
    };
    let three = DataItem::Bytes {
        bytes: bytes(alloc, b"\x01\x02\x03")?,
        align: Alignment::One,
        relocs: Seq::of(Vec::new(alloc)),
    };
    let e = Item {
        spelling: bytes(alloc, b"e")?,
        item: slice,
    };
    let d = Item {
        spelling: bytes(alloc, b"d")?,
        item: three,
    };
    Ok(vec![in alloc; e, d]?)
}

/// The name that stands twice, and its functions.
fn double(answer: Result<Bytes, LinkFault>) -> Option<(Bytes, Seq<Place>)> {
    match answer {
        Ok(_module) => None,
        Err(fault) => match fault {
            LinkFault::DuplicateExport { name, places } => Some((name, places)),
            LinkFault::DataTooLarge | LinkFault::ModuleTooLarge | LinkFault::OutOfMemory => None,
        },
    }
}

const EMPTY: &[u8] =
    b"\x00asm\x01\x00\x00\x00\x05\x03\x01\x00\x10\x06\x09\x01\x7f\x01\x41\x80\x80\xc0\x00\x0b\x07\x0a\x01\x06memory\x02\x00";

const HOST: &[u8] =
    b"\x00\x61\x73\x6d\x01\x00\x00\x00\x01\x09\x02\x60\x01\x7f\x00\x60\x00\x01\x7f\x02\x07\x01\x01\x6d\x01\x70\x00\x00\x03\x02\x01\x01\x05\x03\x01\x00\x10\x06\x09\x01\x7f\x01\x41\x80\x80\xc0\x00\x0b\x07\x0e\x02\x06\x6d\x65\x6d\x6f\x72\x79\x02\x00\x01\x66\x00\x01\x0a\x0f\x01\x0d\x00\x41\x07\x10\x80\x80\x80\x80\x00\x41\x07\x0f\x0b";

const FULL: &[u8] =
    b"\x00\x61\x73\x6d\x01\x00\x00\x00\x01\x0e\x03\x60\x01\x7f\x00\x60\x01\x7f\x01\x7f\x60\x00\x01\x7f\x02\x0b\x01\x03\x65\x6e\x76\x03\x70\x75\x74\x00\x00\x03\x03\x02\x01\x02\x05\x03\x01\x00\x11\x06\x09\x01\x7f\x01\x41\x80\x80\xc0\x00\x0b\x07\x19\x03\x06\x6d\x65\x6d\x6f\x72\x79\x02\x00\x05\x61\x6c\x70\x68\x61\x00\x02\x04\x7a\x65\x74\x61\x00\x01\x0a\x3b\x02\x16\x02\x02\x7f\x01\x7e\x41\x82\x80\xc0\x80\x00\x1a\x20\x00\x10\x82\x80\x80\x80\x00\x6a\x0b\x22\x00\x41\x81\x80\x80\x80\x00\x10\x80\x80\x80\x80\x00\x41\x82\x80\x80\x80\x00\x10\x80\x80\x80\x80\x00\x41\x05\x10\x81\x80\x80\x80\x00\x0b\x0b\x17\x01\x00\x41\x80\x80\xc0\x00\x0b\x0e\x01\x02\x03\x00\x01\x00\x10\x00\x02\x00\x00\x00\x02\x00";

#[test]
fn links_known_modules(rt: HostRuntime) -> Result<(), Fail> {
    let alloc = rt.alloc();
    let errors = vec![in alloc; bytes(alloc, b"Bad")?, bytes(alloc, b"Zed")?]?;
    let both = vec![in alloc; second(alloc)?, first(alloc)?]?;
    let cases = [
        (Vec::new(alloc), Vec::new(alloc), EMPTY),
        (calls_host(alloc)?, Vec::new(alloc), HOST),
        (both, data(alloc)?, FULL),
    ];
    for (functions, items, wanted) in cases {
        match link(alloc, functions, items, &errors) {
            Ok(module) => assert_eq!(rt; module.as_slice(), wanted),
            Err(_) => assert!(rt; false),
        }
    }
    Ok(())
}

#[test]
fn names_the_least_double_name(rt: HostRuntime) -> Result<(), Fail> {
    let alloc = rt.alloc();
    let names: [(&[u8], u32, &[u8]); 5] = [
        (b"e", 5, b"y"),
        (b"c", 3, b"x"),
        (b"d", 4, b"memory2"),
        (b"b", 2, b"x"),
        (b"a", 1, b"y"),
    ];
    let mut functions = Vec::new(alloc);
    for (spelling, offset, name) in names {
        functions.push(plain(alloc, spelling, offset, name)?)?;
    }
    match double(link(alloc, functions, Vec::new(alloc), &[])) {
        Some((name, places)) => {
            assert_eq!(rt; name.as_slice(), b"x".as_slice());
            let offsets: Vec<u32> = places.as_slice().iter().map(|p| p.offset).collect(alloc)?;
            assert_eq!(rt; offsets.as_slice(), [2, 3].as_slice());
        }
        None => assert!(rt; false),
    }
    let taken = vec![in alloc; plain(alloc, b"a", 1, b"memory")?]?;
    match double(link(alloc, taken, Vec::new(alloc), &[])) {
        Some((name, places)) => {
            assert_eq!(rt; name.as_slice(), b"memory".as_slice());
            assert_eq!(rt; places.len(), 1);
        }
        None => assert!(rt; false),
    }
    Ok(())
}

#[test]
fn refuses_an_item_that_is_too_large(rt: HostRuntime) -> Result<(), Fail> {
    let alloc = rt.alloc();
    let item = Item {
        spelling: bytes(alloc, b"d")?,
        item: DataItem::TooLarge,
    };
    let items = vec![in alloc; item]?;
    let answer = link(alloc, Vec::new(alloc), items, &[]);
    let refused = matches!(&answer, Err(LinkFault::DataTooLarge));
    assert!(rt; refused);
    Ok(())
}

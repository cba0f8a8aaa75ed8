// A copy of code with an operand of each kind.
use crate::copies::copy_code;
use std::alloc::{AllocError, Global};
use std::test::Fail;
use wasm_form::{ExternFunction, FnCode, FnType, Instr, Reloc, Symbol, ValType};
use zw_base::{Bytes, Seq};

fn bytes(alloc: Global, text: &[u8]) -> Result<Bytes, AllocError> {
    Ok(Bytes::of(Vec::from_slice(alloc, text)?))
}

fn kind(alloc: Global) -> Result<FnType, AllocError> {
    Ok(FnType {
        params: Seq::of(Vec::from_slice(alloc, &[ValType::I32])?),
        result: Some(ValType::I64),
    })
}

fn relocs(alloc: Global) -> Result<Seq<Reloc>, AllocError> {
    let host = ExternFunction {
        spelling: bytes(alloc, b"m.out")?,
        module_name: bytes(alloc, b"env")?,
        name: bytes(alloc, b"out")?,
        kind: kind(alloc)?,
    };
    let symbols = [
        Symbol::Function(bytes(alloc, b"m.main()")?),
        Symbol::Extern(host),
        Symbol::Data {
            spelling: bytes(alloc, b"m.text")?,
            beyond: 7,
        },
        Symbol::Error(bytes(alloc, b"Missing")?),
    ];
    let mut relocs = Vec::new(alloc);
    for symbol in symbols {
        relocs.push(Reloc {
            place: relocs.len(),
            symbol,
        })?;
    }
    Ok(Seq::of(relocs))
}

#[test]
fn copied_code(rt: HostRuntime) -> Result<(), Fail> {
    let alloc = rt.alloc();
    let code = FnCode {
        kind: kind(alloc)?,
        locals: Seq::of(Vec::from_slice(alloc, &[ValType::I64])?),
        body: Seq::of(Vec::from_slice(alloc, &[Instr::Call(0), Instr::Return])?),
        relocs: relocs(alloc)?,
    };
    let copy = copy_code(alloc, &code)?;
    let text = format!(in alloc; "{code:?}")?;
    let copied = format!(in alloc; "{copy:?}")?;
    assert_eq!(rt; copied.as_str(), text.as_str());
    Ok(())
}

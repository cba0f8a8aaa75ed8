// Copies of code before it is linked.
ghost use Rattle.std.specs.Prelude.{◌≡◌, IfOk};

use std::alloc::{AllocError, Global};
use wasm_form::{ExternFunction, FnCode, FnType, Reloc, Symbol};
use zw_base::{Bytes, FilePath, Seq};

/// The same bytes.
pub(crate) fn copy_bytes(alloc: Global, bytes: &Bytes) -> Result<Bytes, AllocError>
    ensures { IfOk result (λ b. b ≡ bytes.now) }
{
    Ok(Bytes::of(Vec::from_slice(alloc, bytes.as_slice())?))
}

/// The same path.
pub(crate) fn copy_path(path: &FilePath) -> Result<FilePath, AllocError>
    ensures { IfOk result (λ p. p ≡ path.now) }
{
    path.clone()
}

/// The same type of a function.
fn copy_type(alloc: Global, kind: &FnType) -> Result<FnType, AllocError>
    ensures { IfOk result (λ k. k ≡ kind.now) }
{
    Ok(FnType {
        params: Seq::of(Vec::from_slice(alloc, kind.params.as_slice())?),
        result: kind.result,
    })
}

/// The same function of the host's.
fn copy_extern(alloc: Global, function: &ExternFunction) -> Result<ExternFunction, AllocError>
    ensures { IfOk result (λ f. f ≡ function.now) }
{
    Ok(ExternFunction {
        spelling: copy_bytes(alloc, &function.spelling)?,
        module_name: copy_bytes(alloc, &function.module_name)?,
        name: copy_bytes(alloc, &function.name)?,
        kind: copy_type(alloc, &function.kind)?,
    })
}

/// The same symbol.
fn copy_symbol(alloc: Global, symbol: &Symbol) -> Result<Symbol, AllocError>
    ensures { IfOk result (λ s. s ≡ symbol.now) }
{
    Ok(match symbol {
        Symbol::Function(spelling) => Symbol::Function(copy_bytes(alloc, spelling)?),
        Symbol::Extern(function) => Symbol::Extern(copy_extern(alloc, function)?),
        Symbol::Data { spelling, beyond } => Symbol::Data {
            spelling: copy_bytes(alloc, spelling)?,
            beyond: *beyond,
        },
        Symbol::Error(name) => Symbol::Error(copy_bytes(alloc, name)?),
    })
}

/// The same operand that linking fills in.
fn copy_reloc(alloc: Global, reloc: &Reloc) -> Result<Reloc, AllocError>
    ensures { IfOk result (λ r. r ≡ reloc.now) }
{
    Ok(Reloc {
        place: reloc.place,
        symbol: copy_symbol(alloc, &reloc.symbol)?,
    })
}

/// The same operands.
fn copy_relocs(alloc: Global, relocs: &[Reloc]) -> Result<Seq<Reloc>, AllocError>
    ensures { IfOk result (λ r. r ≡ relocs.now) }
{
    let mut copies = Vec::new(alloc);
    for reloc in relocs {
        copies.push(copy_reloc(alloc, reloc)?)?;
    }
    Ok(Seq::of(copies))
}

/// The same code.
pub(crate) fn copy_code(alloc: Global, code: &FnCode) -> Result<FnCode, AllocError>
    ensures { IfOk result (λ c. c ≡ code.now) }
{
    Ok(FnCode {
        kind: copy_type(alloc, &code.kind)?,
        locals: Seq::of(Vec::from_slice(alloc, code.locals.as_slice())?),
        body: Seq::of(Vec::from_slice(alloc, code.body.as_slice())?),
        relocs: copy_relocs(alloc, code.relocs.as_slice())?,
    })
}

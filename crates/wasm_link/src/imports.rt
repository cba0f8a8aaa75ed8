// The functions of the host's that code calls.
ghost use Rattle.std.specs.Prelude.{◌≡◌, IfOk};
ghost use Rattle.std.specs.List.{flat_map, fold};
ghost use Rattle.wasm_link.specs.Imports.{imported, reloc_externs, symbol_externs, with_extern};

use crate::distinct::Distinct;
use crate::named::Function;
use crate::order::sort_externs;
use std::alloc::{AllocError, Global};
use wasm_form::{ExternFunction, Reloc, Symbol};

/// Those that are known, and the one that a symbol is, if it is one.
fn with_symbol(
    called: Distinct<ExternFunction>,
    alloc: Global,
    symbol: &Symbol,
) -> Result<Distinct<ExternFunction>, AllocError>
    ensures { IfOk result (λ d. d ≡ fold with_extern called (symbol_externs symbol.now)) }
{
    match symbol {
        Symbol::Extern(host) => called.with(alloc, host),
        _ => Ok(called),
    }
}

/// Those that are known, and those that operands name.
fn with_calls(
    mut called: Distinct<ExternFunction>,
    alloc: Global,
    relocs: &[Reloc],
) -> Result<Distinct<ExternFunction>, AllocError>
    ensures { IfOk result (λ d. d ≡ fold with_extern called (flat_map reloc_externs relocs.now)) }
{
    for reloc in relocs {
        called = with_symbol(called, alloc, &reloc.symbol)?;
    }
    Ok(called)
}

/// The functions of the host's that code calls, one of each spelling, by module, name and spelling.
pub fn imported(alloc: Global, functions: &[Function]) -> Result<Vec<ExternFunction>, AllocError>
    ensures { IfOk result (λ v. v.items ≡ imported functions.now) }
{
    let mut called = Distinct::new(alloc);
    for function in functions {
        called = with_calls(called, alloc, function.code.relocs.as_slice())?;
    }
    let (_, mut externs) = called.into_parts();
    sort_externs(&mut externs);
    Ok(externs)
}

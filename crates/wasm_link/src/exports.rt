// Exported functions, and a name that stands twice.
ghost use Rattle.std.specs.Prelude.{◌≡◌, ◌++◌, IfOk, OnOk, ◌||◌};
ghost use Rattle.std.specs.Option.{option_copied};
ghost use Rattle.wasm_link.specs.Exports as spec;

use crate::named::{Function, NamedExport, Place};
use crate::operands::low_sum;
use crate::spelled::copy_bytes;
use std::alloc::{AllocError, Global};
use zw_base::Bytes;

/// The name of the memory.
pub const MEMORY: &[u8] = b"memory";

/// Appends a function's export, where it has one.
fn push_export(
    alloc: Global,
    exports: &mut Vec<NamedExport>,
    function: u32,
    export: &Option<Bytes>,
) -> Result<(), AllocError>
    ensures { OnOk result (exports.new.items ≡ exports.old.items ++ spec.function_export function export.now) }
{
    match export {
        None => Ok(()),
        Some(name) => {
            let name = copy_bytes(alloc, name)?;
            exports.push(NamedExport { name, function })?;
            Ok(())
        }
    }
}

/// The exports of functions, the first of which has this number.
pub fn exports_from(
    alloc: Global,
    first: usize,
    functions: &[Function],
) -> Result<Vec<NamedExport>, AllocError>
    ensures { IfOk result (λ v. v.items ≡ spec.exports_from first functions.now) }
{
    let mut exports = Vec::new(alloc);
    for (k, function) in functions.iter().enumerate() {
        push_export(alloc, &mut exports, low_sum(first, k), &function.export)?;
    }
    Ok(exports)
}

/// Whether an export has the memory's name, or that of the next one.
fn is_double(export: &NamedExport, rest: &[NamedExport]) -> bool
    ensures { result ≡ (spec.is_memory export.now.name || spec.begins_with export.now.name rest.now) }
{
    if export.name.as_slice() == MEMORY {
        return true;
    }
    match rest {
        [] => false,
        [next, ..] => next.name.as_slice() == export.name.as_slice(),
    }
}

/// The first name of sorted exports that stands twice, the memory's counted as one more.
pub fn double_name(exports: &[NamedExport]) -> Option<&Bytes>
    ensures { option_copied result ≡ spec.double_name exports.now }
{
    let mut rest = exports;
    while let [export, more @ ..] = rest {
        if is_double(export, more) {
            return Some(&export.name);
        }
        rest = more;
    }
    None
}

fn has_name(name: &Bytes, export: &Option<Bytes>) -> bool
    ensures { result ≡ spec.has_name name.now export.now }
{
    match export {
        None => false,
        Some(own) => own.as_slice() == name.as_slice(),
    }
}

/// Where the functions of a name are declared.
pub fn places_of(
    alloc: Global,
    name: &Bytes,
    functions: Vec<Function>,
) -> Result<Vec<Place>, AllocError>
    ensures { IfOk result (λ v. v.items ≡ spec.places_of name.now functions.items) }
{
    let mut places = Vec::new(alloc);
    for function in functions {
        if has_name(name, &function.export) {
            places.push(function.place)?;
        }
    }
    Ok(places)
}

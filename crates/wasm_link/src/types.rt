// The types of functions, each once.
ghost use Rattle.std.specs.Prelude.{◌≡◌, ◌++◌, ◌∷◌, [], IfOk, OnOk};
ghost use Rattle.wasm_form.specs.Binary.{fn_type_bytes, val_type_bytes, vector_bytes};
ghost use Rattle.wasm_link.specs.Link.{kinds_of, type_index, types_of};

use crate::distinct::{Distinct, Keyed};
use crate::named::Function;
use crate::names::Names;
use crate::operands::low_sum;
use std::alloc::{AllocError, Global};
use wasm_form::{ExternFunction, FnType, TypeIndex, ValType};
use zw_base::{Bytes, Seq};
use zw_bytes::ByteBuf;

/// The byte of a type of values (WebAssembly Core 1.0, section 5.3.1).
fn val_type_byte(kind: ValType) -> u8
    ensures { val_type_bytes kind ≡ result ∷ [] }
{
    match kind {
        ValType::I32 => 0x7f,
        ValType::I64 => 0x7e,
    }
}

/// Appends types of values: how many, and each.
fn put_val_types(kinds: &[ValType], out: &mut ByteBuf) -> Result<(), AllocError>
    ensures { OnOk result (out.new.bytes ≡ out.old.bytes ++ vector_bytes val_type_bytes kinds.now) }
{
    out.reserve(10)?;
    out.put_len(kinds.len());
    for kind in kinds {
        out.reserve(1)?;
        out.put(val_type_byte(*kind));
    }
    Ok(())
}

/// A type is known by its bytes (section 5.3.3).
impl Keyed for FnType {
    ghost key = { fn_type_bytes };

    fn key_bytes(&self, alloc: Global) -> Result<Bytes, AllocError> {
        let mut out = ByteBuf::with_room(alloc, 1)?;
        out.put(0x60);
        put_val_types(self.params.as_slice(), &mut out)?;
        match self.result {
            None => put_val_types(&[], &mut out)?,
            Some(kind) => put_val_types(&[kind], &mut out)?,
        }
        Ok(Bytes::of(out.into_vec()))
    }

    fn copied(&self, alloc: Global) -> Result<FnType, AllocError> {
        Ok(FnType {
            params: Seq::of(Vec::from_slice(alloc, self.params.as_slice())?),
            result: self.result,
        })
    }
}

/// The types of imports and functions, each once, in the order of first use.
pub fn types_of(
    alloc: Global,
    imports: &[ExternFunction],
    functions: &[Function],
) -> Result<Distinct<FnType>, AllocError>
    ensures { IfOk result (λ types. types ≡ types_of (kinds_of imports.now functions.now)) }
{
    let mut types = Distinct::new(alloc);
    for host in imports {
        types = types.with(alloc, &host.kind)?;
    }
    for function in functions {
        types = types.with(alloc, &function.code.kind)?;
    }
    Ok(types)
}

/// The place of a type among types of these bytes.
pub fn type_index(alloc: Global, types: &Names, kind: &FnType) -> Result<TypeIndex, AllocError>
    ensures { IfOk result (λ t. t ≡ type_index types.now kind.now) }
{
    let key = kind.key_bytes(alloc)?;
    Ok(TypeIndex(low_sum(types.find(key.as_slice()), 0)))
}

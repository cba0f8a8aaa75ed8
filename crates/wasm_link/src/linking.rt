// Linking: the module, or why there is none.
ghost use Rattle.std.specs.Prelude.{◌≡◌, ◌∷◌, [], IfOk, length, map};
ghost use Rattle.wasm_form.specs.Binary.{module_bytes};
ghost use Rattle.wasm_link.specs.Imports.{imported};
ghost use Rattle.wasm_link.specs.Laid.{IsLayout};
ghost use Rattle.wasm_link.specs.Link as spec;

use crate::bytes::data_bytes;
use crate::code::codes_of;
use crate::exports::{MEMORY, double_name, exports_from, places_of};
use crate::fault::LinkFault;
use crate::imports::imported;
use crate::layout::{DATA_START, Layout, laid_out};
use crate::named::{Function, Item, NamedExport};
use crate::names::Names;
use crate::operands::Targets;
use crate::order::{sort_exports, sort_functions, sort_items};
use crate::spelled::{copy_bytes, names_of};
use crate::types::{type_index, types_of};
use std::alloc::{AllocError, Global};
use wasm_form::{
    EncodeFault, Export, Exported, ExternFunction, Global as Variable, Import, Instr, Memory,
    Module, Segment, TypeIndex, ValType, encode,
};
use zw_base::{Bytes, Seq};
use zw_bytes::ByteBuf;

/// Where the shadow stack begins: it grows down from where data begins.
const STACK_START: i32 = DATA_START as i32;

/// The bytes of a page.
const PAGE: u32 = 65_536;

/// The most error names: each has a number from 1 on in two bytes.
const MOST_ERRORS: usize = 65_535;

/// The imports with the places of their types.
fn imports_of(
    alloc: Global,
    types: &Names,
    imports: Vec<ExternFunction>,
) -> Result<Vec<Import>, AllocError>
    ensures { IfOk result (λ v. v.items ≡ map (spec.import_of types.now) imports.items) }
{
    let mut list = Vec::new(alloc);
    for host in imports {
        let kind = type_index(alloc, types, &host.kind)?;
        list.push(Import {
            module_name: host.module_name,
            name: host.name,
            kind,
        })?;
    }
    Ok(list)
}

/// The places of the functions' types.
fn type_indices(
    alloc: Global,
    types: &Names,
    functions: &[Function],
) -> Result<Vec<TypeIndex>, AllocError>
    ensures { IfOk result (λ v. v.items ≡ map (λ f. spec.type_index types.now f.code.kind) functions.now) }
{
    let mut list = Vec::new(alloc);
    for function in functions {
        list.push(type_index(alloc, types, &function.code.kind)?)?;
    }
    Ok(list)
}

/// The memory's export, and those of functions.
fn exports_of(alloc: Global, exports: Vec<NamedExport>) -> Result<Vec<Export>, AllocError>
    ensures { IfOk result (λ v. v.items ≡ spec.exports_of exports.items) }
{
    let memory = Export {
        name: Bytes::of(Vec::from_slice(alloc, MEMORY)?),
        what: Exported::Memory(0),
    };
    let mut list = vec![in alloc; memory]?;
    for export in exports {
        list.push(Export {
            name: export.name,
            what: Exported::Function(export.function),
        })?;
    }
    Ok(list)
}

/// The data as one segment; none where there are no bytes.
fn segments_of(alloc: Global, bytes: Vec<u8>) -> Result<Vec<Segment>, AllocError>
    ensures { IfOk result (λ v. v.items ≡ spec.segments_of bytes.items) }
{
    if bytes.is_empty() {
        return Ok(Vec::new(alloc));
    }
    let segment = Segment {
        place: STACK_START,
        bytes: Bytes::of(bytes),
    };
    Ok(vec![in alloc; segment]?)
}

/// The shadow stack's pointer.
fn stack_pointer(alloc: Global) -> Result<Variable, AllocError>
    ensures { IfOk result (λ g. g ≡ spec.stack_pointer) }
{
    Ok(Variable {
        kind: ValType::I32,
        is_mutable: true,
        init: Seq::of(vec![in alloc; Instr::I32Const(STACK_START)]?),
    })
}

/// What operands name.
fn targets_of(
    alloc: Global,
    imports: &[ExternFunction],
    functions: &[Function],
    items: &[Item],
    addresses: Vec<u32>,
    errors: &[Bytes],
) -> Result<Targets, AllocError>
    requires { addresses.items ≡ spec.item_addresses items.now }
    ensures { IfOk result (λ t. t ≡ spec.targets_of imports.now functions.now items.now errors.now) }
{
    Ok(Targets {
        imports: names_of(alloc, imports)?,
        functions: names_of(alloc, functions)?,
        items: names_of(alloc, items)?,
        addresses: Seq::of(addresses),
        errors: names_of(alloc, errors)?,
    })
}

/// The module of functions and items in their order, with their sorted exports.
fn module_of(
    alloc: Global,
    imports: Vec<ExternFunction>,
    exports: Vec<NamedExport>,
    functions: Vec<Function>,
    items: Vec<Item>,
    laid: Layout,
    errors: &[Bytes],
) -> Result<Module, AllocError>
    requires exports { exports.items ≡ spec.sorted_exports (length imports.items) functions.items }
    requires laid { IsLayout items.items laid }
    ensures { IfOk result (λ m. m ≡ spec.module_of imports.items functions.items items.items errors.now) }
{
    let targets = targets_of(alloc, &imports, &functions, &items, laid.addresses, errors)?;
    let (names, types) = types_of(alloc, &imports, &functions)?.into_parts();
    let memory = Memory {
        min_pages: (laid.end + (PAGE - 1)) / PAGE,
    };
    Ok(Module {
        types: Seq::of(types),
        imports: Seq::of(imports_of(alloc, &names, imports)?),
        functions: Seq::of(type_indices(alloc, &names, &functions)?),
        memories: Seq::of(vec![in alloc; memory]?),
        globals: Seq::of(vec![in alloc; stack_pointer(alloc)?]?),
        exports: Seq::of(exports_of(alloc, exports)?),
        codes: Seq::of(codes_of(alloc, &targets, functions)?),
        segments: Seq::of(segments_of(alloc, data_bytes(alloc, &targets, items)?)?),
    })
}

/// The bytes of a module, unless it is too large.
fn encoded(alloc: Global, module: &Module, errors: usize) -> Result<Bytes, LinkFault>
    ensures { spec.Answers result (spec.encoded errors (module_bytes module.now)) }
{
    if errors > MOST_ERRORS {
        return Err(LinkFault::ModuleTooLarge);
    }
    let mut out = ByteBuf::with_room(alloc, 0)?;
    match encode(alloc, module, &mut out) {
        Ok(()) => Ok(Bytes::of(out.into_vec())),
        Err(EncodeFault::TooLarge) => Err(LinkFault::ModuleTooLarge),
        Err(EncodeFault::OutOfMemory) => Err(LinkFault::OutOfMemory),
    }
}

/// Links functions and items in their order, with their sorted exports, whose names differ.
fn link_named(
    alloc: Global,
    imports: Vec<ExternFunction>,
    exports: Vec<NamedExport>,
    functions: Vec<Function>,
    items: Vec<Item>,
    errors: &[Bytes],
) -> Result<Bytes, LinkFault>
    requires imports { imports.items ≡ imported functions.items }
    requires exports { exports.items ≡ spec.sorted_exports (length imports.items) functions.items }
    ensures { spec.Answers result (spec.link_named None functions.items items.items errors.now) }
{
    match laid_out(alloc, &items)? {
        None => Err(LinkFault::DataTooLarge),
        Some(laid) => {
            let module = module_of(alloc, imports, exports, functions, items, laid, errors)?;
            encoded(alloc, &module, errors.len())
        }
    }
}

/// The refusal of a name under which two things are exported.
fn duplicate(alloc: Global, name: Bytes, functions: Vec<Function>) -> LinkFault
    ensures { spec.Answers (Err result) (spec.doubled name functions.items) }
{
    match places_of(alloc, &name, functions) {
        Ok(places) => LinkFault::DuplicateExport {
            name,
            places: Seq::of(places),
        },
        Err(_) => LinkFault::OutOfMemory,
    }
}

/// Links functions and items in their order.
fn link_sorted(
    alloc: Global,
    functions: Vec<Function>,
    items: Vec<Item>,
    errors: &[Bytes],
) -> Result<Bytes, LinkFault>
    ensures { spec.Answers result (spec.link_sorted functions.items items.items errors.now) }
{
    let imports = imported(alloc, &functions)?;
    let mut exports = exports_from(alloc, imports.len(), &functions)?;
    sort_exports(&mut exports);
    if let Some(name) = double_name(&exports) {
        let name = copy_bytes(alloc, name)?;
        return Err(duplicate(alloc, name, functions));
    }
    link_named(alloc, imports, exports, functions, items, errors)
}

/// The bytes of the one module of functions, data items and error names.
///
/// `functions` and `items` may come in any order; `errors` are numbered from 1 in their order. The
/// refusals are tried in the order of `LinkFault`'s variants. An operand that names what is absent
/// is filled with some number, and one that stands at no instruction for it is left out.
pub fn link(
    alloc: Global,
    mut functions: Vec<Function>,
    mut items: Vec<Item>,
    errors: &[Bytes],
) -> Result<Bytes, LinkFault>
    ensures { spec.Answers result (spec.linked functions.items items.items errors.now) }
{
    sort_functions(&mut functions)?;
    sort_items(&mut items)?;
    link_sorted(alloc, functions, items, errors)
}

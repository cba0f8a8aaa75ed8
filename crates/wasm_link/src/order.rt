// Functions, items, imports and exports in their order.
ghost use Rattle.std.specs.Prelude.{◌≡◌, OnOk};
ghost use Rattle.std.specs.List.{IsDistinct};
ghost use Rattle.std.specs.Str.{bytes_eq};
ghost use Rattle.wasm_link.specs.Order.{export_cmp, extern_cmp, extern_spellings, function_cmp, in_order, item_cmp};

use crate::named::{Function, Item, NamedExport};
use std::alloc::AllocError;
use wasm_form::ExternFunction;

/// Sorts functions by spelling; those with one spelling keep their order.
pub fn sort_functions(functions: &mut Vec<Function>) -> Result<(), AllocError>
    ensures { OnOk result (functions.new.items ≡ in_order function_cmp functions.old.items) }
{
    functions.sort_by(|a, b| a.spelling.as_slice().cmp(b.spelling.as_slice()))?;
    Ok(())
}

/// Sorts data items by spelling; those with one spelling keep their order.
pub fn sort_items(items: &mut Vec<Item>) -> Result<(), AllocError>
    ensures { OnOk result (items.new.items ≡ in_order item_cmp items.old.items) }
{
    items.sort_by(|a, b| a.spelling.as_slice().cmp(b.spelling.as_slice()))?;
    Ok(())
}

/// Sorts functions of the host's by module, name and spelling.
pub fn sort_externs(externs: &mut Vec<ExternFunction>)
    requires { IsDistinct bytes_eq (extern_spellings externs.old.items) }
    ensures { externs.new.items ≡ in_order extern_cmp externs.old.items }
{
    externs.sort_unstable_by(|a, b| {
        a.module_name
            .as_slice()
            .cmp(b.module_name.as_slice())
            .then(a.name.as_slice().cmp(b.name.as_slice()))
            .then(a.spelling.as_slice().cmp(b.spelling.as_slice()))
    });
}

/// Sorts exports by name, then by number.
pub fn sort_exports(exports: &mut Vec<NamedExport>)
    ensures { exports.new.items ≡ in_order export_cmp exports.old.items }
{
    exports.sort_unstable_by(|a, b| {
        a.name
            .as_slice()
            .cmp(b.name.as_slice())
            .then(a.function.cmp(&b.function))
    });
}

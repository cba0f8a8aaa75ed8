// Data with its operands filled in.
ghost use Rattle.std.specs.Prelude.{◌≡◌, ◌%◌, ◌^◌, ◌++◌, IfOk, OnOk, replicate};
ghost use Rattle.std.specs.List.{fold};
ghost use Rattle.wasm_link.specs.Operands as spec;

use crate::layout::{DATA_START, item_alignment, padding};
use crate::named::Item;
use crate::operands::Targets;
use std::alloc::{AllocError, Global};
use wasm_form::{DataItem, Reloc, Symbol};

/// Writes bytes over others from a place on, where they fit.
fn overwrite(bytes: &mut Vec<u8>, place: usize, new: &[u8])
    ensures { bytes.new.items ≡ spec.overwritten bytes.old.items place new.now }
{
    if place <= bytes.len() && new.len() <= bytes.len() - place {
        bytes[place..place + new.len()].copy_from_slice(new);
    }
}

/// Fills in one operand.
fn fill_bytes(targets: &Targets, bytes: &mut Vec<u8>, reloc: &Reloc)
    ensures { bytes.new.items ≡ spec.bytes_filled targets.now bytes.old.items reloc.now }
{
    let n = targets.operand(&reloc.symbol);
    match &reloc.symbol {
        Symbol::Error(_) => overwrite(bytes, reloc.place, &low_half(n).to_le_bytes()),
        _ => overwrite(bytes, reloc.place, &n.to_le_bytes()),
    }
}

/// The low 16 bits.
fn low_half(n: u32) -> u16
    ensures { result ≡ n % 2 ^ 16 }
{
    (n % 0x1_0000) as u16
}

/// The bytes of an item with its operands filled in.
fn item_bytes(alloc: Global, targets: &Targets, item: DataItem) -> Result<Vec<u8>, AllocError>
    ensures { IfOk result (λ v. v.items ≡ spec.item_bytes targets.now item) }
{
    match item {
        DataItem::Bytes {
            bytes,
            align: _,
            relocs,
        } => {
            let mut filled = bytes.into_vec();
            for reloc in relocs.as_slice() {
                fill_bytes(targets, &mut filled, reloc);
            }
            Ok(filled)
        }
        DataItem::TooLarge => Ok(Vec::new(alloc)),
    }
}

/// Appends zeros.
fn push_zeros(laid: &mut Vec<u8>, count: u32) -> Result<(), AllocError>
    ensures { OnOk result (laid.new.items ≡ laid.old.items ++ replicate count 0) }
{
    'zeros: for _k in 0..count {
        laid.push(0)?;
    }
    Ok(())
}

/// Appends an item in its place, behind zeros.
fn push_item(
    alloc: Global,
    targets: &Targets,
    laid: &mut Vec<u8>,
    item: Item,
) -> Result<(), AllocError>
    ensures { OnOk result (laid.new.items ≡ spec.with_item targets.now laid.old.items item) }
{
    let address = DATA_START as usize + laid.len();
    push_zeros(laid, padding(address, item_alignment(&item.item)))?;
    let bytes = item_bytes(alloc, targets, item.item)?;
    laid.extend_from_slice(bytes.as_slice())?;
    Ok(())
}

/// The bytes from the data's start to its end, zeros between the items.
pub fn data_bytes(alloc: Global, targets: &Targets, items: Vec<Item>) -> Result<Vec<u8>, AllocError>
    ensures { IfOk result (λ v. v.items ≡ spec.data_bytes targets.now items.items) }
{
    let mut laid = Vec::new(alloc);
    for item in items {
        push_item(alloc, targets, &mut laid, item)?;
    }
    Ok(laid)
}

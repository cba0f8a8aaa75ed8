// Where data items lie in memory.
ghost use Rattle.std.specs.Prelude.{◌≡◌, ◌+◌, ◌<◌, ◌≤◌, IfOk};
ghost use Rattle.wasm_link.specs.Layout.{alignment_bytes, data_limit, data_start, item_alignment, item_len, item_start, padding};
ghost use Rattle.wasm_link.specs.Laid.{EndsAt, LaysOut};

use crate::named::Item;
use std::alloc::{AllocError, Global};
use wasm_form::{Alignment, DataItem};

/// Where data begins: the shadow stack lies below.
pub const DATA_START: u32 = 1_048_576;

/// The greatest end of data: 67,108,864 bytes behind its start.
const DATA_LIMIT: u32 = DATA_START + 67_108_864;

/// The addresses of items, and where the last one ends.
#[derive(Drop)]
pub struct Layout {
    pub addresses: Vec<u32>,
    pub end: u32,
}

fn alignment_bytes(align: Alignment) -> u32
    ensures { result ≡ alignment_bytes align }
{
    match align {
        Alignment::One => 1,
        Alignment::Two => 2,
        Alignment::Four => 4,
        Alignment::Eight => 8,
    }
}

/// What the address of an item is a multiple of.
pub fn item_alignment(item: &DataItem) -> u32
    ensures of { result ≡ item_alignment item.now }
    ensures positive { 1 ≤ result }
    ensures small { result ≤ 8 }
{
    match item {
        DataItem::Bytes {
            bytes: _,
            align,
            relocs: _,
        } => alignment_bytes(*align),
        DataItem::TooLarge => 1,
    }
}

/// How many bytes lie between an address and the next multiple of an alignment.
pub fn padding(address: usize, align: u32) -> u32
    requires { 1 ≤ align }
    ensures of { result ≡ padding address align }
    ensures small { result < align }
{
    (align - (address % align as usize) as u32) % align
}

/// Where an item lies that comes after what ends at this address.
fn item_start(address: u32, item: &DataItem) -> u32
    requires { address ≤ data_limit }
    ensures of { result ≡ item_start address item.now }
    ensures low { address ≤ result }
    ensures small { result < address + 8 }
{
    address + padding(address as usize, item_alignment(item))
}

/// Where an item ends, unless it is beyond the limit.
fn item_end(start: u32, item: &DataItem) -> Option<u32>
    requires low { data_start ≤ start }
    requires high { start < data_limit + 8 }
    ensures { EndsAt start (item_len item.now) result }
{
    match item {
        DataItem::Bytes {
            bytes,
            align: _,
            relocs: _,
        } => end_of(start, bytes.len()),
        DataItem::TooLarge => None,
    }
}

/// The end of so many bytes, unless it is beyond the limit.
fn end_of(start: u32, len: usize) -> Option<u32>
    ensures { EndsAt start len result }
{
    if start <= DATA_LIMIT && len <= (DATA_LIMIT - start) as usize {
        Some(start + len as u32)
    } else {
        None
    }
}

/// Where items lie, unless they end beyond the limit.
pub fn laid_out(alloc: Global, items: &[Item]) -> Result<Option<Layout>, AllocError>
    ensures { IfOk result (LaysOut items.now) }
{
    let mut addresses = Vec::new(alloc);
    let mut end = DATA_START;
    for item in items {
        let start = item_start(end, &item.item);
        addresses.push(start)?;
        match item_end(start, &item.item) {
            None => return Ok(None),
            Some(next) => end = next,
        }
    }
    Ok(Some(Layout { addresses, end }))
}

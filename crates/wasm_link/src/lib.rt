//! Linking: one module from functions, data and error names.
//!
//! The model: functions and data items stand in the module in the order of their spellings, so that
//! the order in which they were worked out changes no byte. The definition `linked` is a function
//! of lists; operands are filled in by name, and no table of the code stands in it.
//! Public calls: `link`, and the law `order_changes_nothing`. The crate stands on `zw_base` (lists, paths), `zw_bytes` (bytes) and
//! `wasm_form` (code before linking, modules and their encoding).
#![tactic(auto)]

mod bytes;
mod code;
mod distinct;
mod exports;
mod fault;
mod imports;
mod laws;
mod layout;
mod linking;
mod named;
mod names;
mod operands;
mod order;
mod spelled;
#[cfg(test)]
mod tests;
mod types;

pub use fault::LinkFault;
pub use laws::order_changes_nothing;
pub use linking::link;
pub use named::{Function, Item, Place};

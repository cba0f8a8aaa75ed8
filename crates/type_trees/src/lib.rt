//! Trees of types and values as analysis handles them: read back from an index, copied, compared;
//! which entry of a table of containers is taken, and operands over indices.
//!
//! The model: the trees are those of `type_form`, and so is what an index denotes.
//! Public calls: `read_ty` and the same for values, declarations, arguments and instances, and
//! `read_bytes`; `copy_ty` and the same for these and for units; `same_ty` and the same;
//! `first_entry`; `of_bytes`, `of_child` and `of_value`, which make a tree of its parts.
//! The crate stands on `type_keys`, `type_form`, `zw_base` and the kit's `sqlite_items`.
#![tactic(auto)]

mod copy;
mod entries;
mod lists;
mod operand;
mod read;
mod same;
mod shape;

pub use copy::{copy_arg, copy_args, copy_decl, copy_instance, copy_ty, copy_unit, copy_value};
pub use entries::first_entry;
pub use lists::read_bytes;
pub use operand::Operand;
pub use read::{read_arg, read_decl, read_instance, read_ty, read_value};
pub use same::{same_arg, same_decl, same_instance, same_ty, same_unit, same_value};
pub use shape::{OfBytes, OfChild, OfValue, of_bytes, of_child, of_value};

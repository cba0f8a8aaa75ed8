//! Units of analysis as trees, read back from the indices that denote them, and their declarations.
//!
//! The model: `unit_at` of `trace_log`, the unit that indices stand for.
//! Public calls: `read_unit`, `is_too_long`, `decl_of`, `instance_decl`. The crate stands on
//! `trace_log`, `type_trees` and the crates below these.
#![tactic(auto)]

mod declaration;
mod length;
mod read;

pub use declaration::{decl_of, instance_decl};
pub use length::is_too_long;
pub use read::read_unit;

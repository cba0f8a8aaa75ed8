//! A session: the files as they stand, and the answer of an update over them.
//!
//! The model: a session is its root's path and its files, a list of pairs of path and bytes in the
//! order of the paths. An update answers what the definition `compile` (`specs/Compile.antt`) says of
//! them, diagnostics of the first case that has any or a module, with the counts of `specs/Counts.antt`.
//! The code goes through the same cases: `front` reads a file stage by stage, once for each text that it
//! has (`sources`), `compile` tries the cases over what `root_analysis` tells of the units, and `placing`
//! puts diagnostics in their places.
//! Public calls: `Session::open`, `set_file`, `update_sole`. The crate stands on the stages of a file
//! (`zig_token`, `zig_parse`, `zir_scope`, `zir_astgen`, `built_forms`, with `zig_tree` and `zir_form`), on
//! `root_analysis` and `unit_reports`, and on `zw_base`, `trace_log`, `wasm_link` and `diag_order`.
#![tactic(auto)]

mod compile;
#[cfg(test)]
mod core_tests;
mod front;
mod placing;
mod session;
mod sources;
#[cfg(test)]
mod tests;

pub use session::{Session, SetFault, Update};

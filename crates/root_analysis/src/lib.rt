//! What the analysis of a root file comes to: its units, round by round, and what they tell.
//!
//! The model: `analysis` (`specs/Analysis.antt`), a function of the root's path and of its front: the
//! units that are demanded from its exported functions and its blocks, their diagnostics, and the
//! functions that are linked.
//! Public call: `analyse_root`. The crate stands on `unit_rounds`, `sema_body`, `wasm_gen`,
//! `unit_outcomes`, `unit_reports`, `pool_plain` and the crates below these.
#![tactic(auto)]

mod analysis;
mod analyst;
mod roots;
mod snapshot;

pub use analysis::{RootAnalysis, analyse_root};

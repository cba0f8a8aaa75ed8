//! What is told of the units that an analysis came to: their diagnostics, the cycles among those that
//! wait for each other, the functions that are linked, and the linker's answer.
//!
//! The model: a report for each known unit, in the order of the units. Cycles are told by the numbers
//! of the units that are waited for, each once, at its unit of least spelling.
//! Public calls: `tell`, `link_told`. The crate stands on `zw_base`, `diag_order`, `pointer_cycles`,
//! `wasm_form` and `wasm_link`.
#![tactic(auto)]

mod answer;
mod parts;
mod report;
mod telling;

pub use answer::{LinkAnswer, link_told};
pub use report::{UnitReport, Waiting};
pub use telling::{Told, tell};

#[cfg(test)]
mod tests;

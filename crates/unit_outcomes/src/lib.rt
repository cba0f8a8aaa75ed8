//! The reports of the units that an analysis came to, read from their results.
//!
//! The model: `report_by`, which says of a unit, its result and the unit that it waits for what is
//! told of it; the units are those that an interner's indices denote.
//! Public call: `reports`. The crate stands on `unit_reports`, `unit_trees`, `trace_log` and the
//! crates below these.
#![tactic(auto)]

mod copies;
mod functions;
mod heads;
mod outcomes;
mod places;
mod spelled;
#[cfg(test)]
mod tests;

pub use outcomes::reports;

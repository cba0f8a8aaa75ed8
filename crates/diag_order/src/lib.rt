//! Diagnostics in their places: what a compilation answers where it gives no module.
//!
//! The model: a `Line` is a diagnostic with its path, line and column, as it is printed. Lines are
//! ordered by path, line, column, code and text. Line and column count from 1; a line ends at LF,
//! and a column counts bytes.
//! Public calls: `sorted`, which places diagnostics, orders them and drops repeats, and `line_col`,
//! which takes no memory. The diagnostics of one file cost one walk over its text.
//! The crate stands on `zw_base` alone.
#![tactic(auto)]

mod line;
mod order;
mod place;
mod sorting;

pub use line::{Diag, Line};
pub use place::line_col;
pub use sorting::sorted;

#[cfg(test)]
mod tests;

//! Cycles of a table of pointers, each told once.
//!
//! The model: a table of places, each of which points at one place or at none. The pointers that
//! lead from a place back to it are a cycle, and each cycle is told at its places of least text.
//! Public call: `least_of_cycles`, which looks at each place and its text a fixed number of times.
//! The crate stands on `zw_base` alone.
#![tactic(auto)]

mod cycles;
mod marking;
mod walks;

pub use cycles::least_of_cycles;

#[cfg(test)]
mod tests;

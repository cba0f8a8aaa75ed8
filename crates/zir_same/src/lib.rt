//! Which lines of two files stand for the same tree.
//!
//! The model: a tree is its label, which is what it is but for the trees below it, and those trees
//! (`specs/Labels.antt`, `told` in `proofs/Labels.antt`). The lines of both files get numbers, so that two
//! lines have one number exactly where they stand for the same tree (`TellsTrees` of `specs/Same.antt`): the
//! number of a line is that of its key, which is its label with the numbers of the lines below it. So each line
//! is looked at once, however often it stands below others, as what a `defer` within a `defer` puts off.
//! Public calls: `SameTrees::of`, `SameTrees::lines`, `SameTrees::parts`; the last two take no memory. The crate
//! stands on `zw_base` and `zir_form`.
#![tactic(auto)]

mod label;
mod same;
#[cfg(test)]
mod tests;
mod words;

pub use same::SameTrees;

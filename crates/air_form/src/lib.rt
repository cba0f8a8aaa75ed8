//! Typed bodies of functions, as analysis makes them and as code is made for them.
//!
//! The model: a typed body is a plain tree of places, scalar and wide expressions and statements
//! (`specs/Typed.antt`). It is kept as nodes (`AirNode`), each over earlier ones, with indices of an
//! interner for types and values; `air_at` is the tree that a node stands for under the pairs that
//! the interner knows, and `body_at` the typed body that a `Body` stands for (`specs/Denote.antt`).
//! The crate stands on `zw_base` and `type_form`.
#![tactic(auto)]

mod body;
mod builder;
mod laws;
mod node;
mod operator;
#[cfg(test)]
mod tests;

pub use body::Body;
pub use builder::AirBuilder;
pub use laws::{growing_keeps_bodies, pushing_keeps_what_stands};
pub use node::{AirNode, AirRef, Callee, Part};
pub use operator::{BinOp, CmpOp, Conversion, UnOp};

//! The code of typed bodies, by a template for each form.
//!
//! The model: the code of a typed body is `body_code` of `elab_form`, a function of the plain tree
//! that the body denotes. Here the body's nodes are read one by one, and types and values are read
//! from an interner. A body with a form that has no template has no code yet: the templates so far
//! are those of known integers and truth values, and of `return`.
//! The unit of the code of an instance asks for the typed body of it and for nothing else: what it
//! does is its program of questions, `elab` of `elab_form`, and an attempt is a run of that.
//! Public calls: `emit`, and `attempt_code`, the attempt of the unit of code.
//! The crate stands on `trace_log`, `unit_trees`, `air_form`, `type_keys`, `wasm_form`, `elab_form`
//! and the crates below these.
#![tactic(auto)]

mod class;
mod constant;
mod function;
mod scalar;
mod statement;
mod unit;

pub use function::emit;
pub use unit::attempt_code;

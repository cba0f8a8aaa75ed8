//! Analysis of units and of their forms: names, whole numbers, coercion to a result type, blocks,
//! `return`; the declarations of constants and functions, and the typed bodies of functions.
//!
//! The model: what a unit does is its program of questions, `elab` of `elab_form`. Here it is run:
//! types, values and declarations are indices of an interner, core trees are lines of a file, the
//! trace notes what was asked, and the typed body is made by an `AirBuilder`. A form's clause says
//! how the run goes on from where it stands, for the trees that its indices denote; so the clause of
//! a form with parts follows from those of its parts, and that of a unit from those of its forms.
//! Public calls: `analyse`, which says how far a unit comes with the answers at hand, and
//! `fit_value`. The crate stands on `elab_form`, `trace_log`, `air_form`, `type_keys`, `unit_trees`
//! and the crates below these.
#![tactic(auto)]

mod asking;
mod attempts;
mod blocks;
mod body;
mod coercion;
mod control;
mod declare;
mod forms;
mod frame;
mod function_body;
mod halt;
mod heads;
mod names;
mod numbers;
mod spelled;
mod trees;
mod units;
mod work;

pub use attempts::analyse;
pub use coercion::{Fit, fit_value};
pub use frame::Frame;
pub use halt::{Halt, Operand};
pub use work::Work;

//! What analysis is: the elaboration of each unit, as a program of questions.
//!
//! The model: a unit of analysis asks questions, about texts of the files and about results of other
//! units, and goes on by the answers alone. Its elaboration, `elab` (`specs/Elab.antt`), is that
//! program, over core trees, plain types, plain values and typed bodies. It knows no files, no index
//! and no cache; what runs of it are, and what results, demanded and stuck units are, stands in
//! `question_runs` for every program.
//!
//! The definitions are read in this order: `Questions` (what is asked and answered, what a unit
//! gives), `State` (operands, and what elaboration remembers), `Asking` (the words that forms are
//! written in), then the forms in groups, `Names`, `Numbers`, `Coercion`, `Control`, then `Elab`
//! (which form is which) and `Units` (what a unit does with its text).
//! The crate has definitions alone. It stands on `question_runs`, `zir_form`, `type_form`,
//! `int_ops` and `air_form`.
#![tactic(auto)]

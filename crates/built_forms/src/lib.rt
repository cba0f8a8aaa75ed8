//! Which forms of the language are built, and the first form of a file that is not: there a file is
//! refused (E000) before anything of it is analysed.
//!
//! The model: a file's tree is a row of tokens and forms, each form with its rule and the row that it
//! holds (`zig_tree`'s `Syntax`). `is_built` has one case a rule; it is the one table that each further
//! form of the language shortens, until the crate can go.
//! Public calls: `first_unbuilt`. The crate stands on `zw_base`, `zig_tree`, `zir_form` and `zir_scope`.
#![tactic(auto)]

mod built;
mod rows;
mod unbuilt;

pub use unbuilt::first_unbuilt;

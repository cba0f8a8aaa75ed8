//! The parser of Zig's text: from the tokens of a file to its tree, or to the token that no sentence
//! of the grammar goes on with.
//!
//! The model: `zig_tree`'s rules as data. A first pass follows every way to read the tokens, a few at
//! a time, and finds the refused token or which way holds; a second pass takes that way and builds
//! its tree. `parse_of` is both passes as one function on lists. What a tree of it holds is derived by
//! the grammar's rules, token by token (`specs/Trees.antt`).
//! Public calls: `parse`. `one_tree`, `one_answer`, `derived_is_sentence`, `chosen_is_sure`,
//! `tree_is_derived`, `moves_suffice`, `last_look`, `led_begins`, `ended_begins` and `evenly_begins` are laws without code (`specs/Laws.antt`). The crate stands on
//! `zig_tree` and `zw_base`.
#![tactic(auto)]

mod built;
mod choice;
mod fault;
mod grow;
mod laws;
mod parser;
mod settle;
mod stack;
mod state;
mod survey;
mod thread;

pub use fault::SyntaxFault;
pub use laws::{
    chosen_is_sure, derived_is_sentence, ended_begins, evenly_begins, last_look, led_begins,
    moves_suffice, one_answer, one_tree, tree_is_derived,
};
pub use parser::parse;

#[cfg(test)]
mod tests;

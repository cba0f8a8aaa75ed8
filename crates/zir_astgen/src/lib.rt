//! The core tree of a file, what its literals stand for, and what is wrong with its builtins (E206 and E207).
//!
//! The model of builtins: each has a name and a number of arguments, by the table of `zir_form`. A call
//! (`specs/Calls.antt`) of another name, or with another number of arguments, is E207; an `@import` of
//! anything but one string literal is E206; each other `@import` names a file. A literal stands for a number (`specs/Numbers.antt`) or for bytes
//! (`specs/Values.antt`), read from the bytes of its token; laws of `values` say that this is what the
//! items of the token stand for (`specs/TokenValues.antt`).
//! The core tree of a file is `core_file` (`specs/Files.antt`): `entries` (`specs/Outline.antt`) lists its
//! declarations and containers, and `tree_at` (`specs/Trees.antt`) is the tree of a part. `walk` goes along
//! a row and gives each node its tree by `made_by`, one case for each rule of the grammar, from the trees of
//! what it holds; what lies around (`specs/Levels.antt`, `specs/Stages.antt`) is passed down by itself:
//! the functions, loops and blocks that can be left, with what is put off in each.
//! The code keeps to the same order: `core_tree` has the public call, `entries` and `declaring` put a row
//! into the file's tables for each part, `part_tree` has a part's tree written, and `walk` writes it as
//! lines, children first, with one method of `Writer` for each rule.
//! Public calls: `astgen`, near-linear in the file; those of `values`, each linear in its token; and laws
//! on the definitions. The crate stands on `zw_base`, `zig_tree`, `zir_form` and `zir_scope`.
#![tactic(auto)]

mod around;
mod asking;
mod atoms;
mod calls;
mod captured;
mod chains;
mod content;
mod control;
mod core_tree;
mod declarations;
mod declaring;
mod entries;
mod exit;
mod file;
mod fingerprint;
mod given;
mod imports;
mod laws;
mod leaving;
mod levels;
mod linked;
mod made;
mod meant;
mod mentions;
mod named_values;
mod operators;
mod outline;
mod part_tree;
mod piece;
mod places;
mod primary;
mod reading;
mod rows;
mod sheet;
mod source;
mod stage;
mod start;
mod statements;
mod suffix;
mod types;
pub mod values;
mod walk;
mod words;
mod writer;
mod writing;

pub use core_tree::{AstGenOut, astgen};
pub use laws::{
    nothing_declares_nothing, places_count_from_the_first_token, what_a_container_holds_is_apart,
    what_is_put_off_runs_backwards,
};

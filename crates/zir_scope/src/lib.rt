//! What each name of a file stands for, and what is wrong with its names: scopes, as environments on
//! the tree.
//!
//! The model (`specs/Scoping.antt`): at each place of a tree some locals and declarations are in scope,
//! some blocks and loops can be left, and the row of parts that it lies in is read in one way; `within`
//! says what holds within a node, `past_node` and `past_word` what holds behind a part. A name stands for
//! the local in scope with that name, else for a declaration of the innermost container around that has
//! one, else for a primitive. `walk` lists what is found in the order of the text, and
//! `specs/Findings.antt` what of it is a diagnostic. Names are compared by number: that of the first
//! identifier with the same name.
//! Public calls: `resolve` and `found_at`. `resolve` is linear in the file: a name in scope is found in constant time (`Bindings`).
//! The crate stands on `zw_base`, `zig_tree` and `zir_form`.
#![tactic(auto)]

mod binders;
mod bindings;
mod captures;
mod changes;
mod declare;
mod enter;
mod event;
mod facts;
mod findings;
mod names;
mod outline;
mod place;
mod roles;
mod rows;
mod scope;
mod scopes;
#[cfg(test)]
mod tests;
mod walk;
mod words;

pub use captures::Capture;
pub use event::{Event, Sort, Target};
pub use facts::{Fact, facts_of};
pub use findings::found_at;
pub use outline::Outline;
pub use roles::Role;
pub use scopes::{Scopes, resolve};

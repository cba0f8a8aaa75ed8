//! The plain interner: an ordered map from keys to indices, and the keys in the order of their
//! indices.
//!
//! The model: a `PlainPool` is the list of its keys, and an index is a place in it, from 0. It
//! answers OutOfMemory and never Full; finding and interning cost a look-up in the map.
//! Public calls: `PlainPool::new`, and those of the traits `Keys` and `Interner`.
//! The crate stands on `type_form` and the kit's `sqlite_items`.
#![tactic(auto)]

mod pool;
#[cfg(test)]
mod tests;

pub use pool::PlainPool;

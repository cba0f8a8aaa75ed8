//! Keys as words, and one call for each kind of key, which says what its index denotes.
//!
//! The model is that of `type_form`: a key is one layer of a tree with indices in place of its
//! parts, and its words are the number of its kind and what it holds. A list stands in chunks of 60
//! numbers, so every key has at most 64 words.
//! Public calls: `words_of` and `key_of`, which are inverse; `intern_key` and one builder for each
//! kind in `types`, `values` and `decls`; `intern_list`, `intern_bytes`, `read_list`; `key_behind`,
//! `ty_key` and its kin, which go one layer down.
//! The crate stands on `type_form` and, in its tests, on `zw_base`.
#![tactic(auto)]

mod build;
mod intern;
mod lists;
mod reads;
#[cfg(test)]
mod tests;
mod words;

pub use build::{decls, types, values};
pub use intern::intern_key;
pub use lists::{intern_bytes, intern_list, longer_list, read_list, short_list};
pub use reads::{arg_key, decl_key, instance_key, key_behind, list_key, ty_key, value_key};
pub use words::{BadWords, key_of, words_of};

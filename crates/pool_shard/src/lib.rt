//! A pool of keys in shards, each a part of one table of words: rows, and levels of slots by which
//! a row is found.
//!
//! The model: what a seat knows, the list `known` of pairs of index and key. `PoolRows` has one seat,
//! which writes every shard; a `Pool` is shared among seats, with a lock for each shard's writer,
//! and `PoolName` names it.
//! Public calls: `PoolRows::open`, `shards`, `words`, `find`, `key_into`, `intern`, `split`, `join` and
//! `same_key`; `Pool::share`, `find`, `key_into`, `intern`, `split`, `join` and `close`;
//! `RawSeat::same_key`.
//! The crate stands on `pool_words`, `type_form` and `zw_base`.
#![tactic(auto)]

mod add;
mod find;
mod gather;
mod hash;
mod look;
mod name;
mod pool;
mod probe;
mod rows;
mod seat;
#[cfg(test)]
mod tests;
mod write;
mod writer;

pub use hash::hash_key;
pub use name::PoolName;
pub use pool::{Pool, ShareFault};
pub use rows::{Full, PoolRows};
pub use seat::RawSeat;

//! The words of a pool of keys, under the rule that keeps it sound while many read and one writes
//! a shard.
//!
//! The model: the words, and the log of the rows that were published. A seat's view is the pool as
//! it was at the seat's last step, and the shards whose one writer it is.
//! Public calls: one function for each kind of step, `load`, `store_private`, `fill`, `move_head`,
//! `publish`, `split`, `hand_over`, `join` and `gather`, and `open`, which makes the words.
//! The crate stands on the kit's `atomic_table`.
#![tactic(auto)]

mod steps;
#[cfg(test)]
mod tests;
mod view;

pub use steps::{
    fill, gather, hand_over, join, load, move_head, open, publish, split, store_private,
};
pub use view::{Layout, PoolRule, View, WordSeat, Words};

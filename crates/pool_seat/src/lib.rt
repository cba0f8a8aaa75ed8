//! Seats at a pool, through which it is an interner.
//!
//! The model: a seat is what it knows, the list of pairs of index and key, and the number of its
//! Full answers. A `SoleSeat` has a pool's rows alone, a `PoolSeat` is one of many at a shared pool,
//! and a `Note` is a copy of what a seat knew.
//! Public calls: `new`, `note`, `meet` and `agree` of both seats, `SoleSeat::into_rows`,
//! `PoolSeat::into_parts`, `Note::into_seat`, and those of the traits `Keys` and `Interner`; `rehome`,
//! which moves rows that are still in use to another pool; and the law `what_moves_stays_the_same`.
//! The crate stands on `pool_shard`, `type_form` and `zw_base`.
#![tactic(auto)]

mod home;
#[cfg(test)]
mod homes;
mod laws;
mod mover;
mod note;
mod seat;
mod sole;
#[cfg(test)]
mod tests;
#[cfg(test)]
mod threads;

pub use home::{RehomeFault, Rehomed, rehome};
pub use laws::what_moves_stays_the_same;
pub use note::Note;
pub use seat::PoolSeat;
pub use sole::SoleSeat;

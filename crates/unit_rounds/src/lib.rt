//! Analysis by rounds: from root units on, each round attempts the known units that can have moved,
//! with the results of the rounds before it.
#![tactic(auto)]

mod analyse;
mod analyst;
mod known_units;
mod round;
mod settle;

pub use analyse::{Rest, Rounds, analyse_all};
pub use analyst::Analyst;
pub use known_units::KnownUnits;

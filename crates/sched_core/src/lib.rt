//! The scheduling machine: which units of analysis are known, who has which, which wait for
//! others, and which are done.
//!
//! The model: a log of events, the newest first. Which events may happen, and where the units then
//! stand, is the replay of the log, by one table of five kinds of event.
//! Public calls: `Machine::new`, `reserve`, `step`, `is_enabled`, `stand`, `len`, `log`; a `Ticket`
//! is given by the claim of a unit alone, and spent by the work.
//! The crate stands on nothing of the repository.
#![tactic(auto)]

mod event;
mod machine;
mod tables;
#[cfg(test)]
mod tests;
mod ticket;

pub use event::{Event, Kind, MOST_UNITS, Stand};
pub use machine::{Machine, NoStep};
pub use ticket::{CheckTicket, Spent, Ticket, WorkTicket};

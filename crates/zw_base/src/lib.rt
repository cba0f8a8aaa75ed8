//! What every layer of zwatch shares: lists that contracts see as lists, places in a file, paths,
//! diagnostic codes, limits on files and scripts, and the outside (files and a source that are read, a sink that is written,
//! listeners that are told, a gate where a test holds a worker) as traits.
//!
//! The model: a path is the list of its bytes; a `Files` tells, where it can, a map from path to
//! bytes; a `Source` tells, where it can, the bytes that are left, a `Sink` those that it has taken;
//! a `Listener` has the list of reports that it has heard; each counts its faults.
//! Public calls: `FilePath::of`, `Files::read`, `Source::read`, `Sink::write`, `Listener::told`, the
//! three of `Gate`, and the objects in memory that meet those traits. The crate stands on `std` and `thiserror` alone.
#![tactic(auto)]

mod diag;
mod files;
mod gate;
pub mod limits;
mod listener;
mod path;
mod plan;
mod reason;
mod seq;
mod sink;
mod source;
mod status;
#[cfg(test)]
mod tests;

pub use diag::{DiagCode, Found, Span};
pub use files::{Fetched, Files, MemFiles, SureFiles};
pub use gate::{Gate, NoGate};
pub use limits::{LIMITS, Limits, Tally};
pub use listener::{Listener, MemListener, Outcome, Report};
pub use path::{FilePath, FileSizes, FileTexts, PathFault};
pub use reason::Reason;
pub use seq::{Bytes, Seq};
pub use sink::{Failed, MemSink, Sink, SureSink};
pub use source::{MemSource, Source, SureSource};
pub use status::{Status, Which};

// What is told of a unit.
use wasm_link::Function;
use zw_base::{Bytes, Found};

/// A unit that waits for another one.
#[derive(Debug, Drop)]
pub struct Waiting {
    /// The number of the unit that it waits for.
    pub next: u32,
    /// Its spelling.
    pub text: Bytes,
    /// What is told of it where it is the least of a cycle.
    pub found: Found,
}

/// What is told of a unit.
#[derive(Debug, Drop)]
pub enum UnitReport {
    /// Nothing: its result is good and no code, or an answer failed it.
    Silent,
    /// It failed with this diagnostic.
    Failed(Found),
    /// Its code, as it is linked.
    Code(Function),
    /// It has no result.
    Waits(Waiting),
}

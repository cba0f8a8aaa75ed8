// How far a unit comes with the answers that are there.
use crate::question::UnitIndex;
use crate::result::UnitResult;
use crate::trace::Trace;

/// Where the run of a unit ends.
#[derive(Drop)]
pub enum Outcome {
    /// With a result.
    Done(UnitResult),
    /// For want of the result of this unit.
    Needs(UnitIndex),
}

/// How far a unit came, and what it asked and referred to on the way.
#[derive(Drop)]
pub struct Attempt {
    pub outcome: Outcome,
    pub trace: Trace,
}

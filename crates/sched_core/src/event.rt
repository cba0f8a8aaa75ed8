//! The events of a schedule, and the stands of units.

/// So many units may be known at most.
pub const MOST_UNITS: usize = 65_536;

/// What a claim is for.
#[derive(Clone, Copy, Debug, PartialEq, Eq)]
pub enum Kind {
    /// The unit is to be analysed.
    Work,
    /// The trace that was kept of the unit is to be compared with the answers now.
    Check,
    /// The unit is clean: its kept result serves again, and nobody works on it.
    Kept,
}

/// One step of the schedule, over numbers of units, workers and results.
#[derive(Clone, Copy, Debug, PartialEq, Eq)]
pub enum Event<U = u32, R = u32> {
    /// The unit becomes known.
    Demand { unit: U },
    /// The worker takes the unit.
    Claim { worker: u32, unit: U, kind: Kind },
    /// The worker puts the unit back until `on` is done.
    Need { worker: u32, unit: U, on: U },
    /// The worker is done with the unit.
    Finish { worker: u32, unit: U, result: R },
    /// The unit of the worker is to be claimed anew.
    Reclaim { worker: u32 },
}

/// Where a known unit stands.
#[derive(Clone, Copy, Debug, PartialEq, Eq)]
pub enum Stand<U = u32, R = u32> {
    /// It may be claimed.
    Queued,
    /// This worker has it.
    Claimed(u32),
    /// It goes on once this unit is done.
    Waiting(U),
    /// It has this result.
    Done(R),
}

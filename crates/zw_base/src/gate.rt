// Where a test can hold a worker.

/// Is told of a worker's steps, and may hold it there. It changes no answer.
pub trait Gate {
    /// After the worker got the unit to work on. No lock is held.
    fn at_claim(&self, worker: u32, unit: u32);

    /// After the worker handed the unit's result in. No lock is held.
    fn at_finish(&self, worker: u32, unit: u32);

    /// When a key is interned in the shard, whose lock is held.
    fn at_publish(&self, shard: u32);
}

/// A gate that holds no one.
#[derive(Clone, Copy, Debug, PartialEq, Eq)]
pub struct NoGate;

impl Gate for NoGate {
    fn at_claim(&self, _worker: u32, _unit: u32) {}

    fn at_finish(&self, _worker: u32, _unit: u32) {}

    fn at_publish(&self, _shard: u32) {}
}

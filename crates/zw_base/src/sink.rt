// A sink that is written: the trait, and the objects in memory that meet it.
ghost use Rattle.std.specs.Prelude.{◌≡◌, ◌≤◌, ◌<◌, ◌+◌, ℕ, List, [], Option, Some, None, length, if◌then◌else◌, IfOk, OnErr, Ok, Err, ◌++◌};
ghost use Rattle.std.specs.Vec.{vec_len, vec_capacity};
ghost use Rattle.zw_base.specs.Outside.{Rose, taken_after};

use crate::plan::FaultPlan;
use crate::seq::Seq;
use std::alloc::{AllocError, Global};
use std::marker::Model;
use thiserror::Error;

/// A call to the outside failed.
#[derive(Clone, Copy, Debug, PartialEq, Eq, Error)]
#[error("a call to the outside failed")]
pub struct Failed;

/// A sink that takes bytes.
pub trait Sink {
    /// The bytes that it has taken, where that is told.
    ghost taken: { Self → Option (List ℕ) };

    /// How often writing has failed. The number never falls.
    ghost faults: { Self → ℕ };

    /// Offers a piece, of which the sink takes the first bytes, at least one where there is one, and
    /// says how many. At `Failed` it has taken none.
    fn write(&mut self, bytes: &[u8]) -> Result<usize, Failed>
        ensures count { IfOk result (λ n. n ≤ length bytes.now) }
        ensures some { IfOk result (λ n. 0 < length bytes.now → 1 ≤ n) }
        ensures taken { taken self.new ≡ taken_after (taken self.old) bytes.now result }
        ensures faults { faults self.old ≤ faults self.new }
        ensures failed { OnErr result (Rose (faults self.old) (faults self.new)) };
}

/// A sink that drops what it takes, and of which no call fails.
#[derive(Clone, Copy, Debug, PartialEq, Eq)]
pub struct SureSink;

impl Sink for SureSink {
    ghost taken = { λ _. None };

    ghost faults = { λ _. 0 };

    fn write(&mut self, bytes: &[u8]) -> Result<usize, Failed>
        ensures { result ≡ Ok (length bytes.now) }
    {
        Ok(bytes.len())
    }
}

/// A sink in memory, of a fixed room, so that its calls take no memory.
#[derive(Debug, Drop)]
pub struct MemSink {
    taken: Vec<u8>,
    room: usize,
    most: usize,
    plan: FaultPlan,
}

impl Model for MemSink {
    ghost use Rattle.std.specs.Prelude.{◌≡◌, ◌≤◌, ◌+◌};
    ghost use Rattle.std.specs.Vec.{vec_len, vec_capacity};
    ghost use Rattle.zw_base.specs.SinkState.{SinkState};

    ghost Value = { SinkState };

    ghost view = { λ s. record { taken = s.taken.items; room = s.room; most = s.most; plan = s.plan } };

    ghost invariant = { λ s. (vec_len s.taken + s.room ≤ vec_capacity s.taken) × (1 ≤ s.most) };
}

impl MemSink {
    /// A sink that takes `room` bytes in all and `most` in a call, and fails at the calls with these
    /// numbers, counted from 1.
    pub fn new(
        alloc: Global,
        room: usize,
        most: usize,
        failing: Seq<u64>,
    ) -> Result<MemSink, AllocError>
        requires { 1 ≤ most }
        ensures { IfOk result (λ s. s ≡ record { taken = []; room = room; most = most; plan = record { failing = failing; calls = 0; faults = 0 } }) }
    {
        let taken = Vec::with_capacity(alloc, room)?;
        Ok(MemSink {
            taken,
            room,
            most,
            plan: FaultPlan::new(failing),
        })
    }

    /// What it has taken.
    pub fn taken(&self) -> &[u8]
        ensures { result.now ≡ self.now.taken }
    {
        self.taken.as_slice()
    }
}

impl Sink for MemSink {
    ghost use Rattle.zw_base.specs.SinkState.{written_of, after_write};

    ghost taken = { λ s. Some s.taken };

    ghost faults = { λ s. s.plan.faults };

    fn write(&mut self, bytes: &[u8]) -> Result<usize, Failed>
        ensures count { IfOk result (λ n. n ≤ length bytes.now) }
        ensures some { IfOk result (λ n. 0 < length bytes.now → 1 ≤ n) }
        ensures taken { Some self.new.taken ≡ taken_after (Some self.old.taken) bytes.now result }
        ensures faults { self.old.plan.faults ≤ self.new.plan.faults }
        ensures failed { OnErr result (Rose self.old.plan.faults self.new.plan.faults) }
        ensures exact { result ≡ written_of self.old bytes.now }
        ensures after { self.new ≡ after_write self.old bytes.now }
    {
        if self.plan.call() {
            return Err(Failed);
        }
        if !bytes.is_empty() && self.room == 0 {
            self.plan.fault();
            return Err(Failed);
        }
        let portion = bytes.len().min(self.most).min(self.room);
        append(&mut self.taken, &bytes[..portion]);
        self.room -= portion;
        Ok(portion)
    }
}

/// Appends bytes for which there is room.
fn append(taken: &mut Vec<u8>, bytes: &[u8])
    requires { vec_len taken.old + length bytes.now ≤ vec_capacity taken.old }
    ensures items { taken.new.items ≡ taken.old.items ++ bytes.now }
    ensures room { vec_capacity taken.new ≡ vec_capacity taken.old }
    ensures len { vec_len taken.new ≡ vec_len taken.old + length bytes.now }
{
    for b in bytes {
        taken.push_reserved(*b);
    }
}

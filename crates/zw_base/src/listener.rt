// Listeners that are told what each update answered: the trait, and the object in memory that meets it.
ghost use Rattle.std.specs.Prelude.{◌≡◌, ◌≤◌, ℕ, List, [], ◌∷◌, ◌++◌, OnOk, OnErr, IfOk};
ghost use Rattle.zw_base.specs.Outside.{Rose, one_call_more};

use crate::plan::FaultPlan;
use crate::seq::Seq;
use crate::sink::Failed;
use std::alloc::{AllocError, Global};
use std::marker::Model;

/// What an update answered.
#[derive(Clone, Copy, Debug, PartialEq, Eq)]
pub enum Outcome {
    /// A module of `len` bytes.
    Module { len: u64 },
    /// As many diagnostics.
    Errors { count: u32 },
    /// There was no memory.
    Memory,
}

/// What listeners are told after an update's answer is written.
#[derive(Clone, Copy, Debug, PartialEq, Eq)]
pub struct Report {
    /// The update's number, counted from 1.
    pub number: u32,
    pub outcome: Outcome,
    /// How many units were analysed; 0 where there was no memory.
    pub analysed: u32,
    /// How many units were taken over from the update before; 0 where there was no memory.
    pub reused: u32,
}

/// A listener that is told reports.
pub trait Listener: Drop {
    ghost use Rattle.std.specs.Prelude.{◌≡◌, ◌≤◌, ℕ, List, [], ◌∷◌, ◌++◌, OnOk, OnErr};
    ghost use Rattle.zw_base.specs.Outside.{Rose, one_call_more};
    ghost use Rattle.zw_base.specs.declared.listener.Report.{Report};

    /// The reports that it has heard.
    ghost heard: { Self → List Report };

    /// How often telling has failed. The number never falls.
    ghost faults: { Self → ℕ };

    /// How often it was told. The number stands still at its type's end.
    ghost calls: { Self → ℕ };

    /// Tells a report. At `Failed` it has not heard it.
    fn told(&mut self, report: &Report) -> Result<(), Failed>
        ensures heard { OnOk result (heard self.new ≡ heard self.old ++ report.now ∷ []) }
        ensures unheard { OnErr result (heard self.new ≡ heard self.old) }
        ensures faults { faults self.old ≤ faults self.new }
        ensures failed { OnErr result (Rose (faults self.old) (faults self.new)) }
        ensures counted { calls self.new ≡ one_call_more (calls self.old) };
}

/// A listener in memory, of a fixed room, so that its calls take no memory.
#[derive(Debug, Drop)]
pub struct MemListener {
    heard: Vec<Report>,
    room: usize,
    plan: FaultPlan,
}

impl Model for MemListener {
    ghost use Rattle.std.specs.Prelude.{◌≤◌, ◌+◌};
    ghost use Rattle.std.specs.Vec.{vec_len, vec_capacity};
    ghost use Rattle.zw_base.specs.Hearing.{ListenerState};

    ghost Value = { ListenerState };

    ghost view = { λ s. record { heard = s.heard.items; room = s.room; plan = s.plan } };

    ghost invariant = { λ s. vec_len s.heard + s.room ≤ vec_capacity s.heard };
}

impl MemListener {
    /// A listener that takes `room` reports in all, and fails at the calls with these numbers, counted
    /// from 1.
    pub fn new(alloc: Global, room: usize, failing: Seq<u64>) -> Result<MemListener, AllocError>
        ensures { IfOk result (λ s. s ≡ record { heard = []; room = room; plan = record { failing = failing; calls = 0; faults = 0 } }) }
    {
        let heard = Vec::with_capacity(alloc, room)?;
        Ok(MemListener {
            heard,
            room,
            plan: FaultPlan::new(failing),
        })
    }

    /// The reports that it has heard.
    pub fn heard(&self) -> &[Report]
        ensures { result.now ≡ self.now.heard }
    {
        self.heard.as_slice()
    }
}

impl Listener for MemListener {
    ghost use Rattle.zw_base.specs.Hearing.{told_of, after_told};

    ghost heard = { λ s. s.heard };

    ghost faults = { λ s. s.plan.faults };

    ghost calls = { λ s. s.plan.calls };

    fn told(&mut self, report: &Report) -> Result<(), Failed>
        ensures heard { OnOk result (self.new.heard ≡ self.old.heard ++ report.now ∷ []) }
        ensures unheard { OnErr result (self.new.heard ≡ self.old.heard) }
        ensures faults { self.old.plan.faults ≤ self.new.plan.faults }
        ensures failed { OnErr result (Rose self.old.plan.faults self.new.plan.faults) }
        ensures counted { self.new.plan.calls ≡ one_call_more self.old.plan.calls }
        ensures exact { result ≡ told_of self.old }
        ensures after { self.new ≡ after_told self.old report.now }
    {
        if self.plan.call() {
            return Err(Failed);
        }
        if self.room == 0 {
            self.plan.fault();
            return Err(Failed);
        }
        self.heard.push_reserved(*report);
        self.room -= 1;
        Ok(())
    }
}

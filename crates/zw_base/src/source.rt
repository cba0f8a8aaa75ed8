// A source that is read: the trait, and the objects in memory that meet it.
ghost use Rattle.std.specs.Prelude.{◌≡◌, ◌≤◌, ◌<◌, ℕ, List, [], Option, Some, length, take, drop, min, IfOk, OnErr, IfSome, Ok, ◌++◌};
ghost use Rattle.zw_base.specs.Outside.{Rose};
ghost use Rattle.zw_base.specs.Reading.{left_before};

use crate::plan::FaultPlan;
use crate::seq::{Bytes, Seq};
use crate::sink::Failed;
use std::marker::Model;

/// A source of bytes.
pub trait Source {
    /// The bytes that are still to come, where that is told.
    ghost left: { Self → Option (List ℕ) };

    /// How often reading has failed. The number never falls.
    ghost faults: { Self → ℕ };

    /// Puts the next bytes into the front of the buffer, and says how many they are: none only at the
    /// end, or where the buffer is empty. At `Failed` it has given none.
    fn read(&mut self, into: &mut [u8]) -> Result<usize, Failed>
        ensures count { IfOk result (λ n. n ≤ length into.old) }
        ensures left { left self.old ≡ left_before (left self.new) into.new result }
        ensures end { IfOk result (λ n. n ≡ 0 → 0 < length into.old → IfSome (left self.old) (λ bytes. bytes ≡ [])) }
        ensures faults { faults self.old ≤ faults self.new }
        ensures failed { OnErr result (Rose (faults self.old) (faults self.new)) };
}

/// A source in memory, of which no call fails, and which gives as many bytes in a call as it is asked for.
#[derive(Debug, Drop)]
pub struct SureSource {
    bytes: Bytes,
    at: usize,
}

impl Model for SureSource {
    ghost use Rattle.std.specs.Prelude.{List, ℕ, drop, length, ◌≤◌};

    ghost Value = { List ℕ };

    ghost view = { λ s. drop s.at s.bytes };

    ghost invariant = { λ s. s.at ≤ length s.bytes };
}

impl SureSource {
    pub fn new(bytes: Bytes) -> SureSource
        ensures { result ≡ bytes }
    {
        SureSource { bytes, at: 0 }
    }
}

impl Source for SureSource {
    ghost left = { λ s. Some s };

    ghost faults = { λ _. 0 };

    fn read(&mut self, into: &mut [u8]) -> Result<usize, Failed>
        ensures count { IfOk result (λ n. n ≤ length into.old) }
        ensures left { Some self.old ≡ left_before (Some self.new) into.new result }
        ensures end { IfOk result (λ n. n ≡ 0 → 0 < length into.old → IfSome (Some self.old) (λ bytes. bytes ≡ [])) }
        ensures exact { result ≡ Ok (min (length into.old) (length self.old)) }
    {
        let wanted = into.len();
        let portion = give(&self.bytes.as_slice()[self.at..], wanted, into);
        self.at += portion;
        Ok(portion)
    }
}

/// A source in memory, of which the calls that a list of numbers names fail.
#[derive(Debug, Drop)]
pub struct MemSource {
    bytes: Bytes,
    at: usize,
    most: usize,
    plan: FaultPlan,
}

impl Model for MemSource {
    ghost use Rattle.std.specs.Prelude.{drop, length, ◌≤◌};
    ghost use Rattle.zw_base.specs.Reading.{SourceState};

    ghost Value = { SourceState };

    ghost view = { λ s. record { left = drop s.at s.bytes; most = s.most; plan = s.plan } };

    ghost invariant = { λ s. (s.at ≤ length s.bytes) × (1 ≤ s.most) };
}

impl MemSource {
    /// A source that gives `most` bytes in a call at most, and fails at the calls with these numbers,
    /// counted from 1.
    pub fn new(bytes: Bytes, most: usize, failing: Seq<u64>) -> MemSource
        requires { 1 ≤ most }
        ensures { result ≡ record { left = bytes; most = most; plan = record { failing = failing; calls = 0; faults = 0 } } }
    {
        MemSource {
            bytes,
            at: 0,
            most,
            plan: FaultPlan::new(failing),
        }
    }
}

impl Source for MemSource {
    ghost use Rattle.zw_base.specs.Reading.{read_of, after_read};

    ghost left = { λ s. Some s.left };

    ghost faults = { λ s. s.plan.faults };

    fn read(&mut self, into: &mut [u8]) -> Result<usize, Failed>
        ensures count { IfOk result (λ n. n ≤ length into.old) }
        ensures left { Some self.old.left ≡ left_before (Some self.new.left) into.new result }
        ensures end { IfOk result (λ n. n ≡ 0 → 0 < length into.old → IfSome (Some self.old.left) (λ bytes. bytes ≡ [])) }
        ensures faults { self.old.plan.faults ≤ self.new.plan.faults }
        ensures failed { OnErr result (Rose self.old.plan.faults self.new.plan.faults) }
        ensures exact { result ≡ read_of self.old (length into.old) }
        ensures after { self.new ≡ after_read self.old (length into.old) }
    {
        if self.plan.call() {
            return Err(Failed);
        }
        let portion = give(&self.bytes.as_slice()[self.at..], self.most, into);
        self.at += portion;
        Ok(portion)
    }
}

/// Copies the front of what is left into the buffer, at most `most` bytes, and says how many they are.
fn give(left: &[u8], most: usize, into: &mut [u8]) -> usize
    ensures count { result ≡ min (length into.old) (min most (length left.now)) }
    ensures given { take result into.new ≡ take result left.now }
{
    let portion = into.len().min(most.min(left.len()));
    into[..portion].copy_from_slice(&left[..portion]);
    portion
}

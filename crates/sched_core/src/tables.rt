//! The entries of units and workers, and what one event changes of them.
ghost use Rattle.std.specs.Prelude.{◌≡◌, ℕ, ◌+◌, ◌<◌, ◌≤◌, ◌↔◌, nat_eq, IsTrue, IsSome, Some, None, if◌then◌else◌, is_some};
ghost use Rattle.std.specs.HashMap.{get, hash_map_len, spare};
ghost use Rattle.std.specs.Option.{option_and_then};
ghost use Rattle.sched_core.specs.Machine.{result_at};
ghost use Rattle.sched_core.specs.Tables.{put, as_read, read, unit_of, is_queued, is_unit, is_possible, IsPlaced, stands_after, claims_after, new_units};

use crate::event::{Event, MOST_UNITS, Stand};
use std::collections::HashMap;

/// Where the unit stands by the entries.
pub(crate) fn stand_in(stands: &HashMap<u32, Stand>, unit: u32) -> Option<Stand>
    ensures { result ≡ read (get nat_eq stands.now) unit }
{
    match stands.get(&unit).copied() {
        Some(stand) => Some(stand_as_read(stands, stand)),
        None => None,
    }
}

/// A stored stand as it is read.
fn stand_as_read(stands: &HashMap<u32, Stand>, stand: Stand) -> Stand
    ensures { result ≡ as_read (get nat_eq stands.now) stand }
{
    match stand {
        Stand::Waiting(on) => {
            if is_done(stands, on) {
                Stand::Queued
            } else {
                Stand::Waiting(on)
            }
        }
        Stand::Queued => Stand::Queued,
        Stand::Claimed(worker) => Stand::Claimed(worker),
        Stand::Done(outcome) => Stand::Done(outcome),
    }
}

/// Whether the unit is done.
fn is_done(stands: &HashMap<u32, Stand>, unit: u32) -> bool
    ensures { result ≡ is_some (option_and_then result_at (get nat_eq stands.now unit)) }
{
    match stands.get(&unit).copied() {
        Some(Stand::Done(_)) => true,
        Some(Stand::Queued | Stand::Claimed(_) | Stand::Waiting(_)) => false,
        None => false,
    }
}

/// Puts an entry, where there is room for one more.
pub(crate) fn add<V: Copy>(table: &mut HashMap<u32, V>, key: u32, value: V)
    requires { 0 < spare table.old }
    ensures entries { (q : ℕ) → get nat_eq table.new q ≡ put (get nat_eq table.old) key value q }
    ensures len { hash_map_len table.new ≡ hash_map_len table.old
        + (if is_some (get nat_eq table.old key) then 0 else 1) }
    ensures room { spare table.old ≤ spare table.new + 1 }
{
    match table.insert(key, value) {
        Ok(_) => (),
        Err(_) => unreachable!(),
    }
}

/// Replaces an entry that is there.
pub(crate) fn replace<V: Copy>(table: &mut HashMap<u32, V>, key: u32, value: V)
    requires { IsSome (get nat_eq table.old key) }
    ensures entries { (q : ℕ) → get nat_eq table.new q ≡ put (get nat_eq table.old) key value q }
    ensures len { hash_map_len table.new ≡ hash_map_len table.old }
    ensures room { spare table.new ≡ spare table.old }
{
    if let Some(entry) = table.get_mut(&key) {
        *entry = value;
    }
}

/// Where the units stand after an event. There is room for one that becomes known, and each other
/// that the event speaks of has an entry.
pub(crate) fn move_unit(
    stands: &mut HashMap<u32, Stand>,
    claims: &HashMap<u32, Option<u32>>,
    event: Event,
)
    requires { IsPlaced (get nat_eq stands.old) (get nat_eq claims.now)
        (spare stands.old) event }
    ensures entries { (q : ℕ) → get nat_eq stands.new q
        ≡ stands_after (get nat_eq stands.old) (get nat_eq claims.now) event q }
    ensures len { hash_map_len stands.new ≡ hash_map_len stands.old + new_units event }
    ensures room { spare stands.old ≤ spare stands.new + new_units event }
{
    match event {
        Event::Demand { unit } => add(stands, unit, Stand::Queued),
        Event::Claim { worker, unit, .. } => replace(stands, unit, Stand::Claimed(worker)),
        Event::Need { unit, on, .. } => replace(stands, unit, Stand::Waiting(on)),
        Event::Finish {
            unit,
            result: outcome,
            ..
        } => replace(stands, unit, Stand::Done(outcome)),
        Event::Reclaim { worker } => {
            if let Some(unit) = claimed_unit(claims, worker) {
                replace(stands, unit, Stand::Queued);
            }
        }
    }
}

/// The unit that the worker has.
pub(crate) fn claimed_unit(claims: &HashMap<u32, Option<u32>>, worker: u32) -> Option<u32>
    ensures { result ≡ unit_of (get nat_eq claims.now) worker }
{
    match claims.get(&worker).copied() {
        Some(unit) => unit,
        None => None,
    }
}

/// Which units the workers have after an event.
pub(crate) fn move_claim(claims: &mut HashMap<u32, Option<u32>>, event: Event)
    requires { 0 < spare claims.old }
    ensures entries { (q : ℕ) → get nat_eq claims.new q
        ≡ claims_after (get nat_eq claims.old) event q }
    ensures room { spare claims.old ≤ spare claims.new + 1 }
{
    match event {
        Event::Demand { .. } => (),
        Event::Claim { worker, unit, .. } => add(claims, worker, Some(unit)),
        Event::Need { worker, .. } | Event::Finish { worker, .. } | Event::Reclaim { worker } => {
            add(claims, worker, None)
        }
    }
}

/// How many units the event makes known.
pub(crate) fn new_units_of(event: Event) -> usize
    ensures { result ≡ new_units event }
{
    match event {
        Event::Demand { .. } => 1,
        Event::Claim { .. } | Event::Need { .. } | Event::Finish { .. } | Event::Reclaim { .. } =>
            0,
    }
}

/// Whether the event may happen by the entries.
pub(crate) fn is_possible_in(
    stands: &HashMap<u32, Stand>,
    claims: &HashMap<u32, Option<u32>>,
    event: Event,
) -> bool
    ensures { result ≡ is_possible (get nat_eq stands.now) (get nat_eq claims.now)
        (hash_map_len stands.now) event }
{
    match event {
        Event::Demand { unit } => stand_in(stands, unit).is_none() && stands.len() < MOST_UNITS,
        Event::Claim { worker, unit, .. } => {
            is_queued_in(stands, unit) && claimed_unit(claims, worker).is_none()
        }
        Event::Need { worker, unit, on } => {
            is_claimed_in(claims, worker, unit) && stand_in(stands, on).is_some()
        }
        Event::Finish { worker, unit, .. } => is_claimed_in(claims, worker, unit),
        Event::Reclaim { worker } => claimed_unit(claims, worker).is_some(),
    }
}

/// Whether the unit may be claimed.
fn is_queued_in(stands: &HashMap<u32, Stand>, unit: u32) -> bool
    ensures { result ≡ is_queued (read (get nat_eq stands.now) unit) }
{
    match stand_in(stands, unit) {
        Some(Stand::Queued) => true,
        Some(Stand::Claimed(_) | Stand::Waiting(_) | Stand::Done(_)) => false,
        None => false,
    }
}

/// Whether the worker has the unit.
fn is_claimed_in(claims: &HashMap<u32, Option<u32>>, worker: u32, unit: u32) -> bool
    ensures { result ≡ is_unit unit (unit_of (get nat_eq claims.now) worker) }
{
    match claimed_unit(claims, worker) {
        Some(claimed) => claimed == unit,
        None => false,
    }
}

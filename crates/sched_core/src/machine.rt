//! The scheduling machine: it takes the events that may happen, and keeps their log.
ghost use Rattle.std.specs.Prelude.{◌≡◌, ℕ, ◌+◌, ◌<◌, ◌≤◌, ◌↔◌, max, nat_eq, List, [], ◌∷◌, length, reverse, IsTrue, IsOk, IfOk, OnOk, OnErr, vec_len, vec_capacity};
ghost use Rattle.std.specs.HashMap.{get, hash_map_len, spare};
ghost use Rattle.sched_core.specs.LogWithRoom.{LogWithRoom};
ghost use Rattle.sched_core.specs.Machine.{stand, Enabled, replay, IsLog};
ghost use Rattle.sched_core.specs.Tables.{new_units, Shows, HasRoom};
ghost use Rattle.sched_core.specs.Tickets.{ticket_of};

use crate::event::{Event, Stand};
use crate::tables;
use crate::ticket::Ticket;
use std::alloc::{AllocError, Global};
use std::collections::HashMap;
use std::marker::Model;
use thiserror::Error;

/// The event may not happen now.
#[derive(Clone, Copy, Debug, Error)]
#[error("the event may not happen now")]
pub struct NoStep;

/// Which units are known and where each stands, as the replay of a log of events.
///
/// A step takes constant time: a unit that waits is read as queued once what it waits for is done,
/// so a finish changes no stand but its own unit's.
#[derive(Drop)]
pub struct Machine {
    /// Where each known unit stands, but that one may still be stored as waiting for a done one.
    stands: HashMap<u32, Stand>,
    /// The unit of each worker that ever had one.
    claims: HashMap<u32, Option<u32>>,
    /// The events, the oldest first.
    log: Vec<Event>,
    spare_units: usize,
    spare_events: usize,
}

impl Model for Machine {
    ghost Value = { LogWithRoom };

    ghost view = { λ m. record {
      log = reverse m.log.items;
      spare_units = m.spare_units;
      spare_events = m.spare_events;
    } };

    ghost invariant = { λ m. Shows (get nat_eq m.stands) (get nat_eq m.claims)
        (hash_map_len m.stands) (reverse m.log.items)
        × HasRoom m.spare_units m.spare_events
        (spare m.stands) (spare m.claims) (vec_len m.log) (vec_capacity m.log) };
}

impl Machine {
    /// A machine that knows no unit.
    pub fn new(alloc: Global) -> Machine
        ensures log { result.log ≡ [] }
        ensures units { result.spare_units ≡ 0 }
        ensures events { result.spare_events ≡ 0 }
    {
        Machine {
            stands: HashMap::new(alloc),
            claims: HashMap::new(alloc),
            log: Vec::new(alloc),
            spare_units: 0,
            spare_events: 0,
        }
    }

    /// Makes room for so many further units and events.
    pub fn reserve(&mut self, units: usize, events: usize) -> Result<(), AllocError>
        ensures log { self.new.log ≡ self.old.log }
        ensures units { OnOk result (self.new.spare_units ≡ max self.old.spare_units units) }
        ensures events { OnOk result (self.new.spare_events ≡ max self.old.spare_events events) }
        ensures err { OnErr result (self.new ≡ self.old) }
    {
        self.stands.reserve(units)?;
        self.claims.reserve(events)?;
        self.log.reserve(events)?;
        self.spare_units = self.spare_units.max(units);
        self.spare_events = self.spare_events.max(events);
        Ok(())
    }

    /// Whether the event may happen now.
    pub fn is_enabled(&self, event: Event) -> bool
        ensures { IsTrue result ↔ Enabled nat_eq (replay nat_eq self.now.log) event }
    {
        tables::is_possible_in(&self.stands, &self.claims, event)
    }

    /// Takes an event, and gives the ticket of a claim for work or for a check. It is refused
    /// where it may not happen now. Takes no memory.
    pub fn step(&mut self, event: Event) -> Result<Option<Ticket>, NoStep>
        requires events { 0 < self.old.spare_events }
        requires units { new_units event ≤ self.old.spare_units }
        ensures enabled { IsOk result ↔ Enabled nat_eq (replay nat_eq self.old.log) event }
        ensures log { OnOk result (self.new.log ≡ event ∷ self.old.log) }
        ensures ticket { IfOk result (λ given. given ≡ ticket_of event) }
        ensures units_room { OnOk result (self.new.spare_units + new_units event ≡ self.old.spare_units) }
        ensures events_room { OnOk result (self.new.spare_events + 1 ≡ self.old.spare_events) }
        ensures refused { OnErr result (self.new ≡ self.old) }
    {
        if !self.is_enabled(event) {
            return Err(NoStep);
        }
        self.take(event);
        Ok(Ticket::of(event))
    }

    /// Takes an event that may happen now.
    fn take(&mut self, event: Event)
        requires enabled { Enabled nat_eq (replay nat_eq self.old.log) event }
        requires events { 0 < self.old.spare_events }
        requires units { new_units event ≤ self.old.spare_units }
        ensures log { self.new.log ≡ event ∷ self.old.log }
        ensures units_room { self.new.spare_units + new_units event ≡ self.old.spare_units }
        ensures events_room { self.new.spare_events + 1 ≡ self.old.spare_events }
    {
        tables::move_unit(&mut self.stands, &self.claims, event);
        tables::move_claim(&mut self.claims, event);
        self.log.push_reserved(event);
        self.spare_units -= tables::new_units_of(event);
        self.spare_events -= 1;
    }

    /// Where the unit stands, if it is known.
    pub fn stand(&self, unit: u32) -> Option<Stand>
        ensures { result ≡ stand nat_eq (replay nat_eq self.now.log) unit }
    {
        tables::stand_in(&self.stands, unit)
    }

    /// How many units are known.
    pub fn len(&self) -> usize
        ensures { result ≡ length (replay nat_eq self.now.log) }
    {
        self.stands.len()
    }

    /// The events that were taken, the oldest first.
    pub fn log(&self) -> &[Event]
        ensures { reverse result.now ≡ self.now.log }
    {
        self.log.as_slice()
    }

    /// The events that were taken, the oldest first.
    pub fn into_log(self) -> Vec<Event>
        ensures { reverse result.items ≡ self.log }
    {
        self.log
    }
}

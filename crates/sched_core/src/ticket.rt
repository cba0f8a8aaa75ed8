//! Tickets: leave to work on a unit, or to check it, which only a claim gives and which are spent
//! by the work.
ghost use Rattle.std.specs.Prelude.{◌≡◌, ℕ};
ghost use Rattle.sched_core.specs.Assignment.{Assignment};

use crate::event::{Event, Kind};
use std::marker::Model;

/// Leave for one worker to analyse one unit. It is neither copied nor dropped, but spent.
pub struct WorkTicket {
    worker: u32,
    unit: u32,
}

impl Model for WorkTicket {
    ghost Value = { Assignment };

    ghost view = { λ t. record { worker = t.worker; unit = t.unit } };
}

impl WorkTicket {
    /// Only a claim of kind `Work` makes one.
    pub(crate) fn new(worker: u32, unit: u32) -> WorkTicket
        ensures worker { result.worker ≡ worker }
        ensures unit { result.unit ≡ unit }
    {
        WorkTicket { worker, unit }
    }

    /// The worker that has it.
    pub fn worker(&self) -> u32
        ensures { result ≡ self.now.worker }
    {
        self.worker
    }

    /// The unit that it is for.
    pub fn unit(&self) -> u32
        ensures { result ≡ self.now.unit }
    {
        self.unit
    }

    /// Spends it without work.
    pub fn into_spent(self) -> Spent
        ensures { result ≡ self }
    {
        let WorkTicket { worker, unit } = self;
        Spent { worker, unit }
    }
}

/// Leave for one worker to compare the kept trace of one unit with the answers now. It is neither
/// copied nor dropped, but spent.
pub struct CheckTicket {
    worker: u32,
    unit: u32,
}

impl Model for CheckTicket {
    ghost Value = { Assignment };

    ghost view = { λ t. record { worker = t.worker; unit = t.unit } };
}

impl CheckTicket {
    /// Only a claim of kind `Check` makes one.
    pub(crate) fn new(worker: u32, unit: u32) -> CheckTicket
        ensures worker { result.worker ≡ worker }
        ensures unit { result.unit ≡ unit }
    {
        CheckTicket { worker, unit }
    }

    /// The worker that has it.
    pub fn worker(&self) -> u32
        ensures { result ≡ self.now.worker }
    {
        self.worker
    }

    /// The unit that it is for.
    pub fn unit(&self) -> u32
        ensures { result ≡ self.now.unit }
    {
        self.unit
    }

    /// Spends it.
    pub fn into_spent(self) -> Spent
        ensures { result ≡ self }
    {
        let CheckTicket { worker, unit } = self;
        Spent { worker, unit }
    }
}

/// A ticket that was spent: it says who had which unit, and gives leave to nothing.
#[derive(Drop)]
pub struct Spent {
    worker: u32,
    unit: u32,
}

impl Model for Spent {
    ghost Value = { Assignment };

    ghost view = { λ t. record { worker = t.worker; unit = t.unit } };
}

impl Spent {
    /// The worker that had the ticket.
    pub fn worker(&self) -> u32
        ensures { result ≡ self.now.worker }
    {
        self.worker
    }

    /// The unit that the ticket was for.
    pub fn unit(&self) -> u32
        ensures { result ≡ self.now.unit }
    {
        self.unit
    }
}

/// What a claim gives where somebody is to do something.
pub enum Ticket {
    Work(WorkTicket),
    Check(CheckTicket),
}

impl Ticket {
    ghost use Rattle.sched_core.specs.Tickets.{ticket_of};

    /// The ticket that an event gives.
    pub(crate) fn of(event: Event) -> Option<Ticket>
        ensures { result ≡ ticket_of event }
    {
        match event {
            Event::Claim { worker, unit, kind } => match kind {
                Kind::Work => Some(Ticket::Work(WorkTicket::new(worker, unit))),
                Kind::Check => Some(Ticket::Check(CheckTicket::new(worker, unit))),
                Kind::Kept => None,
            },
            Event::Demand { .. } | Event::Need { .. } => None,
            Event::Finish { .. } | Event::Reclaim { .. } => None,
        }
    }
}

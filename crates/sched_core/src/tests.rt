// Small schedules by hand: which events are taken one after the other, and where the units stand then.
use crate::{Event, Kind, MOST_UNITS, Machine, NoStep, Stand, Ticket};
use std::alloc::{AllocError, Global};
use std::test::Fail;

/// A unit that waits for another, and one for it; three that a finish wakes; a need of what is
/// done; a unit that is taken back. Each event that may not happen stands where it is refused.
#[rattlefmt::skip]
const STEPS: [(Event, bool); 41] = [
    // Nothing is known.
    (Event::Claim { worker: 1, unit: 7, kind: Kind::Work }, false),
    (Event::Reclaim { worker: 1 }, false),
    (Event::Demand { unit: 7 }, true),
    (Event::Demand { unit: 7 }, false),
    (Event::Finish { worker: 1, unit: 7, result: 0 }, false),
    (Event::Need { worker: 1, unit: 7, on: 7 }, false),
    // 7 needs 8, and 8 needs 7.
    (Event::Claim { worker: 1, unit: 7, kind: Kind::Check }, true),
    (Event::Claim { worker: 2, unit: 7, kind: Kind::Work }, false),
    (Event::Need { worker: 1, unit: 7, on: 8 }, false),
    (Event::Demand { unit: 8 }, true),
    (Event::Claim { worker: 1, unit: 8, kind: Kind::Work }, false),
    (Event::Need { worker: 2, unit: 7, on: 8 }, false),
    (Event::Need { worker: 1, unit: 7, on: 8 }, true),
    (Event::Claim { worker: 1, unit: 7, kind: Kind::Work }, false),
    (Event::Reclaim { worker: 1 }, false),
    (Event::Claim { worker: 2, unit: 8, kind: Kind::Work }, true),
    (Event::Need { worker: 2, unit: 8, on: 7 }, true),
    // 1, 2 and 3 need 4, which a second worker takes and does.
    (Event::Demand { unit: 1 }, true),
    (Event::Demand { unit: 2 }, true),
    (Event::Demand { unit: 3 }, true),
    (Event::Demand { unit: 4 }, true),
    (Event::Claim { worker: 1, unit: 1, kind: Kind::Work }, true),
    (Event::Need { worker: 1, unit: 1, on: 4 }, true),
    (Event::Claim { worker: 1, unit: 2, kind: Kind::Work }, true),
    (Event::Need { worker: 1, unit: 2, on: 4 }, true),
    (Event::Claim { worker: 1, unit: 3, kind: Kind::Work }, true),
    (Event::Need { worker: 1, unit: 3, on: 4 }, true),
    (Event::Claim { worker: 1, unit: 4, kind: Kind::Work }, true),
    (Event::Reclaim { worker: 2 }, false),
    (Event::Reclaim { worker: 1 }, true),
    (Event::Claim { worker: 2, unit: 4, kind: Kind::Work }, true),
    (Event::Finish { worker: 1, unit: 4, result: 9 }, false),
    (Event::Finish { worker: 2, unit: 4, result: 9 }, true),
    (Event::Finish { worker: 2, unit: 4, result: 9 }, false),
    (Event::Claim { worker: 2, unit: 4, kind: Kind::Work }, false),
    // 1 needs 4, which is done, and 2 is still had by its worker.
    (Event::Claim { worker: 1, unit: 1, kind: Kind::Work }, true),
    (Event::Need { worker: 1, unit: 1, on: 4 }, true),
    (Event::Claim { worker: 1, unit: 2, kind: Kind::Work }, true),
    // A clean unit is finished with its kept result.
    (Event::Demand { unit: 5 }, true),
    (Event::Claim { worker: 3, unit: 5, kind: Kind::Kept }, true),
    (Event::Finish { worker: 3, unit: 5, result: 6 }, true),
];

/// Where the units stand after these steps.
const STANDS: [(u32, Option<Stand>); 8] = [
    (1, Some(Stand::Queued)),
    (2, Some(Stand::Claimed(1))),
    (3, Some(Stand::Queued)),
    (4, Some(Stand::Done(9))),
    (5, Some(Stand::Done(6))),
    (6, None),
    (7, Some(Stand::Waiting(8))),
    (8, Some(Stand::Waiting(7))),
];

/// Spends a ticket, and says whose it was.
fn spent(ticket: Option<Ticket>) -> Option<(u32, u32)> {
    let spent = match ticket {
        Some(Ticket::Work(work)) => work.into_spent(),
        Some(Ticket::Check(check)) => check.into_spent(),
        None => return None,
    };
    Some((spent.worker(), spent.unit()))
}

/// Whether the event is taken, and the worker and unit of its ticket.
fn taken(machine: &mut Machine, event: Event) -> Result<Option<Option<(u32, u32)>>, AllocError> {
    machine.reserve(1, 1)?;
    Ok(match machine.step(event) {
        Ok(ticket) => Some(spent(ticket)),
        Err(NoStep) => None,
    })
}

#[test]
fn steps(rt: HostRuntime) -> Result<(), Fail> {
    let mut machine = Machine::new(rt.alloc());
    for (event, may_happen) in STEPS {
        let given = taken(&mut machine, event)?;
        assert_eq!(rt; given.is_some(), may_happen, "{event:?}");
        let ticket = match event {
            Event::Claim {
                worker,
                unit,
                kind: Kind::Work | Kind::Check,
            } => Some((worker, unit)),
            _ => None,
        };
        if may_happen {
            assert_eq!(rt; given, Some(ticket), "{event:?}");
        }
    }
    for (unit, stand) in STANDS {
        assert_eq!(rt; machine.stand(unit), stand, "{unit}");
    }
    assert_eq!(rt;
        machine.log().len(),
        STEPS.iter().filter(|step| step.1).count()
    );
    Ok(())
}

#[test]
fn so_many_units(rt: HostRuntime) -> Result<(), Fail> {
    let mut machine = Machine::new(rt.alloc());
    for unit in 0..65_536u32 {
        assert_eq!(rt; taken(&mut machine, Event::Demand { unit })?, Some(None));
    }
    assert_eq!(rt; machine.len(), MOST_UNITS);
    assert_eq!(rt; taken(&mut machine, Event::Demand { unit: 65_536 })?, None);
    Ok(())
}

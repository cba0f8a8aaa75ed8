// Telling every listener of a list, and parting those that failed from the others.
ghost use Rattle.std.specs.Prelude.{◌≡◌, ◌≤◌, ◌<◌, ◌+◌, [], ◌∷◌, ◌++◌, true, false, vec_len, List};
ghost use Rattle.std.specs.Vec.{vec_capacity};
ghost use Rattle.std.specs.VecDeque.{deque_len};
ghost use Rattle.zw_base.specs.Outside.{Rose};
ghost use Rattle.listeners.specs.Told.{HasHeard, HasFailed, IsTurn, PartsTold};

use std::collections::VecDeque;
use std::mem;
use zw_base::{Listener, Report};

/// Tells each listener of the list the report, once and in order. Those that fail are moved to the
/// end of `gone`, in order, and the others stay. There is room in `gone` for the whole list, and no
/// memory is taken.
pub fn tell_all(
    list: &mut Vec<Box<dyn Listener>>,
    gone: &mut Vec<Box<dyn Listener>>,
    report: &Report,
)
    requires { vec_len gone.old + vec_len list.old ≤ vec_capacity gone.old }
    ensures told { PartsTold (λ b. heard b) (λ b. faults b) (λ b. calls b) report.now list.old.items list.new.items gone.old.items gone.new.items }
    ensures count { vec_len list.new + vec_len gone.new ≡ vec_len list.old + vec_len gone.old }
    ensures room { vec_capacity gone.new ≡ vec_capacity gone.old }
{
    let count = list.len();
    let none = Vec::new(*list.allocator());
    let mut queue = VecDeque::from(mem::replace(list, none));
    for _ in 0..count {
        tell_next(&mut queue, gone, report);
    }
    *list = Vec::from(queue);
}

/// Tells the first listener of the queue, and moves it to the queue's end or, where it fails, to the
/// end of `gone`.
fn tell_next(
    queue: &mut VecDeque<Box<dyn Listener>>,
    gone: &mut Vec<Box<dyn Listener>>,
    report: &Report,
)
    requires some { 0 < deque_len queue.old }
    requires room { vec_len gone.old < vec_capacity gone.old }
    ensures told { IsTurn (λ b. heard b) (λ b. faults b) (λ b. calls b) report.now queue.old.items queue.new.items gone.old.items gone.new.items }
    ensures count { deque_len queue.new + vec_len gone.new ≡ deque_len queue.old + vec_len gone.old }
    ensures few { vec_len gone.new ≤ vec_len gone.old + 1 }
    ensures capacity { vec_capacity gone.new ≡ vec_capacity gone.old }
{
    let Some(mut listener) = queue.pop_front() else {
        unreachable!()
    };
    if tell(&mut listener, report) {
        queue.push_back_reserved(listener);
    } else {
        gone.push_reserved(listener);
    }
}

/// Tells one listener, and says whether it heard.
fn tell(listener: &mut Box<dyn Listener>, report: &Report) -> bool
    ensures heard { result ≡ true → HasHeard (λ b. heard b) (λ b. faults b) (λ b. calls b) report.now listener.old listener.new }
    ensures failed { result ≡ false → HasFailed (λ b. heard b) (λ b. faults b) (λ b. calls b) listener.old listener.new }
{
    listener.told(report).is_ok()
}

#[cfg(test)]
mod tests {
    use super::*;
    use std::alloc::{AllocError, Global};
    use std::test::Fail;
    use zw_base::{MemListener, Outcome, Seq};

    fn report(number: u32) -> Report {
        Report {
            number,
            outcome: Outcome::Errors { count: 1 },
            analysed: 4,
            reused: 0,
        }
    }

    /// A listener that fails at its call with this number.
    fn failing_at(alloc: Global, call: u64) -> Result<Box<dyn Listener>, AllocError> {
        let mut calls = Vec::new(alloc);
        calls.push(call)?;
        let listener = MemListener::new(alloc, 10, Seq::of(calls))?;
        Ok(Box::new(alloc, listener)?)
    }

    #[test]
    fn those_that_fail_are_gone(rt: HostRuntime) -> Result<(), Fail> {
        let mut list = Vec::new(rt.alloc());
        list.push(failing_at(rt.alloc(), 2)?)?;
        list.push(failing_at(rt.alloc(), 1)?)?;
        list.push(failing_at(rt.alloc(), 9)?)?;
        let mut gone = Vec::with_capacity(rt.alloc(), 3)?;
        tell_all(&mut list, &mut gone, &report(1));
        assert_eq!(rt; (list.len(), gone.len()), (2, 1));
        tell_all(&mut list, &mut gone, &report(2));
        assert_eq!(rt; (list.len(), gone.len()), (1, 2));
        tell_all(&mut list, &mut gone, &report(3));
        assert_eq!(rt; (list.len(), gone.len()), (1, 2));
        Ok(())
    }
}

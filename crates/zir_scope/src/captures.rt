// Which locals a container captures.
ghost use Rattle.std.specs.Prelude.{◌≡◌, ◌++◌, IfOk, OnOk};
ghost use Rattle.zir_scope.specs.Captures as spec;
ghost use Rattle.zir_scope.specs.Findings.{use_of, uses_of};

use crate::bindings::Bindings;
use crate::event::{Event, Target};
use std::alloc::{AllocError, Global};

/// A container, by its keyword's token, captures a local, by the token that declares it.
#[derive(Clone, Copy, Debug, PartialEq, Eq)]
pub struct Capture {
    pub container: u32,
    pub local: u32,
}

/// Containers that begin behind a token capture a local.
#[tactic(auto, unfolding(crate::specs::Captures::captured))]
fn capture_from(
    captures: &mut Vec<Capture>,
    around: &[u32],
    since: u32,
    local: u32,
) -> Result<(), AllocError>
    ensures { OnOk result (captures.new.items ≡ captures.old.items ++ spec.captured since local around.now) }
{
    let mut rest = around;
    while let [container, more @ ..] = rest {
        if since < *container {
            captures.push(Capture {
                container: *container,
                local,
            })?;
        }
        rest = more;
    }
    Ok(())
}

/// A mention, at which the containers around may capture.
fn mention(
    captures: &mut Vec<Capture>,
    around: &[u32],
    used: &mut Bindings,
    token: u32,
    target: Target,
) -> Result<(), AllocError>
    ensures captures { OnOk result (captures.new.items ≡ captures.old.items ++ spec.captured_at around.now used.old.entries target) }
    ensures used { OnOk result (used.new.entries ≡ used.old.entries ++ use_of token target) }
{
    let Target::Local(local) = target else {
        return Ok(());
    };
    let since = used.find(local).unwrap_or(local);
    capture_from(captures, around, since, local)?;
    used.push(local, token)
}

/// What stands at a token, with the containers around it, the innermost last, and the locals that were
/// mentioned.
fn read(
    captures: &mut Vec<Capture>,
    around: &mut Vec<u32>,
    used: &mut Bindings,
    event: Event,
) -> Result<(), AllocError>
    ensures captures { OnOk result (captures.new.items ≡ captures.old.items ++ spec.event_captures around.old.items used.old.entries event) }
    ensures around { OnOk result (around.new.items ≡ spec.around_after around.old.items event) }
    ensures used { OnOk result (used.new.entries ≡ used.old.entries ++ uses_of event) }
{
    match event {
        Event::Mentions { token, target } => {
            mention(captures, around.as_slice(), used, token, target)?;
        }
        Event::Opens { token } => around.push(token)?,
        Event::Closes => {
            let _ = around.pop();
        }
        _ => {}
    }
    Ok(())
}

/// The captures of a file's containers, in the order of their first mentions.
#[tactic(auto, unfolding(crate::specs::Captures::captures_of, crate::specs::Captures::captures_from))]
pub fn captures_of(alloc: Global, events: &[Event]) -> Result<Vec<Capture>, AllocError>
    ensures { IfOk result (λ v. v.items ≡ spec.captures_of events.now) }
{
    let mut captures = Vec::new(alloc);
    let mut around = Vec::new(alloc);
    let mut used = Bindings::new(alloc, 0)?;
    let mut rest = events;
    while let [event, more @ ..] = rest {
        read(&mut captures, &mut around, &mut used, *event)?;
        rest = more;
    }
    Ok(captures)
}

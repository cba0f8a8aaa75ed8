// A round: each known unit that can have moved is attempted once.
ghost use Rattle.std.specs.Prelude.{◌≡◌, ◌≤◌, ◌||◌, nat_lt, vec_len, OnOk, IfOk};
ghost use Rattle.type_form.specs.Known.{IsInjective};
ghost use Rattle.type_form.specs.Pool.{Interns, is_full};
ghost use Rattle.unit_rounds.specs.Rounds.{IsBegun, RoundSo};
ghost use Rattle.unit_rounds.specs.Standing.{IsFilled};

use crate::analyst::Analyst;
use crate::known_units::KnownUnits;
use crate::settle::{Tried, needs_none, settle};
use std::alloc::{AllocError, Global};
use trace_log::Answers;
use type_form::{InternFault, Interner};

/// What a round came to.
#[derive(Drop)]
pub(crate) enum Round {
    /// To nothing: no unit, and no result of a known one.
    Settled,
    /// To more units or results; this snapshot has the results.
    Moved(Answers),
    /// To more units than may be.
    TooMany,
}

/// What units wait for, with nothing for those that have come since.
#[tactic(auto, using(crate::proofs::NumberLemmas::filling))]
pub(crate) fn fill(waits: &mut Vec<Option<u32>>, count: usize) -> Result<(), AllocError>
    requires { vec_len waits.old ≤ count }
    ensures long { OnOk result (vec_len waits.new ≡ count) }
    ensures filled { OnOk result (IsFilled waits.old.items waits.new.items) }
{
    for number in waits.len()..count {
        let _ = number;
        waits.push(None)?;
    }
    Ok(())
}

/// Whether a round brings something: a result, or more units.
fn brings(moved: bool, before: usize, now: usize) -> bool
    ensures { result ≡ (moved || nat_lt before now) }
{
    moved || before < now
}

/// Attempts the known units that can have moved, in their order, each with the results of the round's
/// beginning, and notes the units that they meet. A unit that has a result, or waits for one that has
/// none, is not attempted.
pub(crate) fn one_round<A: Analyst, I: Interner>(
    alloc: Global,
    analyst: &A,
    answers: &Answers,
    known: &mut KnownUnits,
    waits: &mut Vec<Option<u32>>,
    p: &mut I,
) -> Result<Round, InternFault>
    requires { IsBegun (I.known p.old) answers.now known.old waits.old.items }
    ensures interns { Interns I.known I.home I.fulls p.old p.new (is_full result) }
    ensures agrees { IsInjective (I.known p.new) }
    ensures round { IfOk result (λ r. RoundSo r (I.known p.old) (I.known p.new) answers.now known.old known.new waits.new.items) }
{
    let count = known.units().len();
    let mut next = answers.share()?;
    let mut moved = false;
    for number in 0..count {
        let unit = known.units()[number];
        let wait = waits[number];
        if needs_none(answers, known, unit, wait) {
            continue;
        }
        let attempt = analyst.attempt(alloc, answers, unit, p)?;
        match settle(alloc, number, unit, attempt, known, waits, &mut next)? {
            Tried::Done => {
                moved = true;
                continue;
            }
            Tried::Waits => continue,
            Tried::TooMany => return Ok(Round::TooMany),
        }
    }
    let now = known.units().len();
    if !brings(moved, count, now) {
        return Ok(Round::Settled);
    }
    fill(waits, now)?;
    Ok(Round::Moved(next))
}

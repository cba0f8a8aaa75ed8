// What is put where an attempt has ended.
ghost use Rattle.std.specs.Prelude.{◌≡◌, ◌<◌, length, vec_len, OnOk, IfOk};
ghost use Rattle.unit_rounds.specs.KnownUnits.{with_indices};
ghost use Rattle.unit_rounds.specs.MetUnits.{met_units};
ghost use Rattle.unit_rounds.specs.Standing.{rests, SameFiles};
ghost use Rattle.unit_rounds.specs.Settling.{SettlesSo};

use crate::known_units::KnownUnits;
use std::alloc::{AllocError, Global};
use trace_log::{Answers, Attempt, Outcome, Shared, UnitIndex};

/// The most units.
pub(crate) const MOST: usize = 65_536;

/// How an attempt ended.
#[derive(Clone, Copy, Debug, PartialEq, Eq)]
pub(crate) enum Tried {
    /// With a result.
    Done,
    /// At a unit without a result.
    Waits,
    /// More units are known than may be.
    TooMany,
}

/// Whether a unit needs no attempt: it has a result, or what it waits for has none.
pub(crate) fn needs_none(
    answers: &Answers,
    known: &KnownUnits,
    unit: UnitIndex,
    wait: Option<u32>,
) -> bool
    ensures { result ≡ rests answers.now known.now unit wait }
{
    if answers.result(unit).is_some() {
        return true;
    }
    match wait {
        Some(number) => match known.units().get(number as usize) {
            Some(other) => answers.result(*other).is_none(),
            None => false,
        },
        None => false,
    }
}

/// Notes the units that an attempt met, and puts its result, or what the unit waits for.
#[tactic(auto, using(crate::proofs::NumberLemmas::noting))]
pub(crate) fn settle(
    alloc: Global,
    number: usize,
    unit: UnitIndex,
    attempt: Attempt,
    known: &mut KnownUnits,
    waits: &mut Vec<Option<u32>>,
    next: &mut Answers,
) -> Result<Tried, AllocError>
    requires { number < vec_len waits.old }
    ensures known { OnOk result (known.new ≡ with_indices known.old (met_units attempt)) }
    ensures files { SameFiles next.old next.new }
    ensures settles { IfOk result (λ t. SettlesSo t unit attempt.outcome number known.new waits.old.items waits.new.items next.old next.new) }
{
    let Attempt { outcome, trace } = attempt;
    known.note_moves(alloc, trace.moves())?;
    match outcome {
        Outcome::Done(result) => {
            if known.units().len() > MOST {
                return Ok(Tried::TooMany);
            }
            let result = Shared::new(alloc, result)?;
            next.put_result(alloc, unit, result)?;
            waits[number] = None;
            Ok(Tried::Done)
        }
        Outcome::Needs(needed) => {
            let place = known.note(alloc, needed)?;
            if known.units().len() > MOST {
                return Ok(Tried::TooMany);
            }
            waits[number] = Some(place as u32);
            Ok(Tried::Waits)
        }
    }
}

// Analysis from root units on, round by round.
ghost use Rattle.std.specs.Prelude.{◌≡◌, None, map, IfOk};
ghost use Rattle.std.specs.List.{All};
ghost use Rattle.type_form.specs.Known.{IsInjective};
ghost use Rattle.type_form.specs.Pool.{Interns, is_full};
ghost use Rattle.trace_log.specs.declared.question.UnitIndex.{UnitIndex};
ghost use Rattle.trace_log.specs.Attempts.{file_answers};
ghost use Rattle.trace_log.specs.Readings.{IsUnit, unit_at};
ghost use Rattle.trace_log.specs.Snapshots.{AreAnswers, result_get};
ghost use Rattle.unit_rounds.specs.Analyses.{ComesTo};

use crate::analyst::Analyst;
use crate::known_units::KnownUnits;
use crate::round::{Round, fill, one_round};
use crate::settle::MOST;
use std::alloc::Global;
use trace_log::{Answers, UnitIndex};
use type_form::{InternFault, Interner};

/// One round more than there can be that bring something: each brings a unit or a unit's result.
const ROUNDS: u64 = 131_074;

/// What there is when a further round brings nothing.
#[derive(Drop)]
pub struct Rest {
    /// The known units, in the order in which they came to be known.
    pub units: Vec<UnitIndex>,
    /// The files, and the results of the known units.
    pub answers: Answers,
    /// Of each unit without a result the number of the one that it waits for.
    pub waits: Vec<Option<u32>>,
}

/// What analysis comes to.
#[derive(Drop)]
pub enum Rounds {
    /// To rest.
    Rest(Rest),
    /// To more than 65,536 units.
    TooMany,
}

/// Attempts units by rounds, from root units on, until a round brings nothing: no unit, and no result
/// of a known one. The snapshot has files, and no results. A unit is attempted when it is known, and
/// once more for each result that it waited for. An Err comes for want of memory and where the
/// interner is full.
pub fn analyse_all<A: Analyst, I: Interner>(
    alloc: Global,
    analyst: &A,
    roots: &[UnitIndex],
    answers: Answers,
    p: &mut I,
) -> Result<Rounds, InternFault>
    requires roots { All (IsUnit (I.known p.old)) roots.now }
    requires one { IsInjective (I.known p.old) }
    requires answers { AreAnswers (I.known p.old) answers }
    requires no_results { (u : UnitIndex) → result_get answers u ≡ None }
    ensures interns { Interns I.known I.home I.fulls p.old p.new (is_full result) }
    ensures agrees { IsInjective (I.known p.new) }
    ensures comes { IfOk result (λ r. ComesTo (I.known p.new) (file_answers (I.known p.old) answers) (map (unit_at (I.known p.old)) roots.now) answers r) }
{
    let mut known = KnownUnits::new(alloc);
    known.note_all(alloc, roots)?;
    if known.units().len() > MOST {
        return Ok(Rounds::TooMany);
    }
    let mut waits: Vec<Option<u32>> = Vec::new(alloc);
    fill(&mut waits, known.units().len())?;
    let mut now = answers;
    for level in 0..ROUNDS {
        let _ = level;
        match one_round(alloc, analyst, &now, &mut known, &mut waits, p) {
            Err(fault) => return Err(fault),
            Ok(round) => match round {
                Round::Settled => {
                    return Ok(Rounds::Rest(Rest {
                        units: known.into_units(),
                        answers: now,
                        waits,
                    }));
                }
                Round::Moved(next) => now = next,
                Round::TooMany => return Ok(Rounds::TooMany),
            },
        }
    }
    Ok(Rounds::TooMany)
}

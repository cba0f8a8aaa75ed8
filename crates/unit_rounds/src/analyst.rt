// Whoever attempts units.
ghost use Rattle.std.specs.Prelude.{IfOk};
ghost use Rattle.type_form.specs.Known.{IsInjective};
ghost use Rattle.type_form.specs.Pool.{Interns, is_full};
ghost use Rattle.trace_log.specs.Attempts.{IsAttempt, unit_run};
ghost use Rattle.trace_log.specs.Readings.{IsUnit, unit_at};
ghost use Rattle.trace_log.specs.Snapshots.{AreAnswers};

use std::alloc::Global;
use trace_log::{Answers, Attempt, UnitIndex};
use type_form::{InternFault, Interner};

/// Whoever attempts units.
pub trait Analyst {
    /// How far a unit comes with the answers that are there: its run, move by move. An Err comes for
    /// want of memory and where the interner is full.
    fn attempt<I: Interner>(
        &self,
        alloc: Global,
        answers: &Answers,
        unit: UnitIndex,
        p: &mut I,
    ) -> Result<Attempt, InternFault>
        requires unit { IsUnit (I.known p.old) unit }
        requires one { IsInjective (I.known p.old) }
        requires answers { AreAnswers (I.known p.old) answers.now }
        ensures interns { Interns I.known I.home I.fulls p.old p.new (is_full result) }
        ensures agrees { IsInjective (I.known p.new) }
        ensures attempt { IfOk result (λ a. IsAttempt (I.known p.new) answers.now a (unit_run (I.known p.old) answers.now (unit_at (I.known p.old) unit))) };
}

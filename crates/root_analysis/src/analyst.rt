// Whoever attempts units: analysis, and the making of code.
ghost use Rattle.std.specs.Prelude.{IfOk};
ghost use Rattle.type_form.specs.Known.{IsInjective};
ghost use Rattle.type_form.specs.Means.{IsInstance, instance_at};
ghost use Rattle.type_form.specs.Pool.{Interns, is_full};
ghost use Rattle.type_form.specs.declared.unit.Unit.TheVariants as unit;
ghost use Rattle.trace_log.specs.Attempts.{IsAttempt, unit_run};
ghost use Rattle.trace_log.specs.Readings.{IsUnit, unit_at};
ghost use Rattle.trace_log.specs.Snapshots.{AreAnswers};

use sema_body::analyse;
use std::alloc::Global;
use trace_log::{Answers, Attempt, UnitIndex};
use type_form::{Index, InternFault, Interner};
use unit_rounds::Analyst;
use wasm_gen::attempt_code;

/// Attempts units of code by the code templates, and all others by analysis.
pub(crate) struct UnitAnalyst;

/// The attempt of the unit of the code of an instance.
fn code_attempt<I: Interner>(
    alloc: Global,
    answers: &Answers,
    instance: Index,
    p: &mut I,
) -> Result<Attempt, InternFault>
    requires instance { IsInstance (I.known p.old) instance }
    requires one { IsInjective (I.known p.old) }
    requires answers { AreAnswers (I.known p.old) answers.now }
    ensures interns { Interns I.known I.home I.fulls p.old p.new (is_full result) }
    ensures agrees { IsInjective (I.known p.new) }
    ensures attempt { IfOk result (λ a. IsAttempt (I.known p.new) answers.now a
        (unit_run (I.known p.old) answers.now (unit.Code (instance_at (I.known p.old) instance)))) }
{
    match attempt_code(alloc, answers, instance, p) {
        Ok(attempt) => Ok(attempt),
        Err(_) => Err(InternFault::OutOfMemory),
    }
}

impl Analyst for UnitAnalyst {
    fn attempt<I: Interner>(
        &self,
        alloc: Global,
        answers: &Answers,
        unit: UnitIndex,
        p: &mut I,
    ) -> Result<Attempt, InternFault> {
        match unit {
            UnitIndex::Code(instance) => code_attempt(alloc, answers, instance, p),
            UnitIndex::Decl(_)
            | UnitIndex::Body(_)
            | UnitIndex::ErrorSet(_)
            | UnitIndex::Fields(_)
            | UnitIndex::Comptime { .. } => analyse(alloc, answers, unit, p),
        }
    }
}

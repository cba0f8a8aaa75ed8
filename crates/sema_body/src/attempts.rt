// Units of analysis, as far as the answers at hand take them.
ghost use Rattle.std.specs.Prelude.{◌≡◌, false, [], IfOk};
ghost use Rattle.type_form.specs.Known.{IsInjective};
ghost use Rattle.type_form.specs.Means.{IsDecl, decl_at, IsInstance, instance_at, IsTy};
ghost use Rattle.type_form.specs.Pool.{Interns, is_full};
ghost use Rattle.question_runs.specs.Runs.{ends};
ghost use Rattle.elab_form.specs.Units as plain;
ghost use Rattle.trace_log.specs.Attempts.{IsAttempt, unit_run};
ghost use Rattle.trace_log.specs.Readings.{IsUnit, unit_at};
ghost use Rattle.trace_log.specs.Snapshots.{AreAnswers};
ghost use Rattle.sema_body.specs.Attempts.{AttemptBy, NeedsResult, WrittenAttempt, course, is_code};
ghost use Rattle.sema_body.specs.Meets.{IsState, halts_full};

use crate::declare::declaration;
use crate::function_body::{body_of, written_value};
use crate::halt::Halt;
use crate::work::Work;
use air_form::AirBuilder;
use std::alloc::Global;
use trace_log::{
    Answers, Attempt, Diagnostic, Outcome, Question, Shared, Spot, Trace, UnitIndex, UnitResult,
    UnitValue,
};
use type_form::{Index, InternFault, Interner};
use unit_trees::{decl_of, is_too_long};
use zw_base::{Bytes, DiagCode};

/// A unit that has done nothing yet.
fn begun(alloc: Global) -> Work
    ensures trace { result.trace ≡ [] }
    ensures body { result.body ≡ record { nodes = []; slots = []; statements = []; labels = 0 } }
{
    Work {
        alloc,
        trace: Trace::new(alloc),
        body: AirBuilder::new(alloc),
    }
}

/// How far a unit came that ended so with these moves.
fn concluded(
    alloc: Global,
    ended: Result<UnitValue, Halt>,
    trace: Trace,
) -> Result<Attempt, InternFault>
    requires { NeedsResult ended }
    ensures full { is_full result ≡ halts_full ended }
    ensures attempt { IfOk result (λ a. AttemptBy ended trace a) }
{
    match ended {
        Ok(value) => {
            let value = Shared::new(alloc, value)?;
            Ok(Attempt {
                outcome: Outcome::Done(UnitResult::Good(value)),
                trace,
            })
        }
        Err(Halt::Wrong(diagnostic)) => Ok(Attempt {
            outcome: Outcome::Done(UnitResult::Failed(Some(diagnostic))),
            trace,
        }),
        Err(Halt::Needs(Question::Result(unit))) => Ok(Attempt {
            outcome: Outcome::Needs(unit),
            trace,
        }),
        Err(Halt::Needs(_)) => unreachable!(),
        Err(Halt::Returns(_)) => Ok(Attempt {
            outcome: Outcome::Done(UnitResult::Failed(None)),
            trace,
        }),
        Err(Halt::Failed) => Ok(Attempt {
            outcome: Outcome::Done(UnitResult::Failed(None)),
            trace,
        }),
        Err(Halt::Full { shard }) => Err(InternFault::Full { shard }),
        Err(Halt::OutOfMemory) => Err(InternFault::OutOfMemory),
    }
}

/// The unit of a declaration.
fn declared<I: Interner>(
    alloc: Global,
    cx: &Answers,
    decl: Index,
    p: &mut I,
) -> Result<Attempt, InternFault>
    requires decl { IsDecl (I.known p.old) decl }
    requires agrees { IsInjective (I.known p.old) }
    requires answers { AreAnswers (I.known p.old) cx.now }
    ensures interns { Interns I.known I.home I.fulls p.old p.new (is_full result) }
    ensures agrees { IsInjective (I.known p.new) }
    ensures attempt { IfOk result (λ a. IsAttempt (I.known p.new) cx.now a (course (I.known p.old) cx.now (plain.declaration (decl_at (I.known p.old) decl)))) }
{
    let mut s = begun(alloc);
    let ended = declaration(cx, decl, &mut s, p);
    let Work { trace, .. } = s;
    let attempt = concluded(alloc, ended, trace)?;
    Ok(attempt)
}

/// How far the unit of a body came that wrote this one, of a function with this result type.
fn written_attempt<I: Interner>(
    alloc: Global,
    trace: Trace,
    body: AirBuilder,
    ty: Index,
    p: &mut I,
) -> Result<Attempt, InternFault>
    requires ty { IsTy (I.known p.old) ty }
    requires body { IsState (I.known p.old) body }
    ensures interns { Interns I.known I.home I.fulls p.old p.new (is_full result) }
    ensures agrees { IsInjective (I.known p.new) }
    ensures attempt { IfOk result (λ a. WrittenAttempt (I.known p.old) (I.known p.new) body ty trace a) }
{
    match written_value(alloc, body, ty, p) {
        Ok(value) => {
            let attempt = concluded(alloc, Ok(value), trace)?;
            Ok(attempt)
        }
        Err(fault) => Err(fault),
    }
}

/// The unit of a body.
fn with_body<I: Interner>(
    alloc: Global,
    cx: &Answers,
    instance: Index,
    p: &mut I,
) -> Result<Attempt, InternFault>
    requires instance { IsInstance (I.known p.old) instance }
    requires agrees { IsInjective (I.known p.old) }
    requires answers { AreAnswers (I.known p.old) cx.now }
    ensures interns { Interns I.known I.home I.fulls p.old p.new (is_full result) }
    ensures agrees { IsInjective (I.known p.new) }
    ensures attempt { IfOk result (λ a. IsAttempt (I.known p.new) cx.now a (course (I.known p.old) cx.now (plain.body_of (instance_at (I.known p.old) instance)))) }
{
    let mut s = begun(alloc);
    match body_of(cx, instance, &mut s, p) {
        Ok(ty) => {
            let Work { trace, body, .. } = s;
            written_attempt(alloc, trace, body, ty, p)
        }
        Err(halt) => {
            let Work { trace, .. } = s;
            let attempt = concluded(alloc, Err(halt), trace)?;
            Ok(attempt)
        }
    }
}

/// A unit that asks nothing: it fails, which is shown at its declaration.
fn failed_at<I: Interner>(
    alloc: Global,
    cx: &Answers,
    unit: UnitIndex,
    code: DiagCode,
    p: &mut I,
) -> Result<Attempt, InternFault>
    requires unit { IsUnit (I.known p.old) unit }
    requires agrees { IsInjective (I.known p.old) }
    ensures interns { Interns I.known I.home I.fulls p.old p.new (is_full result) }
    ensures agrees { IsInjective (I.known p.new) }
    ensures attempt { IfOk result (λ a. IsAttempt (I.known p.new) cx.now a (ends (plain.failed_with (unit_at (I.known p.old) unit) code))) }
{
    let decl = decl_of(unit, p)?;
    Ok(Attempt {
        outcome: Outcome::Done(UnitResult::Failed(Some(Diagnostic {
            spot: Spot::Named(decl),
            code,
            text: Bytes::of(Vec::new(alloc)),
        }))),
        trace: Trace::new(alloc),
    })
}

/// How far a unit comes with the answers at hand. The units of code are not made here.
pub fn analyse<I: Interner>(
    alloc: Global,
    cx: &Answers,
    unit: UnitIndex,
    p: &mut I,
) -> Result<Attempt, InternFault>
    requires unit { IsUnit (I.known p.old) unit }
    requires kind { is_code unit ≡ false }
    requires agrees { IsInjective (I.known p.old) }
    requires answers { AreAnswers (I.known p.old) cx.now }
    ensures interns { Interns I.known I.home I.fulls p.old p.new (is_full result) }
    ensures agrees { IsInjective (I.known p.new) }
    ensures attempt { IfOk result (λ a. IsAttempt (I.known p.new) cx.now a (unit_run (I.known p.old) cx.now (unit_at (I.known p.old) unit))) }
{
    let is_long = is_too_long(alloc, unit, p)?;
    if is_long {
        let attempt = failed_at(alloc, cx, unit, DiagCode::NameTooLong, p)?;
        return Ok(attempt);
    }
    match unit {
        UnitIndex::Decl(decl) => {
            let attempt = declared(alloc, cx, decl, p)?;
            Ok(attempt)
        }
        UnitIndex::Body(instance) => {
            let attempt = with_body(alloc, cx, instance, p)?;
            Ok(attempt)
        }
        other => {
            let attempt = failed_at(alloc, cx, other, DiagCode::NotBuilt, p)?;
            Ok(attempt)
        }
    }
}

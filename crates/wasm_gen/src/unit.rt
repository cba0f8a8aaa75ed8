// The unit of the code of an instance.
ghost use Rattle.std.specs.Prelude.{◌≡◌, Some, None, true, false, [], ◌∷◌, IfOk};
ghost use Rattle.type_form.specs.Known.{Known, IsInjective};
ghost use Rattle.type_form.specs.Means.{IsDecl, decl_at, IsInstance, instance_at};
ghost use Rattle.type_form.specs.Pool.{Reads};
ghost use Rattle.type_form.specs.declared.unit.Unit.TheVariants as unit;
ghost use Rattle.question_runs.specs.Runs.{ends};
ghost use Rattle.elab_form.specs.Questions as asked;
ghost use Rattle.elab_form.specs.Units as plain;
ghost use Rattle.trace_log.specs.Attempts.{EndsSo, IsAttempt, unit_run};
ghost use Rattle.trace_log.specs.Readings.{IsUnitResult, IsUnitValue, unit_result_at, unit_value_at};
ghost use Rattle.trace_log.specs.Snapshots.{AreAnswers};
ghost use Rattle.trace_log.specs.declared.answer.Answer.TheVariants as answers;
ghost use Rattle.trace_log.specs.declared.answers.Answers.{Answers as AnyAnswers};
ghost use Rattle.trace_log.specs.declared.attempt.Outcome.TheVariants as outcome;
ghost use Rattle.trace_log.specs.declared.question.Question.TheVariants as question;
ghost use Rattle.trace_log.specs.declared.question.UnitIndex.TheVariants as index;
ghost use Rattle.trace_log.specs.declared.result.Spot.TheVariants as spot;
ghost use Rattle.trace_log.specs.declared.result.UnitResult.TheVariants as results;
ghost use Rattle.trace_log.specs.declared.trace.Move.TheVariants as move;

use crate::function::emit;
use std::alloc::{AllocError, Global};
use trace_log::{
    Answer, Answers, Attempt, Diagnostic, Outcome, Question, Shared, Spot, Trace, UnitIndex,
    UnitResult, UnitValue,
};
use type_form::{Index, Key, Keys};
use type_keys::instance_key;
use unit_trees::is_too_long;
use wasm_form::FnCode;
use zw_base::{Bytes, DiagCode};

/// The declaration of an instance.
fn declaration_of<P: Keys>(instance: Index, p: &mut P) -> Index
    requires { IsInstance (P.known p.old) instance }
    ensures reads { Reads P.known P.home P.fulls p.old p.new }
    ensures agrees { IsInjective (P.known p.new) }
    ensures known { IsDecl (P.known p.old) result }
    ensures decl { decl_at (P.known p.old) result ≡ (instance_at (P.known p.old) instance).decl }
{
    match instance_key(instance, p) {
        Key::Instance { decl, .. } => decl,
        _ => unreachable!(),
    }
}

/// A failure that is shown at the name of a declaration.
fn failed_at(alloc: Global, decl: Index, code: DiagCode) -> UnitResult
    ensures { result ≡ results.Failed (Some (record { spot = spot.Named decl; code = code; text = [] })) }
{
    UnitResult::Failed(Some(Diagnostic {
        spot: Spot::Named(decl),
        code,
        text: Bytes::of(Vec::new(alloc)),
    }))
}

/// The code of an instance, as the result of its unit.
fn good_code(alloc: Global, code: FnCode) -> Result<UnitResult, AllocError>
    ensures { IfOk result (λ r. (k : Known) → IsUnitResult k r × (unit_result_at k r ≡ asked.good (asked.UnitValue.code code))) }
{
    let value = Shared::new(alloc, UnitValue::Code(code))?;
    Ok(UnitResult::Good(value))
}

/// The result of the unit, by what its typed body is.
#[tactic(auto, using(air_form::proofs::Trees::nodes_growing), unfolding(elab_form::specs::Units::decl_of))]
fn result_by<P: Keys>(
    alloc: Global,
    instance: Index,
    value: &UnitValue,
    p: &mut P,
) -> Result<UnitResult, AllocError>
    requires instance { IsInstance (P.known p.old) instance }
    requires value { IsUnitValue (P.known p.old) value.now }
    requires one { IsInjective (P.known p.old) }
    ensures reads { Reads P.known P.home P.fulls p.old p.new }
    ensures agrees { IsInjective (P.known p.new) }
    ensures known { IfOk result (λ r. IsUnitResult (P.known p.old) r) }
    ensures value { IfOk result (λ r. unit_result_at (P.known p.old) r ≡ plain.code_answer (unit.Code (instance_at (P.known p.old) instance)) (asked.given (unit_value_at (P.known p.old) value.now))) }
{
    let decl = declaration_of(instance, p);
    match value {
        UnitValue::Body(body) => match emit(alloc, body, p)? {
            Some(code) => good_code(alloc, code),
            None => Ok(failed_at(alloc, decl, DiagCode::NotBuilt)),
        },
        _ => Ok(failed_at(alloc, decl, DiagCode::NotBuilt)),
    }
}

/// The trace of a unit that asked for a typed body and nothing else.
fn asked_body(alloc: Global, instance: Index, answer: Answer) -> Result<Trace, AllocError>
    ensures { IfOk result (λ t. t ≡ move.Asked (question.Result (index.Body instance)) answer ∷ []) }
{
    let mut trace = Trace::new(alloc);
    trace.push_asked(alloc, Question::Result(UnitIndex::Body(instance)), answer)?;
    Ok(trace)
}

/// The attempt where the typed body is given.
fn with_body<P: Keys>(
    alloc: Global,
    instance: Index,
    value: &Shared<UnitValue>,
    p: &mut P,
) -> Result<Attempt, AllocError>
    requires instance { IsInstance (P.known p.old) instance }
    requires value { IsUnitValue (P.known p.old) value.now }
    requires one { IsInjective (P.known p.old) }
    ensures reads { Reads P.known P.home P.fulls p.old p.new }
    ensures agrees { IsInjective (P.known p.new) }
    ensures trace { IfOk result (λ a. a.trace ≡ move.Asked (question.Result (index.Body instance)) (answers.Given value.now) ∷ []) }
    ensures outcome { IfOk result (λ a. EndsSo (P.known p.old) a.outcome (ends (plain.code_answer (unit.Code (instance_at (P.known p.old) instance)) (asked.given (unit_value_at (P.known p.old) value.now))))) }
{
    let answer = Answer::Given(value.share()?);
    let trace = asked_body(alloc, instance, answer)?;
    let result = result_by(alloc, instance, value.get(), p)?;
    Ok(Attempt {
        outcome: Outcome::Done(result),
        trace,
    })
}

/// The attempt where the unit of the typed body failed.
fn without_body(alloc: Global, instance: Index) -> Result<Attempt, AllocError>
    ensures trace { IfOk result (λ a. a.trace ≡ move.Asked (question.Result (index.Body instance)) answers.Failure ∷ []) }
    ensures outcome { IfOk result (λ a. a.outcome ≡ outcome.Done (results.Failed None)) }
{
    let trace = asked_body(alloc, instance, Answer::Failure)?;
    Ok(Attempt {
        outcome: Outcome::Done(UnitResult::Failed(None)),
        trace,
    })
}

/// The attempt of the unit of the code of an instance whose spelling is within the longest: its typed
/// body is asked for. It needs the body's unit where that has no result yet.
#[tactic(auto, using(crate::proofs::Runs::attempts))]
fn attempt_spelled_code<P: Keys>(
    alloc: Global,
    cx: &Answers,
    instance: Index,
    p: &mut P,
) -> Result<Attempt, AllocError>
    requires instance { IsInstance (P.known p.old) instance }
    requires one { IsInjective (P.known p.old) }
    requires answers { AreAnswers (P.known p.old) cx.now }
    requires short { plain.is_too_long (unit.Code (instance_at (P.known p.old) instance)) ≡ false }
    ensures reads { Reads P.known P.home P.fulls p.old p.new }
    ensures agrees { IsInjective (P.known p.new) }
    ensures attempt { IfOk result (λ a. IsAttempt (P.known p.old) cx.now a (unit_run (P.known p.old) cx.now (unit.Code (instance_at (P.known p.old) instance)))) }
{
    let body = UnitIndex::Body(instance);
    match cx.result(body) {
        Some(found) => match found.get() {
            UnitResult::Good(value) => with_body(alloc, instance, value, p),
            UnitResult::Failed(_) => without_body(alloc, instance),
        },
        None => Ok(Attempt {
            outcome: Outcome::Needs(body),
            trace: Trace::new(alloc),
        }),
    }
}

/// The attempt of the unit of the code of an instance whose spelling is longer than the longest: it
/// asks nothing, and what is wrong is shown at the function's name. It is the same whatever is answered.
fn attempt_long_code<P: Keys>(alloc: Global, instance: Index, p: &mut P) -> Attempt
    requires instance { IsInstance (P.known p.old) instance }
    requires long { plain.is_too_long (unit.Code (instance_at (P.known p.old) instance)) ≡ true }
    ensures reads { Reads P.known P.home P.fulls p.old p.new }
    ensures agrees { IsInjective (P.known p.new) }
    ensures attempt { (a : AnyAnswers) → IsAttempt (P.known p.old) a result (unit_run (P.known p.old) a (unit.Code (instance_at (P.known p.old) instance))) }
{
    let decl = declaration_of(instance, p);
    let failure = failed_at(alloc, decl, DiagCode::NameTooLong);
    Attempt {
        outcome: Outcome::Done(failure),
        trace: Trace::new(alloc),
    }
}

/// The attempt of the unit of the code of an instance: its typed body is asked for, unless the
/// unit's spelling has more than 4,096 bytes. It needs the body's unit where that has no result yet.
pub fn attempt_code<P: Keys>(
    alloc: Global,
    cx: &Answers,
    instance: Index,
    p: &mut P,
) -> Result<Attempt, AllocError>
    requires instance { IsInstance (P.known p.old) instance }
    requires one { IsInjective (P.known p.old) }
    requires answers { AreAnswers (P.known p.old) cx.now }
    ensures reads { Reads P.known P.home P.fulls p.old p.new }
    ensures agrees { IsInjective (P.known p.new) }
    ensures attempt { IfOk result (λ a. IsAttempt (P.known p.new) cx.now a
        (unit_run (P.known p.old) cx.now (unit.Code (instance_at (P.known p.old) instance)))) }
{
    if is_too_long(alloc, UnitIndex::Code(instance), p)? {
        Ok(attempt_long_code(alloc, instance, p))
    } else {
        attempt_spelled_code(alloc, cx, instance, p)
    }
}

// The reports of units, one for each.
ghost use Rattle.std.specs.Prelude.{◌≡◌, ◌++◌, ◌∷◌, [], ℕ, Option, Some, false, IfOk, OnOk, length, map};
ghost use Rattle.std.specs.List.{All};
ghost use Rattle.std.specs.Option.{option_map};
ghost use Rattle.type_form.specs.declared.unit.Unit.TheVariants as unit;
ghost use Rattle.type_form.specs.Known.{IsInjective};
ghost use Rattle.type_form.specs.Means.{IsInstance, instance_at};
ghost use Rattle.type_form.specs.Pool.{Interns, Reads, is_full};
ghost use Rattle.elab_form.specs.Units.{is_too_long};
ghost use Rattle.trace_log.specs.declared.result.UnitResult.TheVariants as outcome;
ghost use Rattle.trace_log.specs.Readings.{IsUnit, IsUnitResult, diagnostic_at, unit_at, unit_result_at, unit_value_at};
ghost use Rattle.trace_log.specs.Snapshots.{AreAnswers, files_at, results_at};
ghost use Rattle.unit_outcomes.specs.Reports as plain;
ghost use Rattle.unit_outcomes.specs.Reports.{AreSpelled, IsSpelled, reports_by};

use crate::functions::function_of;
use crate::places::{found_of, loop_found};
use crate::spelled::unit_bytes;
use std::alloc::{AllocError, Global};
use trace_log::{Answers, Diagnostic, UnitIndex, UnitResult, UnitValue};
use type_form::{Index, InternFault, Interner, Keys};
use unit_reports::{UnitReport, Waiting};
use zw_base::{Bytes, FilePath};

/// What is told of the unit of the code of an instance, which did not fail.
fn code_report<P: Keys>(
    alloc: Global,
    root: &FilePath,
    answers: &Answers,
    instance: Index,
    value: &UnitValue,
    p: &mut P,
) -> Result<UnitReport, AllocError>
    requires instance { IsInstance (P.known p.old) instance }
    requires one { IsInjective (P.known p.old) }
    requires answers { AreAnswers (P.known p.old) answers.now }
    requires short { is_too_long (unit.Code (instance_at (P.known p.old) instance)) ≡ false }
    ensures reads { Reads P.known P.home P.fulls p.old p.new }
    ensures agrees { IsInjective (P.known p.new) }
    ensures report { IfOk result (λ r. r ≡ plain.good_report root.now
        (files_at (P.known p.old) answers.now) (unit.Code (instance_at (P.known p.old) instance))
        (unit_value_at (P.known p.old) value.now)) }
{
    match value {
        UnitValue::Code(code) => {
            let function = function_of(alloc, root, answers, instance, code, p)?;
            Ok(UnitReport::Code(function))
        }
        UnitValue::Constant(_)
        | UnitValue::Variable(_)
        | UnitValue::Body(_)
        | UnitValue::ErrorSet(_)
        | UnitValue::Fields(_)
        | UnitValue::Nothing => Ok(UnitReport::Silent),
    }
}

/// What is told of a unit that did not fail.
fn good_report<P: Keys>(
    alloc: Global,
    root: &FilePath,
    answers: &Answers,
    unit: UnitIndex,
    value: &UnitValue,
    p: &mut P,
) -> Result<UnitReport, AllocError>
    requires unit { IsUnit (P.known p.old) unit }
    requires one { IsInjective (P.known p.old) }
    requires answers { AreAnswers (P.known p.old) answers.now }
    requires short { is_too_long (unit_at (P.known p.old) unit) ≡ false }
    ensures reads { Reads P.known P.home P.fulls p.old p.new }
    ensures agrees { IsInjective (P.known p.new) }
    ensures report { IfOk result (λ r. r ≡ plain.good_report root.now
        (files_at (P.known p.old) answers.now) (unit_at (P.known p.old) unit) (unit_value_at (P.known p.old) value.now)) }
{
    match unit {
        UnitIndex::Code(instance) => {
            let told = code_report(alloc, root, answers, instance, value, p)?;
            Ok(told)
        }
        UnitIndex::Decl(_)
        | UnitIndex::Body(_)
        | UnitIndex::ErrorSet(_)
        | UnitIndex::Fields(_)
        | UnitIndex::Comptime { .. } => Ok(UnitReport::Silent),
    }
}

/// What is told of a unit that failed.
fn failed_report<P: Keys>(
    alloc: Global,
    answers: &Answers,
    diagnostic: &Option<Diagnostic>,
    p: &mut P,
) -> Result<UnitReport, AllocError>
    requires diagnostic { IsUnitResult (P.known p.old) (outcome.Failed diagnostic.now) }
    requires one { IsInjective (P.known p.old) }
    requires answers { AreAnswers (P.known p.old) answers.now }
    ensures reads { Reads P.known P.home P.fulls p.old p.new }
    ensures agrees { IsInjective (P.known p.new) }
    ensures report { IfOk result (λ r. r ≡ plain.failed_report
        (files_at (P.known p.old) answers.now) (option_map (diagnostic_at (P.known p.old)) diagnostic.now)) }
{
    match diagnostic {
        Some(diagnostic) => {
            let found = found_of(alloc, answers, diagnostic, p)?;
            Ok(UnitReport::Failed(found))
        }
        None => Ok(UnitReport::Silent),
    }
}

/// What is told of a unit without a result, by the number of the unit that it waits for.
fn waiting_report<I: Interner>(
    alloc: Global,
    answers: &Answers,
    unit: UnitIndex,
    wait: Option<u32>,
    p: &mut I,
) -> Result<UnitReport, InternFault>
    requires unit { IsUnit (I.known p.old) unit }
    requires one { IsInjective (I.known p.old) }
    requires answers { AreAnswers (I.known p.old) answers.now }
    requires short { is_too_long (unit_at (I.known p.old) unit) ≡ false }
    ensures interns { Interns I.known I.home I.fulls p.old p.new (is_full result) }
    ensures agrees { IsInjective (I.known p.new) }
    ensures report { IfOk result (λ r. r ≡ plain.waiting_report
        (files_at (I.known p.old) answers.now) (unit_at (I.known p.old) unit) wait) }
{
    match wait {
        Some(next) => {
            let text = unit_bytes(alloc, unit, p)?;
            let found = loop_found(alloc, answers, unit, p)?;
            Ok(UnitReport::Waits(Waiting {
                next,
                text: Bytes::of(text),
                found,
            }))
        }
        None => Ok(UnitReport::Silent),
    }
}

/// What is told of a unit with this result.
fn result_report<P: Keys>(
    alloc: Global,
    root: &FilePath,
    answers: &Answers,
    unit: UnitIndex,
    found: &UnitResult,
    p: &mut P,
) -> Result<UnitReport, AllocError>
    requires unit { IsUnit (P.known p.old) unit }
    requires one { IsInjective (P.known p.old) }
    requires answers { AreAnswers (P.known p.old) answers.now }
    requires found { IsUnitResult (P.known p.old) found.now }
    requires spelled { IsSpelled (Some (unit_result_at (P.known p.old) found.now))
        (unit_at (P.known p.old) unit) }
    ensures reads { Reads P.known P.home P.fulls p.old p.new }
    ensures agrees { IsInjective (P.known p.new) }
    ensures report { IfOk result (λ r. (wait : Option ℕ) → r ≡ plain.report_by root.now
        (files_at (P.known p.old) answers.now) (unit_at (P.known p.old) unit)
        (Some (unit_result_at (P.known p.old) found.now)) wait) }
{
    match found {
        UnitResult::Good(value) => {
            let told = good_report(alloc, root, answers, unit, value.get(), p)?;
            Ok(told)
        }
        UnitResult::Failed(diagnostic) => {
            let told = failed_report(alloc, answers, diagnostic, p)?;
            Ok(told)
        }
    }
}

/// What is told of a unit.
fn report<I: Interner>(
    alloc: Global,
    root: &FilePath,
    answers: &Answers,
    unit: UnitIndex,
    wait: Option<u32>,
    p: &mut I,
) -> Result<UnitReport, InternFault>
    requires unit { IsUnit (I.known p.old) unit }
    requires one { IsInjective (I.known p.old) }
    requires answers { AreAnswers (I.known p.old) answers.now }
    requires spelled { IsSpelled
        (results_at (I.known p.old) answers.now (unit_at (I.known p.old) unit))
        (unit_at (I.known p.old) unit) }
    ensures interns { Interns I.known I.home I.fulls p.old p.new (is_full result) }
    ensures agrees { IsInjective (I.known p.new) }
    ensures report { IfOk result (λ r. r ≡ plain.report_by root.now
        (files_at (I.known p.old) answers.now) (unit_at (I.known p.old) unit)
        (results_at (I.known p.old) answers.now (unit_at (I.known p.old) unit)) wait) }
{
    match answers.result(unit) {
        Some(found) => {
            let told = result_report(alloc, root, answers, unit, found.get(), p)?;
            Ok(told)
        }
        None => {
            let told = waiting_report(alloc, answers, unit, wait, p)?;
            Ok(told)
        }
    }
}

/// Puts a report behind others.
fn put(one: UnitReport, told: &mut Vec<UnitReport>) -> Result<(), AllocError>
    ensures { OnOk result (told.new.items ≡ told.old.items ++ one ∷ []) }
{
    told.push(one)?;
    Ok(())
}

/// The reports of units: of each its diagnostic, its code as a function of the root, or what it
/// waits for, by the number in `waits`. An Err comes for want of memory and where the interner is
/// full.
pub fn reports<I: Interner>(
    alloc: Global,
    root: &FilePath,
    answers: &Answers,
    units: &[UnitIndex],
    waits: &[Option<u32>],
    p: &mut I,
) -> Result<Vec<UnitReport>, InternFault>
    requires units { All (IsUnit (I.known p.old)) units.now }
    requires one { IsInjective (I.known p.old) }
    requires answers { AreAnswers (I.known p.old) answers.now }
    requires long { length waits.now ≡ length units.now }
    requires spelled { AreSpelled (results_at (I.known p.old) answers.now) (map (unit_at (I.known p.old)) units.now) }
    ensures interns { Interns I.known I.home I.fulls p.old p.new (is_full result) }
    ensures agrees { IsInjective (I.known p.new) }
    ensures reports { IfOk result (λ v. v.items ≡ reports_by root.now (files_at (I.known p.old) answers.now)
        (results_at (I.known p.old) answers.now) (map (unit_at (I.known p.old)) units.now) waits.now) }
{
    let mut told = Vec::new(alloc);
    for number in 0..units.len() {
        let one = report(alloc, root, answers, units[number], waits[number], p)?;
        put(one, &mut told)?;
    }
    Ok(told)
}

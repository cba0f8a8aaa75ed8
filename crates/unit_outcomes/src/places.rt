// Places of diagnostics in the root, and diagnostics with their places.
ghost use Rattle.std.specs.Prelude.{◌≡◌, IfOk};
ghost use Rattle.type_form.specs.Known.{IsInjective};
ghost use Rattle.type_form.specs.Pool.{Interns, Reads, is_full};
ghost use Rattle.trace_log.specs.Readings as readings;
ghost use Rattle.trace_log.specs.Readings.{IsDiagnostic, IsSpot, IsUnit, diagnostic_at, unit_at};
ghost use Rattle.trace_log.specs.Snapshots.{AreAnswers, files_at};
ghost use Rattle.unit_outcomes.specs.Reports as plain;

use crate::copies::copy_bytes;
use std::alloc::{AllocError, Global};
use trace_log::{Answers, Diagnostic, Spot, UnitIndex};
use type_form::{InternFault, Interner, Keys};
use unit_trees::decl_of;
use zw_base::{Bytes, DiagCode, Found, Span};

/// The last byte that is shown.
const LAST: u64 = 0xffff_ffff;

/// A byte of the root: what stands nowhere is shown at the start.
fn offset_by(offset: Option<u64>) -> u32
    ensures { result ≡ plain.offset_by offset }
{
    match offset {
        Some(offset) => {
            let shown = offset.min(LAST);
            shown as u32
        }
        None => 0,
    }
}

/// Where what a diagnostic points at is shown.
#[tactic(auto, unfolding(crate::specs::Reports::spot_at))]
pub(crate) fn spot_at<P: Keys>(
    alloc: Global,
    answers: &Answers,
    spot: Spot,
    p: &mut P,
) -> Result<u32, AllocError>
    requires spot { IsSpot (P.known p.old) spot }
    requires one { IsInjective (P.known p.old) }
    requires answers { AreAnswers (P.known p.old) answers.now }
    ensures reads { Reads P.known P.home P.fulls p.old p.new }
    ensures agrees { IsInjective (P.known p.new) }
    ensures offset { IfOk result (λ n. n ≡ plain.spot_at (files_at (P.known p.old) answers.now)
        (readings.spot_at (P.known p.old) spot)) }
{
    let offset = answers.spot_offset(alloc, spot, p)?;
    Ok(offset_by(offset))
}

/// A diagnostic of one place.
fn found_at(code: DiagCode, offset: u32, text: Bytes) -> Found
    ensures { result ≡ plain.found_at code offset text }
{
    Found {
        code,
        span: Span {
            start: offset,
            end: offset,
        },
        text,
    }
}

/// A diagnostic of a unit, in its place.
pub(crate) fn found_of<P: Keys>(
    alloc: Global,
    answers: &Answers,
    diagnostic: &Diagnostic,
    p: &mut P,
) -> Result<Found, AllocError>
    requires diagnostic { IsDiagnostic (P.known p.old) diagnostic.now }
    requires one { IsInjective (P.known p.old) }
    requires answers { AreAnswers (P.known p.old) answers.now }
    ensures reads { Reads P.known P.home P.fulls p.old p.new }
    ensures agrees { IsInjective (P.known p.new) }
    ensures found { IfOk result (λ f. f ≡ plain.found_of (files_at (P.known p.old) answers.now)
        (diagnostic_at (P.known p.old) diagnostic.now)) }
{
    let offset = spot_at(alloc, answers, diagnostic.spot, p)?;
    let text = copy_bytes(alloc, &diagnostic.text)?;
    Ok(found_at(diagnostic.code, offset, text))
}

/// That units wait for each other, shown at the declaration of one.
pub(crate) fn loop_found<I: Interner>(
    alloc: Global,
    answers: &Answers,
    unit: UnitIndex,
    p: &mut I,
) -> Result<Found, InternFault>
    requires unit { IsUnit (I.known p.old) unit }
    requires one { IsInjective (I.known p.old) }
    requires answers { AreAnswers (I.known p.old) answers.now }
    ensures interns { Interns I.known I.home I.fulls p.old p.new (is_full result) }
    ensures agrees { IsInjective (I.known p.new) }
    ensures found { IfOk result (λ f. f ≡ plain.loop_found (files_at (I.known p.old) answers.now)
        (unit_at (I.known p.old) unit)) }
{
    let decl = decl_of(unit, p)?;
    let offset = spot_at(alloc, answers, Spot::Named(decl), p)?;
    Ok(found_at(
        DiagCode::DeclarationLoop,
        offset,
        Bytes::of(Vec::new(alloc)),
    ))
}

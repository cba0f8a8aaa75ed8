// The analysis of a root file.
ghost use Rattle.std.specs.Prelude.{◌≡◌, ◌≤◌, IfOk, length, map};
ghost use Rattle.std.specs.List.{All};
ghost use Rattle.zir_form.specs.Front.{front_in};
ghost use Rattle.type_form.specs.Known.{IsInjective};
ghost use Rattle.trace_log.specs.Readings.{IsUnit, unit_at};
ghost use Rattle.trace_log.specs.Snapshots.{AreAnswers, files_at, results_at};
ghost use Rattle.unit_outcomes.specs.Reports.{AreSpelled};
ghost use Rattle.root_analysis.specs.Analysis.{analysis};
ghost use Rattle.root_analysis.specs.Telling.{told_by};

use crate::analyst::UnitAnalyst;
use crate::roots::root_units;
use crate::snapshot::snapshot;
use pool_plain::PlainPool;
use std::alloc::{AllocError, Global};
use trace_log::Shared;
use type_form::{InternFault, Interner};
use type_keys::intern_bytes;
use unit_outcomes::reports;
use unit_reports::{Told, tell};
use unit_rounds::{Rest, Rounds, analyse_all};
use wasm_link::Function;
use zir_form::Front;
use zw_base::{FilePath, Found, Seq};

/// What the analysis of a root file comes to.
#[derive(Debug, Drop)]
pub enum RootAnalysis {
    /// To more than 65,536 units.
    TooMany,
    /// To so many units, their diagnostics in the root, and the functions that are linked.
    Told {
        units: u32,
        founds: Seq<Found>,
        functions: Seq<Function>,
    },
}

/// What the units tell that analysis came to rest with.
fn told<I: Interner>(
    alloc: Global,
    root: &FilePath,
    rest: Rest,
    p: &mut I,
) -> Result<RootAnalysis, InternFault>
    requires units { All (IsUnit (I.known p.old)) rest.units.items }
    requires one { IsInjective (I.known p.old) }
    requires answers { AreAnswers (I.known p.old) rest.answers }
    requires long { length rest.waits.items ≡ length rest.units.items }
    requires few { length rest.units.items ≤ 65536 }
    requires spelled { AreSpelled (results_at (I.known p.old) rest.answers)
        (map (unit_at (I.known p.old)) rest.units.items) }
    ensures { IfOk result (λ a. a ≡ told_by root.now (files_at (I.known p.old) rest.answers)
        (results_at (I.known p.old) rest.answers)
        (map (unit_at (I.known p.old)) rest.units.items) rest.waits.items) }
{
    let Rest {
        units,
        answers,
        waits,
    } = rest;
    let count = units.len() as u32;
    let list = reports(alloc, root, &answers, units.as_slice(), waits.as_slice(), p)?;
    let Told { founds, functions } = tell(alloc, list)?;
    Ok(RootAnalysis::Told {
        units: count,
        founds: Seq::of(founds),
        functions: Seq::of(functions),
    })
}

/// The analysis, over an interner.
fn analysed<I: Interner>(
    alloc: Global,
    root: &FilePath,
    front: &Shared<Front>,
    p: &mut I,
) -> Result<RootAnalysis, InternFault>
    requires { IsInjective (I.known p.old) }
    ensures { IfOk result (λ a. a ≡ analysis root.now (front_in front.now)) }
{
    let path = intern_bytes(root.as_str().as_bytes(), p)?;
    let answers = snapshot(alloc, path, front)?;
    let roots = root_units(alloc, path, front.get(), p)?;
    match analyse_all(alloc, &UnitAnalyst, roots.as_slice(), answers, p) {
        Err(fault) => Err(fault),
        Ok(rounds) => match rounds {
            Rounds::Rest(rest) => told(alloc, root, rest, p),
            Rounds::TooMany => Ok(RootAnalysis::TooMany),
        },
    }
}

/// Analyses what a root file exports, and all that this asks for. Each unit is attempted once, and
/// once more for each result that it waited for. The plain interner is never full.
pub fn analyse_root(
    alloc: Global,
    root: &FilePath,
    front: &Shared<Front>,
) -> Result<RootAnalysis, AllocError>
    ensures { IfOk result (λ a. a ≡ analysis root.now (front_in front.now)) }
{
    let mut pool = PlainPool::new(alloc);
    match analysed(alloc, root, front, &mut pool) {
        Ok(analysis) => Ok(analysis),
        Err(_) => Err(AllocError),
    }
}

// The diagnostics and the functions of reports.
ghost use Rattle.std.specs.Prelude.{◌≡◌, ◌<◌, ◌^◌, ◌++◌, IfOk, length};
ghost use Rattle.unit_reports.specs.Parts.{marked_founds};
ghost use Rattle.unit_reports.specs.Told.{told_founds, told_functions};

use crate::parts::Parts;
use crate::report::UnitReport;
use pointer_cycles::least_of_cycles;
use std::alloc::{AllocError, Global};
use wasm_link::Function;
use zw_base::Found;

/// What the reports of all units tell.
#[derive(Debug, Drop)]
pub struct Told {
    /// The diagnostics of the units that failed, in their order, and then one for each cycle of units
    /// that wait for each other.
    pub founds: Vec<Found>,
    /// The functions, in the order of the units of their code.
    pub functions: Vec<Function>,
}

/// The diagnostics and the functions of reports. A cycle is told at its unit of least spelling, and
/// units on the way to it are not. Time grows with the reports and their texts.
pub fn tell(alloc: Global, reports: Vec<UnitReport>) -> Result<Told, AllocError>
    requires few { length reports.items < 2 ^ 32 }
    ensures founds { IfOk result (λ t. t.founds.items ≡ told_founds reports.items) }
    ensures functions { IfOk result (λ t. t.functions.items ≡ told_functions reports.items) }
{
    let Parts {
        failures,
        functions,
        next,
        texts,
        loops,
    } = Parts::of(alloc, reports)?;
    let marks = least_of_cycles(alloc, next.as_slice(), texts.as_slice())?;
    let founds = with_marked(failures, loops, marks)?;
    Ok(Told { founds, functions })
}

/// Diagnostics, and behind them those of the marked units.
fn with_marked(
    mut founds: Vec<Found>,
    loops: Vec<Option<Found>>,
    marks: Vec<bool>,
) -> Result<Vec<Found>, AllocError>
    ensures { IfOk result (λ v. v.items ≡ founds.items ++ marked_founds loops.items marks.items) }
{
    founds.extend(
        loops
            .into_iter()
            .zip(marks)
            .filter_map(|(found, marked)| if marked { found } else { None }),
    )?;
    Ok(founds)
}

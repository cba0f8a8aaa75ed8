// Reports, parted by what each tells.
ghost use Rattle.std.specs.Prelude.{◌≡◌, ◌++◌, ◌∷◌, [], IfOk, OnOk, None, flat_map, map};
ghost use Rattle.unit_reports.specs.Told.{failure_in, function_in, next_in, text_in};
ghost use Rattle.unit_reports.specs.Parts.{waiting_found};

use crate::report::{UnitReport, Waiting};
use std::alloc::{AllocError, Global};
use wasm_link::Function;
use zw_base::{Bytes, Found};

/// Reports, parted by what each tells.
#[derive(Debug, Drop)]
pub(crate) struct Parts {
    /// The diagnostics of the units that failed.
    pub failures: Vec<Found>,
    /// The functions.
    pub functions: Vec<Function>,
    /// For each unit the number of the one that it waits for.
    pub next: Vec<Option<u32>>,
    /// For each unit its spelling, which is empty where it waits for none.
    pub texts: Vec<Bytes>,
    /// For each unit what is told where it is the least of a cycle.
    pub loops: Vec<Option<Found>>,
}

impl Parts {
    /// No reports.
    fn new(alloc: Global) -> Parts
        ensures failures { result.failures.items ≡ [] }
        ensures functions { result.functions.items ≡ [] }
        ensures next { result.next.items ≡ [] }
        ensures texts { result.texts.items ≡ [] }
        ensures loops { result.loops.items ≡ [] }
    {
        Parts {
            failures: Vec::new(alloc),
            functions: Vec::new(alloc),
            next: Vec::new(alloc),
            texts: Vec::new(alloc),
            loops: Vec::new(alloc),
        }
    }

    /// Adds that a unit waits for none.
    fn put_no_wait(&mut self, alloc: Global) -> Result<(), AllocError>
        ensures failures { self.new.failures.items ≡ self.old.failures.items }
        ensures functions { self.new.functions.items ≡ self.old.functions.items }
        ensures next { OnOk result (self.new.next.items ≡ self.old.next.items ++ None ∷ []) }
        ensures texts { OnOk result (self.new.texts.items ≡ self.old.texts.items ++ [] ∷ []) }
        ensures loops { OnOk result (self.new.loops.items ≡ self.old.loops.items ++ None ∷ []) }
    {
        self.next.push(None)?;
        self.texts.push(Bytes::of(Vec::new(alloc)))?;
        self.loops.push(None)?;
        Ok(())
    }

    /// Adds the report of a unit.
    fn put(&mut self, alloc: Global, report: UnitReport) -> Result<(), AllocError>
        ensures failures { OnOk result
            (self.new.failures.items ≡ self.old.failures.items ++ failure_in report) }
        ensures functions { OnOk result
            (self.new.functions.items ≡ self.old.functions.items ++ function_in report) }
        ensures next { OnOk result
            (self.new.next.items ≡ self.old.next.items ++ next_in report ∷ []) }
        ensures texts { OnOk result
            (self.new.texts.items ≡ self.old.texts.items ++ text_in report ∷ []) }
        ensures loops { OnOk result
            (self.new.loops.items ≡ self.old.loops.items ++ waiting_found report ∷ []) }
    {
        match report {
            UnitReport::Silent => {
                self.put_no_wait(alloc)?;
                Ok(())
            }
            UnitReport::Failed(found) => {
                self.failures.push(found)?;
                self.put_no_wait(alloc)?;
                Ok(())
            }
            UnitReport::Code(function) => {
                self.functions.push(function)?;
                self.put_no_wait(alloc)?;
                Ok(())
            }
            UnitReport::Waits(Waiting { next, text, found }) => {
                self.next.push(Some(next))?;
                self.texts.push(text)?;
                self.loops.push(Some(found))?;
                Ok(())
            }
        }
    }

    /// The parts of reports.
    pub(crate) fn of(alloc: Global, reports: Vec<UnitReport>) -> Result<Parts, AllocError>
        ensures failures { IfOk result (λ p. p.failures.items ≡ flat_map failure_in reports.items) }
        ensures functions { IfOk result (λ p. p.functions.items ≡ flat_map function_in reports.items) }
        ensures next { IfOk result (λ p. p.next.items ≡ map next_in reports.items) }
        ensures texts { IfOk result (λ p. p.texts.items ≡ map text_in reports.items) }
        ensures loops { IfOk result (λ p. p.loops.items ≡ map waiting_found reports.items) }
    {
        let mut parts = Parts::new(alloc);
        for report in reports {
            parts.put(alloc, report)?;
        }
        Ok(parts)
    }
}

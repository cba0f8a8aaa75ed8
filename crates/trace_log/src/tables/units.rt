// Values by units of analysis.
use crate::question::UnitIndex;
use crate::shared::Shared;
use crate::tables::pairs::PairTable;
use crate::tables::table::Table;
use std::alloc::{AllocError, Global};

/// Values by units of analysis.
#[derive(Drop)]
pub struct UnitTable<T> {
    decls: Table<T>,
    bodies: Table<T>,
    error_sets: Table<T>,
    fields: Table<T>,
    codes: Table<T>,
    comptimes: PairTable<T>,
}

impl<T> UnitTable<T> {
    ghost use Rattle.std.specs.Prelude.{◌≡◌, None};
    ghost use Rattle.std.specs.Option.{option_copied};
    ghost use Rattle.trace_log.specs.declared.question.UnitIndex.{UnitIndex};
    ghost use Rattle.trace_log.specs.TableStates.{unit_get};

    /// No values. Takes no memory.
    #[tactic(auto, using(crate::proofs::TableCases::unit_cases))]
    pub fn new() -> UnitTable<T>
        ensures { (u : UnitIndex) → unit_get result u ≡ None }
    {
        UnitTable {
            decls: Table::new(),
            bodies: Table::new(),
            error_sets: Table::new(),
            fields: Table::new(),
            codes: Table::new(),
            comptimes: PairTable::new(),
        }
    }

    /// What stands at a unit.
    #[tactic(auto, unfolding(crate::specs::TableStates::unit_get))]
    pub fn get(&self, unit: UnitIndex) -> Option<&Shared<T>>
        ensures { option_copied result ≡ unit_get self.now unit }
    {
        match unit {
            UnitIndex::Decl(i) => self.decls.get(i.0),
            UnitIndex::Body(i) => self.bodies.get(i.0),
            UnitIndex::ErrorSet(i) => self.error_sets.get(i.0),
            UnitIndex::Fields(i) => self.fields.get(i.0),
            UnitIndex::Code(i) => self.codes.get(i.0),
            UnitIndex::Comptime { file, number } => {
                self.comptimes.get(file.0, u64::from(number))
            }
        }
    }
}

impl<T: Drop> UnitTable<T> {
    ghost use Rattle.std.specs.Prelude.{◌≡◌, IfOk, OnOk, OnErr};
    ghost use Rattle.trace_log.specs.declared.question.UnitIndex.{UnitIndex};
    ghost use Rattle.trace_log.specs.TableStates.{unit_get, PutsUnit};

    /// The same table once more, which a change of this one leaves as it is.
    #[tactic(auto, using(crate::proofs::TableCases::unit_cases))]
    pub fn share(&self) -> Result<UnitTable<T>, AllocError>
        ensures { IfOk result (λ t. (u : UnitIndex) → unit_get t u ≡ unit_get self.now u) }
    {
        Ok(UnitTable {
            decls: self.decls.share()?,
            bodies: self.bodies.share()?,
            error_sets: self.error_sets.share()?,
            fields: self.fields.share()?,
            codes: self.codes.share()?,
            comptimes: self.comptimes.share()?,
        })
    }

    /// Puts a value at a unit. An Err leaves the table as it was.
    #[tactic(auto, using(crate::proofs::TableCases::unit_cases))]
    pub fn put(
        &mut self,
        alloc: Global,
        unit: UnitIndex,
        value: Shared<T>,
    ) -> Result<(), AllocError>
        ensures ok { OnOk result (PutsUnit (unit_get self.old) (unit_get self.new) unit value) }
        ensures err { OnErr result (self.new ≡ self.old) }
    {
        match unit {
            UnitIndex::Decl(i) => self.decls.put(alloc, i.0, value),
            UnitIndex::Body(i) => self.bodies.put(alloc, i.0, value),
            UnitIndex::ErrorSet(i) => self.error_sets.put(alloc, i.0, value),
            UnitIndex::Fields(i) => self.fields.put(alloc, i.0, value),
            UnitIndex::Code(i) => self.codes.put(alloc, i.0, value),
            UnitIndex::Comptime { file, number } => {
                self.comptimes.put(alloc, file.0, u64::from(number), value)
            }
        }
    }
}

// Values by pairs of numbers.
use crate::shared::Shared;
use crate::tables::table::Table;
use std::alloc::{AllocError, Global};

/// Values by pairs of numbers: at the first number a row, and in it the value at the second.
#[derive(Drop)]
pub struct PairTable<T> {
    rows: Table<Table<T>>,
}

impl<T> PairTable<T> {
    ghost use Rattle.std.specs.Prelude.{◌≡◌, ℕ, None, IfOk};
    ghost use Rattle.std.specs.Option.{option_copied};
    ghost use Rattle.trace_log.specs.TableStates.{pair_get};

    /// No values. Takes no memory.
    #[tactic(auto, unfolding(crate::specs::TableStates::pair_get))]
    pub fn new() -> PairTable<T>
        ensures { (m n : ℕ) → pair_get result m n ≡ None }
    {
        PairTable { rows: Table::new() }
    }

    /// What stands at a pair of numbers.
    #[tactic(auto, unfolding(crate::specs::TableStates::pair_get))]
    pub fn get(&self, first: u64, second: u64) -> Option<&Shared<T>>
        ensures { option_copied result ≡ pair_get self.now first second }
    {
        match self.rows.get(first) {
            Some(row) => row.get().get(second),
            None => None,
        }
    }

    /// The same table once more, which a change of this one leaves as it is.
    #[tactic(auto, unfolding(crate::specs::TableStates::pair_get))]
    pub fn share(&self) -> Result<PairTable<T>, AllocError>
        ensures { IfOk result (λ t. (m n : ℕ) → pair_get t m n ≡ pair_get self.now m n) }
    {
        Ok(PairTable {
            rows: self.rows.share()?,
        })
    }
}

impl<T: Drop> PairTable<T> {
    ghost use Rattle.std.specs.Prelude.{◌≡◌, ℕ, None, IfOk, OnOk, OnErr};
    ghost use Rattle.trace_log.specs.TableStates.{pair_get, row_get, table_get, PutsPair};

    /// The row at a number, once more.
    fn row(&self, first: u64) -> Result<Table<T>, AllocError>
        ensures { IfOk result (λ t. (n : ℕ) → table_get t n ≡ row_get (table_get self.now.rows first) n) }
    {
        match self.rows.get(first) {
            Some(row) => row.get().share(),
            None => Ok(Table::new()),
        }
    }

    /// Puts a value at a pair of numbers. An Err leaves the table as it was.
    pub fn put(
        &mut self,
        alloc: Global,
        first: u64,
        second: u64,
        value: Shared<T>,
    ) -> Result<(), AllocError>
        ensures ok { OnOk result (PutsPair (pair_get self.old) (pair_get self.new) first second value) }
        ensures err { OnErr result (self.new ≡ self.old) }
    {
        let mut row = self.row(first)?;
        row.put(alloc, second, value)?;
        let row = Shared::new(alloc, row)?;
        self.rows.put(alloc, first, row)?;
        Ok(())
    }
}

// Values by parts of files.
use crate::question::TextPart;
use crate::shared::Shared;
use crate::tables::pairs::PairTable;
use crate::tables::table::Table;
use std::alloc::{AllocError, Global};

/// Values by parts of files.
#[derive(Drop)]
pub struct PartTable<T> {
    heads: Table<T>,
    wholes: Table<T>,
    fields: Table<T>,
    blocks: PairTable<T>,
}

impl<T> PartTable<T> {
    ghost use Rattle.std.specs.Prelude.{◌≡◌, None, IfOk};
    ghost use Rattle.std.specs.Option.{option_copied};
    ghost use Rattle.trace_log.specs.declared.question.TextPart.{TextPart};
    ghost use Rattle.trace_log.specs.TableStates.{part_get};

    /// No values. Takes no memory.
    #[tactic(auto, using(crate::proofs::TableCases::part_cases))]
    pub fn new() -> PartTable<T>
        ensures { (p : TextPart) → part_get result p ≡ None }
    {
        PartTable {
            heads: Table::new(),
            wholes: Table::new(),
            fields: Table::new(),
            blocks: PairTable::new(),
        }
    }

    /// What stands at a part.
    #[tactic(auto, unfolding(crate::specs::TableStates::part_get))]
    pub fn get(&self, part: TextPart) -> Option<&Shared<T>>
        ensures { option_copied result ≡ part_get self.now part }
    {
        match part {
            TextPart::Head(i) => self.heads.get(i.0),
            TextPart::Whole(i) => self.wholes.get(i.0),
            TextPart::Fields(i) => self.fields.get(i.0),
            TextPart::Block { file, number } => self.blocks.get(file.0, u64::from(number)),
        }
    }
}

impl<T: Drop> PartTable<T> {
    ghost use Rattle.std.specs.Prelude.{◌≡◌, OnOk, OnErr};
    ghost use Rattle.trace_log.specs.TableStates.{part_get, PutsPart};

    /// Puts a value at a part. An Err leaves the table as it was.
    #[tactic(auto, using(crate::proofs::TableCases::part_cases))]
    pub fn put(&mut self, alloc: Global, part: TextPart, value: Shared<T>) -> Result<(), AllocError>
        ensures ok { OnOk result (PutsPart (part_get self.old) (part_get self.new) part value) }
        ensures err { OnErr result (self.new ≡ self.old) }
    {
        match part {
            TextPart::Head(i) => self.heads.put(alloc, i.0, value),
            TextPart::Whole(i) => self.wholes.put(alloc, i.0, value),
            TextPart::Fields(i) => self.fields.put(alloc, i.0, value),
            TextPart::Block { file, number } => {
                self.blocks.put(alloc, file.0, u64::from(number), value)
            }
        }
    }
}

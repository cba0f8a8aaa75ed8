// Units by indices, each once, with their numbers.
use std::alloc::{AllocError, Global};
use std::marker::Model;
use trace_log::{Move, Question, Shared, UnitIndex, UnitTable};

/// Units, each once, in the order in which they came to be known, and the number of each. Contracts
/// see their list.
#[derive(Drop)]
pub struct KnownUnits {
    units: Vec<UnitIndex>,
    /// The number of each unit.
    numbers: UnitTable<u64>,
}

impl Model for KnownUnits {
    ghost use Rattle.std.specs.Prelude.{List};
    ghost use Rattle.std.specs.Coded.{coded_list};
    ghost use Rattle.trace_log.specs.declared.question.UnitIndex.{UnitIndex};
    ghost use Rattle.trace_log.specs.contracts.question.UnitIndex as row;
    ghost use Rattle.trace_log.specs.TableStates.{unit_get};
    ghost use Rattle.unit_rounds.specs.KnownUnits.{HasNumbers};

    ghost Value = { List UnitIndex };

    ghost coded = { coded_list row.the_row.coded };

    ghost view = { λ s. s.units.items };

    ghost invariant = { λ s. HasNumbers s.units.items (unit_get s.numbers) };
}

impl KnownUnits {
    ghost use Rattle.std.specs.Prelude.{◌≡◌, [], Some, IfOk, OnOk, OnErr, slice_get};
    ghost use Rattle.unit_rounds.specs.KnownUnits.{with_index, with_indices};
    ghost use Rattle.unit_rounds.specs.MetUnits.{unit_of_move, units_of_moves};

    /// No units. Takes no memory.
    pub fn new(alloc: Global) -> KnownUnits
        ensures { result ≡ [] }
    {
        KnownUnits {
            units: Vec::new(alloc),
            numbers: UnitTable::new(),
        }
    }

    /// The units, in the order in which they came to be known.
    pub fn units(&self) -> &[UnitIndex]
        ensures { result.now ≡ self.now }
    {
        self.units.as_slice()
    }

    /// The units alone.
    pub fn into_units(self) -> Vec<UnitIndex>
        ensures { result.items ≡ self }
    {
        self.units
    }

    /// The number of a unit, which is put behind the others unless it is there. An Err leaves the units
    /// as they were.
    pub fn note(&mut self, alloc: Global, unit: UnitIndex) -> Result<u64, AllocError>
        ensures ok { OnOk result (self.new ≡ with_index self.old unit) }
        ensures number { IfOk result (λ n. slice_get self.new n ≡ Some unit) }
        ensures err { OnErr result (self.new ≡ self.old) }
    {
        if let Some(number) = self.numbers.get(unit) {
            return Ok(*number.get());
        }
        let place = self.units.len() as u64;
        let number = Shared::new(alloc, place)?;
        self.units.push(unit)?;
        match self.numbers.put(alloc, unit, number) {
            Ok(()) => Ok(place),
            Err(error) => {
                let _ = self.units.pop();
                Err(error)
            }
        }
    }

    /// Puts units behind the others, each unless it is there.
    pub fn note_all(&mut self, alloc: Global, units: &[UnitIndex]) -> Result<(), AllocError>
        ensures { OnOk result (self.new ≡ with_indices self.old units.now) }
    {
        for unit in units {
            self.note(alloc, *unit)?;
        }
        Ok(())
    }

    /// Puts the unit that a move meets behind the others, unless it is there.
    fn note_move(&mut self, alloc: Global, done: &Move) -> Result<(), AllocError>
        ensures { OnOk result (self.new ≡ with_indices self.old (unit_of_move done.now)) }
    {
        match done {
            Move::Asked {
                question: Question::Result(unit),
                ..
            } => {
                self.note(alloc, *unit)?;
                Ok(())
            }
            Move::Asked { .. } => Ok(()),
            Move::Referred(unit) => {
                self.note(alloc, *unit)?;
                Ok(())
            }
        }
    }

    /// Puts the units that moves meet behind the others, each unless it is there.
    pub fn note_moves(&mut self, alloc: Global, moves: &[Move]) -> Result<(), AllocError>
        ensures { OnOk result (self.new ≡ with_indices self.old (units_of_moves moves.now)) }
    {
        for done in moves {
            self.note_move(alloc, done)?;
        }
        Ok(())
    }
}

// The answers that a run is given: what the files are, and the results that are there.
ghost use Rattle.std.specs.Prelude.{◌≡◌, slice_get};
ghost use Rattle.std.specs.Option.{option_copied};
ghost use Rattle.zir_form.specs.Front.{lines_in};

use crate::answer::TreeRef;
use crate::question::UnitIndex;
use crate::result::UnitResult;
use crate::shared::Shared;
use crate::tables::{Table, UnitTable};
use std::alloc::{AllocError, Global};
use type_form::Index;
use zir_form::{Form, Front};

/// A snapshot of what can be answered: the fronts of files by numbers, which front each file has, by
/// the index of its path, and the results of units. A copy costs nothing, and a change leaves copies
/// as they are and costs what it changes, so workers share one.
#[derive(Drop)]
pub struct Answers {
    fronts: Table<Front>,
    files: Table<u32>,
    results: UnitTable<UnitResult>,
}

impl Answers {
    ghost use Rattle.std.specs.Prelude.{◌≡◌, ◌==◌, ℕ, Some, None, IfOk, OnOk, OnErr, slice_get, if◌then◌else◌};
    ghost use Rattle.std.specs.Option.{option_copied};
    ghost use Rattle.type_form.specs.declared.index.Index.{Index};
    ghost use Rattle.trace_log.specs.declared.question.UnitIndex.{UnitIndex};
    ghost use Rattle.trace_log.specs.Tables.{PutsAt};
    ghost use Rattle.trace_log.specs.TableStates.{PutsUnit};
    ghost use Rattle.trace_log.specs.Snapshots.{front_get, file_get, result_get, lines_of};

    /// Nothing. Takes no memory.
    #[tactic(auto, unfolding(crate::specs::Snapshots::front_get, crate::specs::Snapshots::file_get, crate::specs::Snapshots::result_get))]
    pub fn new() -> Answers
        ensures fronts { (n : ℕ) → front_get result n ≡ None }
        ensures files { (path : Index) → file_get result path ≡ None }
        ensures results { (u : UnitIndex) → result_get result u ≡ None }
    {
        Answers {
            fronts: Table::new(),
            files: Table::new(),
            results: UnitTable::new(),
        }
    }

    /// The same snapshot once more.
    #[tactic(auto, unfolding(crate::specs::Snapshots::front_get, crate::specs::Snapshots::file_get, crate::specs::Snapshots::result_get))]
    pub fn share(&self) -> Result<Answers, AllocError>
        ensures fronts { IfOk result (λ a. (n : ℕ) → front_get a n ≡ front_get self.now n) }
        ensures files { IfOk result (λ a. (path : Index) → file_get a path ≡ file_get self.now path) }
        ensures results { IfOk result (λ a. (u : UnitIndex) → result_get a u ≡ result_get self.now u) }
    {
        Ok(Answers {
            fronts: self.fronts.share()?,
            files: self.files.share()?,
            results: self.results.share()?,
        })
    }

    /// The front with a number.
    #[tactic(auto, unfolding(crate::specs::Snapshots::front_get))]
    pub fn front(&self, number: u32) -> Option<&Shared<Front>>
        ensures { option_copied result ≡ front_get self.now number }
    {
        self.fronts.get(u64::from(number))
    }

    /// The number of the front of a file, by the index of its path.
    #[tactic(auto, unfolding(crate::specs::Snapshots::file_get))]
    pub fn file(&self, path: Index) -> Option<u32>
        ensures { result ≡ file_get self.now path }
    {
        match self.files.get(path.0) {
            Some(number) => Some(*number.get()),
            None => None,
        }
    }

    /// The result of a unit, if it is there.
    #[tactic(auto, unfolding(crate::specs::Snapshots::result_get))]
    pub fn result(&self, unit: UnitIndex) -> Option<&Shared<UnitResult>>
        ensures { option_copied result ≡ result_get self.now unit }
    {
        self.results.get(unit)
    }

    /// The form at the root of a core tree, if there is such a line; its parts are lines of the same
    /// front.
    #[tactic(auto, unfolding(crate::specs::Snapshots::front_get))]
    pub fn form(&self, tree: TreeRef) -> Option<&Form>
        ensures { option_copied result ≡ slice_get (lines_of self.now tree.front) tree.line }
    {
        match self.fronts.get(u64::from(tree.front)) {
            Some(front) => form_in(front.get(), tree.line),
            None => None,
        }
    }
}

impl Answers {
    ghost use Rattle.std.specs.Prelude.{◌≡◌, ◌==◌, ℕ, Some, OnOk, OnErr, if◌then◌else◌};
    ghost use Rattle.type_form.specs.declared.index.Index.{Index};
    ghost use Rattle.trace_log.specs.declared.question.UnitIndex.{UnitIndex};
    ghost use Rattle.trace_log.specs.Tables.{PutsAt};
    ghost use Rattle.trace_log.specs.TableStates.{PutsUnit};
    ghost use Rattle.trace_log.specs.Snapshots.{front_get, file_get, result_get};

    /// Puts a front at a number. An Err leaves the snapshot as it was.
    #[tactic(auto, unfolding(crate::specs::Snapshots::front_get, crate::specs::Snapshots::file_get, crate::specs::Snapshots::result_get))]
    pub fn put_front(
        &mut self,
        alloc: Global,
        number: u32,
        front: Shared<Front>,
    ) -> Result<(), AllocError>
        ensures fronts { OnOk result (PutsAt (front_get self.old) (front_get self.new) number (Some front)) }
        ensures files { (path : Index) → file_get self.new path ≡ file_get self.old path }
        ensures results { (u : UnitIndex) → result_get self.new u ≡ result_get self.old u }
        ensures err { OnErr result (self.new ≡ self.old) }
    {
        self.fronts.put(alloc, u64::from(number), front)
    }

    /// Says which front a file has. An Err leaves the snapshot as it was.
    #[tactic(auto, unfolding(crate::specs::Snapshots::front_get, crate::specs::Snapshots::file_get, crate::specs::Snapshots::result_get))]
    pub fn put_file(&mut self, alloc: Global, path: Index, number: u32) -> Result<(), AllocError>
        ensures fronts { (n : ℕ) → front_get self.new n ≡ front_get self.old n }
        ensures files { OnOk result ((i : Index) → file_get self.new i ≡ (if i.0 == path.0 then Some number else file_get self.old i)) }
        ensures results { (u : UnitIndex) → result_get self.new u ≡ result_get self.old u }
        ensures err { OnErr result (self.new ≡ self.old) }
    {
        let number = Shared::new(alloc, number)?;
        self.files.put(alloc, path.0, number)
    }

    /// Puts the result of a unit. An Err leaves the snapshot as it was.
    #[tactic(auto, unfolding(crate::specs::Snapshots::front_get, crate::specs::Snapshots::file_get, crate::specs::Snapshots::result_get))]
    pub fn put_result(
        &mut self,
        alloc: Global,
        unit: UnitIndex,
        result_of: Shared<UnitResult>,
    ) -> Result<(), AllocError>
        ensures fronts { (n : ℕ) → front_get self.new n ≡ front_get self.old n }
        ensures files { (path : Index) → file_get self.new path ≡ file_get self.old path }
        ensures results { OnOk result (PutsUnit (result_get self.old) (result_get self.new) unit result_of) }
        ensures err { OnErr result (self.new ≡ self.old) }
    {
        self.results.put(alloc, unit, result_of)
    }
}

/// The form at a line of a front.
fn form_in(front: &Front, line: u32) -> Option<&Form>
    ensures { option_copied result ≡ slice_get (lines_in front.now) line }
{
    match &front.zir {
        Some(zir) => zir.lines().form(line),
        None => None,
    }
}

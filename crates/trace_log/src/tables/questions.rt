// Values by questions.
use crate::question::Question;
use crate::shared::Shared;
use crate::tables::pairs::PairTable;
use crate::tables::parts::PartTable;
use crate::tables::table::Table;
use crate::tables::units::UnitTable;
use std::alloc::{AllocError, Global};

/// Values by questions.
#[derive(Drop)]
pub struct QuestionTable<T> {
    texts: PartTable<T>,
    names: PairTable<T>,
    imports: Table<T>,
    results: UnitTable<T>,
}

impl<T> QuestionTable<T> {
    ghost use Rattle.std.specs.Prelude.{◌≡◌, None, IfOk};
    ghost use Rattle.std.specs.Option.{option_copied};
    ghost use Rattle.trace_log.specs.declared.question.Question.{Question};
    ghost use Rattle.trace_log.specs.TableStates.{question_get};

    /// No values. Takes no memory.
    #[tactic(auto, using(crate::proofs::TableCases::question_cases))]
    pub fn new() -> QuestionTable<T>
        ensures { (q : Question) → question_get result q ≡ None }
    {
        QuestionTable {
            texts: PartTable::new(),
            names: PairTable::new(),
            imports: Table::new(),
            results: UnitTable::new(),
        }
    }

    /// What stands at a question.
    #[tactic(auto, unfolding(crate::specs::TableStates::question_get))]
    pub fn get(&self, question: Question) -> Option<&Shared<T>>
        ensures { option_copied result ≡ question_get self.now question }
    {
        match question {
            Question::Text(part) => self.texts.get(part),
            Question::Name { container, name } => self.names.get(container.0, name.0),
            Question::Import(path) => self.imports.get(path.0),
            Question::Result(unit) => self.results.get(unit),
        }
    }
}

impl<T: Drop> QuestionTable<T> {
    ghost use Rattle.std.specs.Prelude.{◌≡◌, OnOk, OnErr};
    ghost use Rattle.trace_log.specs.TableStates.{question_get, PutsQuestion};

    /// Puts a value at a question. An Err leaves the table as it was.
    #[tactic(auto, using(crate::proofs::TableCases::question_cases))]
    pub fn put(
        &mut self,
        alloc: Global,
        question: Question,
        value: Shared<T>,
    ) -> Result<(), AllocError>
        ensures ok { OnOk result (PutsQuestion (question_get self.old) (question_get self.new) question value) }
        ensures err { OnErr result (self.new ≡ self.old) }
    {
        match question {
            Question::Text(part) => self.texts.put(alloc, part, value),
            Question::Name { container, name } => {
                self.names.put(alloc, container.0, name.0, value)
            }
            Question::Import(path) => self.imports.put(alloc, path.0, value),
            Question::Result(unit) => self.results.put(alloc, unit, value),
        }
    }
}

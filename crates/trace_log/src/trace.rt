// What a unit did: what it asked and was answered, and to which units it referred, in order.
ghost use Rattle.std.specs.Prelude.{◌≡◌, None, [], ◌∷◌, ◌++◌, OnOk, OnErr, slice_get};
ghost use Rattle.std.specs.Option.{option_copied};
ghost use Rattle.trace_log.specs.declared.trace.Move.TheVariants.{Asked, Referred};
ghost use Rattle.trace_log.specs.Traces.{answer_in};

use crate::answer::Answer;
use crate::question::{Question, UnitIndex};
use crate::shared::Shared;
use crate::tables::QuestionTable;
use std::alloc::{AllocError, Global};
use std::marker::Model;

/// One thing that a unit did.
#[derive(Drop)]
pub enum Move {
    /// It was answered a question.
    Asked { question: Question, answer: Answer },
    /// It referred to a unit, without waiting for it.
    Referred(UnitIndex),
}

/// What a unit did, in order; so the number of answers before a unit that was referred to is the
/// number of answers in front of it.
#[derive(Drop)]
pub struct Trace {
    moves: Vec<Move>,
    /// At each question that was asked the number of its move.
    places: QuestionTable<u64>,
}

impl Model for Trace {
    ghost use Rattle.std.specs.Prelude.{List};
    ghost use Rattle.std.specs.Coded.{coded_list};
    ghost use Rattle.trace_log.specs.declared.trace.Move.{Move};
    ghost use Rattle.trace_log.specs.contracts.trace.Move as row;

    ghost Value = { List Move };

    ghost coded = { coded_list row.the_row.coded };

    ghost use Rattle.trace_log.specs.TableStates.{question_get};
    ghost use Rattle.trace_log.specs.Traces.{HasPlaces};

    ghost view = { λ t. t.moves.items };

    ghost invariant = { λ t. HasPlaces t.moves.items (question_get t.places) };
}

impl Trace {
    ghost use Rattle.trace_log.specs.Traces.{recall};

    /// Nothing yet. Takes no memory.
    pub fn new(alloc: Global) -> Trace
        ensures { result ≡ [] }
    {
        Trace {
            moves: Vec::new(alloc),
            places: QuestionTable::new(),
        }
    }

    /// What was done, in order.
    pub fn moves(&self) -> &[Move]
        ensures { result.now ≡ self.now }
    {
        self.moves.as_slice()
    }

    /// The answer that a question was given, if it was asked. It is found in as many steps as there
    /// are bits that tell the indices of questions apart.
    pub fn answer_to(&self, question: Question) -> Option<&Answer>
        ensures { option_copied result ≡ recall self.now question }
    {
        match self.places.get(question) {
            Some(place) => answer_at(self.moves.as_slice(), *place.get()),
            None => None,
        }
    }

    /// Puts a question with its answer behind what was done. A question is asked once. An Err leaves
    /// the trace as it was.
    pub fn push_asked(
        &mut self,
        alloc: Global,
        question: Question,
        answer: Answer,
    ) -> Result<(), AllocError>
        requires { recall self.old question ≡ None }
        ensures ok { OnOk result (self.new ≡ self.old ++ Asked question answer ∷ []) }
        ensures err { OnErr result (self.new ≡ self.old) }
    {
        let number = Shared::new(alloc, self.moves.len() as u64)?;
        self.moves.push(Move::Asked { question, answer })?;
        match self.places.put(alloc, question, number) {
            Ok(()) => Ok(()),
            Err(error) => {
                let _ = self.moves.pop();
                Err(error)
            }
        }
    }

    /// Puts a unit that is referred to behind what was done. An Err leaves the trace as it was.
    pub fn push_referred(&mut self, unit: UnitIndex) -> Result<(), AllocError>
        ensures ok { OnOk result (self.new ≡ self.old ++ Referred unit ∷ []) }
        ensures err { OnErr result (self.new ≡ self.old) }
    {
        self.moves.push(Move::Referred(unit))?;
        Ok(())
    }
}

/// The answer that the move with this number gives.
fn answer_at(moves: &[Move], number: u64) -> Option<&Answer>
    ensures { option_copied result ≡ answer_in (slice_get moves.now number) }
{
    match moves.get(number as usize) {
        Some(Move::Asked { answer, .. }) => Some(answer),
        _ => None,
    }
}

// Laws of the definitions: contracts of functions that do nothing.
ghost use Rattle.std.specs.Prelude.{◌≡◌, List};
ghost use Rattle.std.specs.Option.{option_map};
ghost use Rattle.type_form.specs.Known.{Known, IsInjective};
ghost use Rattle.type_form.specs.Means.{Grows};
ghost use Rattle.question_runs.specs.Runs as runs;
ghost use Rattle.elab_form.specs.Questions as plain;
ghost use Rattle.trace_log.specs.declared.question.Question.{Question};
ghost use Rattle.trace_log.specs.declared.result.UnitResult.{UnitResult};
ghost use Rattle.trace_log.specs.declared.trace.Move.{Move};
ghost use Rattle.trace_log.specs.Readings.{IsQuestion, question_at, IsUnitResult, unit_result_at, LinesOf, answer_at, AreMoves, moves_at};
ghost use Rattle.trace_log.specs.TableStates.{same_question};
ghost use Rattle.trace_log.specs.Traces.{recall};

/// In one interner two questions stand for one exactly where their indices are the same, and a
/// trace recalls what the moves that it stands for recall.
#[tactic(auto, using(crate::proofs::Sameness::traces_recalling))]
pub fn traces_recall_by_indices()
    ensures questions { (k : Known) (p q : Question) → IsInjective k → IsQuestion k p → IsQuestion k q
        → plain.same_question (question_at k p) (question_at k q) ≡ same_question p q }
    ensures recalled { (k : Known) (lines : LinesOf) (moves : List Move) (q : Question) → IsInjective k
        → AreMoves k moves → IsQuestion k q
        → runs.recall plain.same_question (moves_at k lines moves) (question_at k q)
        ≡ option_map (answer_at k lines) (recall moves q) }
{}

/// What questions, results and traces stand for stays as an interner comes to know more.
#[tactic(auto, using(crate::proofs::Growing::questions_growing, crate::proofs::Growing::results_growing, crate::proofs::Growing::traces_growing))]
pub fn growing_keeps_traces()
    ensures asked { (k l : Known) (q : Question) → Grows k l → IsQuestion k q → IsQuestion l q }
    ensures questions { (k l : Known) (q : Question) → Grows k l → IsQuestion k q
        → question_at l q ≡ question_at k q }
    ensures given { (k l : Known) (r : UnitResult) → Grows k l → IsUnitResult k r → IsUnitResult l r }
    ensures results { (k l : Known) (r : UnitResult) → Grows k l → IsUnitResult k r
        → unit_result_at l r ≡ unit_result_at k r }
    ensures moved { (k l : Known) (moves : List Move) → Grows k l → AreMoves k moves → AreMoves l moves }
    ensures moves { (k l : Known) (lines : LinesOf) (moves : List Move) → Grows k l → AreMoves k moves
        → moves_at l lines moves ≡ moves_at k lines moves }
{}

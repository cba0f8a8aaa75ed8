// Questions, and diagnostics of a part.
ghost use Rattle.std.specs.Prelude.{◌≡◌, [], None};
ghost use Rattle.type_form.specs.Known.{IsInjective};
ghost use Rattle.type_form.specs.Pool.{Interns, is_full};
ghost use Rattle.trace_log.specs.Readings.{IsQuestion, question_at};
ghost use Rattle.trace_log.specs.Traces.{recall};
ghost use Rattle.sema_body.specs.Faults.{unless_failure};
ghost use Rattle.sema_body.specs.Meets.{Stands, Hears, halts_full};
ghost use Rattle.sema_body.specs.declared.halt.Halt.TheVariants as halt;
ghost use Rattle.trace_log.specs.declared.result.Spot.TheVariants as spot;

use crate::frame::Frame;
use crate::halt::Halt;
use crate::work::Work;
use std::alloc::Global;
use trace_log::{Answer, Answers, Diagnostic, Question, Spot};
use type_form::Interner;
use zw_base::{Bytes, DiagCode};

/// A diagnostic at a place of the part.
pub(crate) fn wrong(alloc: Global, f: &Frame, place: u32, code: DiagCode) -> Halt
    ensures { result ≡ halt.Wrong (record { spot = spot.Within f.now.part place; code = code; text = [] }) }
{
    Halt::Wrong(Diagnostic {
        spot: Spot::Within {
            part: f.part,
            place,
        },
        code,
        text: Bytes::of(Vec::new(alloc)),
    })
}

/// An answer, unless it says that a unit failed.
fn unless_failure(answer: Answer) -> Result<Answer, Halt>
    ensures { result ≡ unless_failure answer }
{
    match answer {
        Answer::Failure => Err(Halt::Failed),
        other => Ok(other),
    }
}

/// The answer to a question that the unit has not asked before; it is asked once.
#[tactic(auto, using(crate::proofs::AskLemmas::asking_steps))]
fn ask_anew<I: Interner>(
    cx: &Answers,
    question: Question,
    s: &mut Work,
    p: &mut I,
) -> Result<Answer, Halt>
    requires question { IsQuestion (I.known p.old) question }
    requires new { recall s.old.trace question ≡ None }
    requires stands { Stands (I.known p.old) cx.now s.old }
    ensures interns { Interns I.known I.home I.fulls p.old p.new (halts_full result) }
    ensures hears { Hears (I.known p.old) cx.now s.old (question_at (I.known p.old) question) (I.known p.new) s.new result }
{
    match cx.answer(s.alloc, question, p)? {
        Some(answer) => {
            let copy = answer.share()?;
            s.trace.push_asked(s.alloc, question, answer)?;
            unless_failure(copy)
        }
        None => Err(Halt::Needs(question)),
    }
}

/// The answer to a question: one that it had before serves again, else the one at hand does, which
/// the unit's trace notes. It halts where there is none, or where a unit failed.
#[tactic(auto, using(crate::proofs::AskLemmas::asking_steps))]
pub(crate) fn ask<I: Interner>(
    cx: &Answers,
    question: Question,
    s: &mut Work,
    p: &mut I,
) -> Result<Answer, Halt>
    requires question { IsQuestion (I.known p.old) question }
    requires stands { Stands (I.known p.old) cx.now s.old }
    ensures interns { Interns I.known I.home I.fulls p.old p.new (halts_full result) }
    ensures hears { Hears (I.known p.old) cx.now s.old (question_at (I.known p.old) question) (I.known p.new) s.new result }
{
    match s.trace.answer_to(question) {
        Some(answer) => {
            let answer = answer.share()?;
            unless_failure(answer)
        }
        None => ask_anew(cx, question, s, p),
    }
}

//! What units of analysis do, and what is known of it before any form of the language is: programs
//! of questions, their runs, results by rounds, and what an update keeps.
//!
//! The model: a program is a tree with a branch for each answer; its run with given answers is the
//! list of its moves, with an end. Questions, answers, units and results are whatever types the
//! crates above have.
//! Public calls do nothing; their clauses are the laws.
//! The crate stands on nothing.
#![tactic(auto)]

ghost use Rattle.question_runs.specs.RunLaws.{RunsHonestly, RunsByAnswers, MoreAnswers, OtherAnswers, GoesOn, FirstParts, TracesLead, OneTurn, OneThenAnother};
ghost use Rattle.question_runs.specs.RoundLaws.{RoundsGrow, RoundRunsGrow, RoundsTogether};
ghost use Rattle.question_runs.specs.KeptLaws.{CleanServes, SameServes};
ghost use Rattle.question_runs.specs.RestLaws.{BeginsSound, KnowsSoundly, FinishesSoundly, EndedStays, WaitingStays, RestIsWhole};

/// The answers of a run are those at hand, and a run depends on them alone.
pub fn runs_by_answers<Question, Answer, Unit, Outcome>()
    ensures honest { RunsHonestly Question Answer Unit Outcome }
    ensures by_answers { RunsByAnswers Question Answer Unit Outcome }
    ensures more_answers { MoreAnswers Question Answer Unit Outcome }
    ensures other_answers { OtherAnswers Question Answer Unit Outcome }
{}

/// A part of a run from its beginning says what comes next, whatever else has changed.
pub fn runs_by_traces<Question, Answer, Unit, Outcome>()
    ensures goes_on { GoesOn Question Answer Unit Outcome }
    ensures first_parts { FirstParts Question Answer Unit Outcome }
    ensures traces_lead { TracesLead Question Answer Unit Outcome }
{}

/// How the run of a whole follows from runs of its parts.
pub fn runs_by_parts<Question, Answer, Unit, Outcome, Last>()
    ensures one_turn { OneTurn Question Answer Unit Outcome }
    ensures one_then_another { OneThenAnother Question Answer Unit Outcome Last }
{}

/// A result that a round gives stays, and all rounds together are one function of results.
pub fn results_by_rounds<Question, Answer, Unit, Outcome>()
    ensures grow { RoundsGrow Question Answer Unit Outcome }
    ensures runs_grow { RoundRunsGrow Question Answer Unit Outcome }
    ensures together { RoundsTogether Question Answer Unit Outcome }
{}

/// Whoever takes up units one after the other, in whatever order, and comes to rest, has the demanded
/// units with their results, and the stuck ones with what they need.
pub fn results_at_rest<Question, Answer, Unit, Outcome>()
    ensures begins { BeginsSound Question Answer Unit Outcome }
    ensures knows { KnowsSoundly Question Answer Unit Outcome }
    ensures finishes { FinishesSoundly Question Answer Unit Outcome }
    ensures ended { EndedStays Question Answer Unit Outcome }
    ensures waiting { WaitingStays Question Answer Unit Outcome }
    ensures whole { RestIsWhole Question Answer Unit Outcome }
{}

/// A clean unit serves again as it was kept, and so does a kept one whose answers are all the same.
pub fn kept_units_serve<Question, Answer, Unit, Outcome>()
    ensures clean { CleanServes Question Answer Unit Outcome }
    ensures same { SameServes Question Answer Unit Outcome }
{}

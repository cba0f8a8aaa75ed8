//! Results by levels: what comes to be known and done, level by level, as plain functions of the files,
//! and that it settles where the number of units is bounded.
//!
//! The model: a list of known units grows from the roots, one level after the other, by what the runs of
//! known units meet; a level sees the results that the level before gave its known units. The level
//! `2 * most + 1` is the last one that matters where at most `most` units are known at it.
//! Public calls do nothing; their clauses are the laws.
//! The crate stands on `question_runs`.
#![tactic(auto)]

ghost use Rattle.unit_levels.specs.LevelLaws.{SettledStays, LevelsMeet, ManyShow, LevelsAreWhole};

/// After a settled level nothing changes any more, and each settled level with at most so many units is
/// the last one. Where more are known at some level, more are known at the last one; where at most so
/// many are known there, they are the demanded ones, with all their results.
pub fn results_by_levels<Question, Answer, Unit, Outcome>()
    ensures settled { SettledStays Question Answer Unit Outcome }
    ensures meet { LevelsMeet Question Answer Unit Outcome }
    ensures many { ManyShow Question Answer Unit Outcome }
    ensures whole { LevelsAreWhole Question Answer Unit Outcome }
{}

//! The law of schedules: in whatever order units of analysis are claimed, answered and finished,
//! and whatever was kept from before, what is done is what the plain definition gives.
//!
//! The model: a log of the machine's events (`sched_core`) over any units and results, each event
//! with a reason in the runs of units (`question_runs`). The definition of elaboration, what the
//! files answer, the roots and what was kept are arguments.
//! Public calls do nothing; their clauses are the laws.
//! The crate stands on `question_runs` and `sched_core`.
#![tactic(auto)]

ghost use Rattle.sched_laws.specs.Laws.{EveryMoment, LastMoment, KeptAgain, CleanRunsStay, OneMore, RoomLeft};
ghost use Rattle.sched_laws.specs.Claims.{ClaimsFew};
ghost use Rattle.sched_laws.specs.Renaming.{Renaming};
ghost use Rattle.sched_laws.specs.Cycles.{CyclesShowOnce, CyclesAreShown, StuckLeadIntoCycles};
ghost use Rattle.sched_laws.specs.Example.{ExampleHolds};
ghost use Rattle.sched_laws.specs.Groups.{WholeRuns, PartsMeet, PartsNeed, RunsLast};

/// Every schedule ends in the results by rounds, the demanded units and the stuck ones.
pub fn schedules_agree<Question, Answer, Unit, Outcome>()
    ensures every_moment { EveryMoment Question Answer Unit Outcome }
    ensures last_moment { LastMoment Question Answer Unit Outcome }
{}

/// No schedule knows more units than are demanded.
pub fn room_is_left<Question, Answer, Unit, Outcome>()
    ensures one_more { OneMore Question Answer Unit Outcome }
    ensures room_left { RoomLeft Question Answer Unit Outcome }
{}

/// What is done at rest may be kept, and the next update begins with it.
pub fn results_are_kept<Question, Answer, Unit, Outcome>()
    ensures kept_again { KeptAgain Question Answer Unit Outcome }
    ensures clean_runs { CleanRunsStay Question Answer Unit Outcome }
{}

/// A worker's run serves as the reason for a group of events.
pub fn groups_have_reasons<Question, Answer, Unit, Outcome>()
    ensures whole { WholeRuns Question Answer Unit Outcome }
    ensures meets { PartsMeet Question Answer Unit Outcome }
    ensures needs { PartsNeed Question Answer Unit Outcome }
    ensures last { RunsLast Question Answer Unit Outcome }
{}

/// A unit is claimed for work once, and once more for each unit that its run asks for and each time
/// that it is taken back, at most.
pub fn claims_are_few<Question, Answer, Unit, Outcome>()
    ensures { ClaimsFew Question Answer Unit Outcome }
{}

/// A log over numbers is one over what they name, where the names tell the known units apart.
pub fn logs_are_named<Number, Place, Unit, Outcome>()
    ensures { Renaming Number Place Unit Outcome }
{}

/// Each stuck unit leads into a cycle of pointers, which is shown at exactly one unit.
pub fn stuck_units_lead_into_cycles<Question, Answer, Unit, Outcome>()
    ensures once { CyclesShowOnce Question Answer Unit Outcome }
    ensures shown { CyclesAreShown Question Answer Unit Outcome }
    ensures lead { StuckLeadIntoCycles Question Answer Unit Outcome }
{}

/// There are honest logs that come to rest: one of two workers, with results and a cycle.
pub fn an_example_holds()
    ensures { ExampleHolds }
{}

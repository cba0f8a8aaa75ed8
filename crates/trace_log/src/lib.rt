//! What units of analysis ask and are answered, as it is kept and shared.
//!
//! The crate stands on `zw_base`, `zir_form`, `type_form`, `air_form` and `question_runs`.
#![tactic(auto)]

mod answer;
mod answers;
mod attempt;
mod laws;
mod names;
mod places;
mod question;
mod replies;
mod result;
mod shared;
mod stands;
mod tables;
mod trace;

pub use answer::{Answer, TreeRef};
pub use answers::Answers;
pub use attempt::{Attempt, Outcome};
pub use laws::{growing_keeps_traces, traces_recall_by_indices};
pub use question::{Question, TextPart, UnitIndex};
pub use result::{Diagnostic, Spot, UnitResult, UnitValue};
pub use shared::Shared;
pub use tables::{PairTable, PartTable, QuestionTable, Table, UnitTable};
pub use trace::{Move, Trace};

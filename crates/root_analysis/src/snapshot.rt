// The snapshot of a root alone.
ghost use Rattle.std.specs.Prelude.{IfOk};
ghost use Rattle.root_analysis.specs.Snapshots.{IsOfRoot};

use std::alloc::{AllocError, Global};
use trace_log::{Answers, Shared};
use type_form::Index;
use zir_form::Front;

/// A snapshot in which the file whose path is at an index is the only one, without results.
pub(crate) fn snapshot(
    alloc: Global,
    path: Index,
    front: &Shared<Front>,
) -> Result<Answers, AllocError>
    ensures { IfOk result (λ a. IsOfRoot path front.now a) }
{
    let mut answers = Answers::new();
    let front = front.share()?;
    answers.put_front(alloc, 0, front)?;
    answers.put_file(alloc, path, 0)?;
    Ok(answers)
}

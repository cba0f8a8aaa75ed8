// What units of analysis are answered.
ghost use Rattle.std.specs.Prelude.{◌≡◌, IfOk};

use crate::result::UnitValue;
use crate::shared::Shared;
use std::alloc::AllocError;
use zir_form::{FileExports, NameRef};

/// A core tree: the number of the front that has it, and its line there.
#[derive(Clone, Copy, Debug, PartialEq, Eq)]
pub struct TreeRef {
    pub front: u32,
    pub line: u32,
}

/// The answer to a question.
#[derive(Drop)]
pub enum Answer {
    /// To who asks for a text: its core tree, if there is such a part.
    Tree(Option<TreeRef>),
    /// To who asks for a name: whether there is a declaration, and whether other files may use it.
    Declaration(Option<NameRef>),
    /// To who imports a file: what it exports, if there is such a file.
    Exports(Option<Shared<FileExports>>),
    /// To who asks for a result: what the unit gives.
    Given(Shared<UnitValue>),
    /// To who asks for the result of a unit that failed. What it shows is no part of the answer.
    Failure,
}

impl Answer {
    ghost use Rattle.std.specs.Prelude.{◌≡◌, IfOk};

    /// The same answer once more; what is shared has one owner more.
    pub fn share(&self) -> Result<Answer, AllocError>
        ensures { IfOk result (λ a. a ≡ self.now) }
    {
        match self {
            Answer::Tree(tree) => Ok(Answer::Tree(*tree)),
            Answer::Declaration(found) => Ok(Answer::Declaration(*found)),
            Answer::Exports(None) => Ok(Answer::Exports(None)),
            Answer::Exports(Some(exports)) => Ok(Answer::Exports(Some(exports.share()?))),
            Answer::Given(value) => Ok(Answer::Given(value.share()?)),
            Answer::Failure => Ok(Answer::Failure),
        }
    }
}

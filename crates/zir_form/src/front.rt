// What a file is to the layers above.
ghost use Rattle.std.specs.Prelude.{◌≡◌, IfOk};

use crate::exports::{FileExports, exports_of};
use crate::zir::{ContainerRef, NameRef, Part, PartRef, Zir};
use std::alloc::{AllocError, Global};
use zw_base::{Found, Seq};

/// What a file is to the layers above: its diagnostics, and its core tree. Whoever makes one says of which
/// text it is; the layers above know it by `front_in` alone.
#[derive(Debug, Drop)]
pub struct Front {
    /// What is wrong with its text: with its bytes, its tokens, its names or its builtins. A file that has
    /// any is not analysed.
    pub found: Seq<Found>,
    /// The core tree of its text, where that is a sentence of the language.
    pub zir: Option<Zir>,
}

impl Front {
    ghost use Rattle.zir_form.specs.Front.{front_in, import_answer, lines_in, name_answer, text_answer};
    ghost use Rattle.zir_form.specs.Tables.{tree_by};

    /// The text of a part, as its tree, if there is such a part.
    #[tactic(auto, unfolding(crate::specs::Front::front_in))]
    pub fn part(&self, part: &Part) -> Option<PartRef>
        ensures { tree_by (lines_in self.now) result ≡ text_answer (front_in self.now) part.now }
    {
        match &self.zir {
            Some(zir) => zir.part(part),
            None => None,
        }
    }

    /// Whether a container has a declaration of this name, and whether other files may use it.
    #[tactic(auto, unfolding(crate::specs::Front::front_in))]
    pub fn name_in(&self, container: ContainerRef, name: &[u8]) -> Option<NameRef>
        ensures { result ≡ name_answer (front_in self.now) container name.now }
    {
        match &self.zir {
            Some(zir) => zir.name_in(container, name),
            None => None,
        }
    }

    /// What the file exports, and how many blocks it has; nothing of a file without a tree.
    #[tactic(auto, unfolding(crate::specs::Front::front_in))]
    pub fn exports(&self, alloc: Global) -> Result<Option<FileExports>, AllocError>
        ensures { IfOk result (λ e. e ≡ import_answer (front_in self.now)) }
    {
        match &self.zir {
            Some(zir) => Ok(Some(exports_of(alloc, zir)?)),
            None => Ok(None),
        }
    }
}

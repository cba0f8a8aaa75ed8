// A line is put behind those so far.
ghost use Rattle.std.specs.Prelude.{◌≡◌, IfOk};
ghost use Rattle.zir_form.specs.Lines.{over_cores, tree_at};
ghost use Rattle.zir_astgen.specs.Firsts.{Adds};
ghost use Rattle.zir_astgen.specs.Writing.{trees};

use crate::writer::Writer;
use std::alloc::AllocError;
use zir_form::Form;

impl Writer<'_> {
    /// Writes a line.
    #[tactic(auto, using(crate::proofs::AddLemmas::put_adds, crate::proofs::AddLemmas::firsts_stay))]
    pub fn put(&mut self, form: Form) -> Result<u32, AllocError>
        ensures tree { IfOk result (Adds (trees self.old) (trees self.new) (over_cores (tree_at (trees self.old)) form)) }
        ensures source { self.new.source ≡ self.old.source }
    {
        self.lines.put(form)
    }
}

// The `@import`s of a file.
ghost use Rattle.std.specs.Prelude.{◌≡◌, IfOk, Some, None};
ghost use Rattle.std.specs.List.{filter_map};
ghost use Rattle.std.specs.Option.{option_map};
ghost use Rattle.zir_astgen.specs.Files as spec;
ghost use Rattle.zir_astgen.specs.Filing.{file_known, imported};
ghost use Rattle.zir_form.specs.Tables.{import_of};

use crate::calls::{BuiltinCall, Called};
use crate::file::FileSource;
use crate::values::string_value;
use std::alloc::AllocError;
use zir_form::ImportRow;

impl FileSource<'_> {
    /// The `@import` that a call is, if it is one.
    #[tactic(auto, unfolding(crate::specs::Files::import_at))]
    fn import_at(&self, called: Called) -> Result<Option<ImportRow>, AllocError>
        ensures { IfOk result (λ row. option_map import_of row ≡ spec.import_at (file_known self.now) called) }
    {
        match called.call {
            BuiltinCall::Import(string) => Ok(Some(ImportRow {
                start: self.start_of(called.token),
                path: string_value(self.alloc, self.written_at(string))?,
            })),
            BuiltinCall::Wrong(_) => Ok(None),
            BuiltinCall::Other => Ok(None),
        }
    }

    /// The `@import`s among calls, in their order.
    pub fn imports(&self, calls: &[Called]) -> Result<Vec<ImportRow>, AllocError>
        ensures { IfOk result (λ rows. imported rows.items ≡ filter_map (spec.import_at (file_known self.now)) calls.now) }
    {
        let mut imports = Vec::new(self.alloc);
        let mut rest = calls;
        while let [called, more @ ..] = rest {
            if let Some(import) = self.import_at(*called)? {
                imports.push(import)?;
            }
            rest = more;
        }
        Ok(imports)
    }
}

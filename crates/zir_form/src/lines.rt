// Lines of instructions, and the trees that they stand for.
ghost use Rattle.std.specs.Prelude.{◌≡◌, ◌++◌, ◌∷◌, [], length, IfOk, OnErr, OnOk, slice_get};
ghost use Rattle.std.specs.Option.{option_copied};

use crate::form::Form;
use std::alloc::{AllocError, Global};
use std::marker::Model;

/// Forms in the order in which they were put, each over earlier ones. `core_at` of the list says which
/// tree a line stands for.
#[derive(Debug, Drop)]
pub struct Lines {
    forms: Vec<Form>,
}

impl Model for Lines {
    ghost use Rattle.std.specs.Prelude.{List};
    ghost use Rattle.zir_form.specs.declared.form.Form.{Form};

    ghost Value = { List Form };

    ghost view = { λ l. l.forms.items };
}

impl Lines {
    /// No lines yet.
    pub fn new(alloc: Global) -> Lines
        ensures { result ≡ [] }
    {
        Lines {
            forms: Vec::new(alloc),
        }
    }

    /// How many lines there are.
    pub fn len(&self) -> usize
        ensures { result ≡ length self.now }
    {
        self.forms.len()
    }

    /// Puts a form behind the others, and answers its line. A child that is no earlier line is missing.
    pub fn put(&mut self, form: Form) -> Result<u32, AllocError>
        ensures line { IfOk result (λ n. n ≡ length self.old) }
        ensures lines { OnOk result (self.new ≡ self.old ++ form ∷ []) }
        ensures unchanged { OnErr result (self.new ≡ self.old) }
    {
        let line = self.forms.len();
        if line >= u32::MAX as usize {
            return Err(AllocError);
        }
        self.forms.push(form)?;
        Ok(line as u32)
    }

    /// The form of a line, if there is such a line.
    pub fn form(&self, line: u32) -> Option<&Form>
        ensures { option_copied result ≡ slice_get self.now line }
    {
        self.forms.get(line as usize)
    }
}

// The names in scope, with what each stands for.
ghost use Rattle.std.specs.Prelude.{◌≡◌, ◌<◌, ◌+◌, ◌-◌, [], ◌∷◌, ◌++◌, length, take, IfOk, OnOk, OnErr};
ghost use Rattle.zir_scope.specs.Bindings.{latest};

use std::alloc::{AllocError, Global};
use std::marker::Model;

/// A name, by its number, and what it is bound to.
#[derive(Clone, Copy, Debug, PartialEq, Eq)]
pub struct Binding {
    pub name: u32,
    pub value: u32,
}

/// A binding, and what its name was bound to before.
#[derive(Clone, Copy, Debug)]
struct Row {
    binding: Binding,
    hidden: Option<u32>,
}

/// The bindings in scope, earliest first. A name may be bound more than once.
#[derive(Debug, Drop)]
pub struct Bindings {
    /// At each name what it is bound to now.
    newest: Vec<Option<u32>>,
    rows: Vec<Row>,
}

impl Model for Bindings {
    ghost use Rattle.std.specs.Vec.{vec_len};
    ghost use Rattle.zir_scope.specs.Bindings.{BindingsState};

    ghost Value = { BindingsState };

    ghost use Rattle.zir_scope.specs.Rows.{bindings_of, Agrees};

    ghost view = { λ b. record { names = vec_len b.newest; entries = bindings_of b.rows.items } };

    ghost invariant = { λ b. Agrees b.newest.items b.rows.items };
}

impl Bindings {
    /// No bindings yet, with room for names below `names`; it grows where a greater one is bound.
    pub fn new(alloc: Global, names: usize) -> Result<Bindings, AllocError>
        ensures { IfOk result (λ b. b ≡ record { names = names; entries = [] }) }
    {
        let newest = vec![in alloc; None; names]?;
        Ok(Bindings {
            newest,
            rows: Vec::new(alloc),
        })
    }

    /// How many bindings there are.
    pub fn len(&self) -> usize
        ensures { result ≡ length self.now.entries }
    {
        self.rows.len()
    }

    /// What a name is bound to last.
    pub fn find(&self, name: u32) -> Option<u32>
        ensures { result ≡ latest self.now.entries name }
    {
        let at = name as usize;
        if at < self.newest.len() {
            self.newest[at]
        } else {
            None
        }
    }

    /// Room for one more name.
    fn widen(&mut self) -> Result<(), AllocError>
        ensures { OnOk result (self.new ≡ record self.old { names = self.old.names + 1 }) }
    {
        self.newest.push(None)?;
        Ok(())
    }

    /// Room for this name.
    fn reach(&mut self, name: u32) -> Result<(), AllocError>
        ensures reached { OnOk result (name < self.new.names) }
        ensures same { OnOk result (self.new.entries ≡ self.old.entries) }
    {
        while self.newest.len() <= name as usize {
            self.widen()?;
        }
        Ok(())
    }

    /// Binds a name, whatever it is bound to before.
    pub fn push(&mut self, name: u32, value: u32) -> Result<(), AllocError>
        ensures { OnOk result (self.new.entries ≡ self.old.entries ++ record { name = name; value = value } ∷ []) }
    {
        self.reach(name)?;
        self.put(name, value)
    }

    /// Binds a name for which there is room. An `Err` changes nothing.
    fn put(&mut self, name: u32, value: u32) -> Result<(), AllocError>
        requires { name < self.old.names }
        ensures ok { OnOk result (self.new ≡ record self.old { entries = self.old.entries ++ record { name = name; value = value } ∷ [] }) }
        ensures err { OnErr result (self.new ≡ self.old) }
    {
        let at = name as usize;
        let hidden = self.newest[at];
        self.rows.push(Row {
            binding: Binding { name, value },
            hidden,
        })?;
        self.newest[at] = Some(value);
        Ok(())
    }

    /// Takes the last binding away, if there is one.
    fn pop(&mut self)
        ensures { self.new ≡ record self.old { entries = take (length self.old.entries - 1) self.old.entries } }
    {
        if let Some(row) = self.rows.pop() {
            self.newest[row.binding.name as usize] = row.hidden;
        }
    }

    /// Keeps the first `len` bindings, and takes those behind them away.
    pub fn truncate(&mut self, len: usize)
        ensures { self.new ≡ record self.old { entries = take len self.old.entries } }
    {
        while self.len() > len {
            self.pop();
        }
    }
}

// Values under names, one of each name.
ghost use Rattle.std.specs.Prelude.{◌≡◌, IfOk, List, ℕ, ◌++◌, ◌∷◌, []};
ghost use Rattle.std.specs.List.{fold, IsDistinct};
ghost use Rattle.std.specs.Str.{bytes_eq};
ghost use Rattle.std.specs.Prelude.{map};
ghost use Rattle.wasm_link.specs.Names.{number_of, with_new};

use crate::names::Names;
use std::alloc::{AllocError, Global};
use std::marker::Model;
use zw_base::Bytes;

/// A value that is known by a name.
pub trait Keyed {
    /// The name.
    ghost key: { Self → List ℕ };

    fn key_bytes(&self, alloc: Global) -> Result<Bytes, AllocError>
        ensures { IfOk result (λ k. k ≡ key self.now) };

    fn copied(&self, alloc: Global) -> Result<Self, AllocError>
        ensures { IfOk result (λ x. x ≡ self.now) };
}

/// Values in a row, one of each name.
#[derive(Drop)]
pub struct Distinct<T: Keyed> {
    names: Names,
    values: Vec<T>,
}

impl<T: Keyed> Model for Distinct<T> {
    ghost use Rattle.std.specs.Prelude.{◌≡◌, List, map};
    ghost use Rattle.std.specs.Coded.{coded_list};

    ghost Value = { List T };

    ghost coded = { coded_list T.code };

    ghost view = { λ d. d.values.items };

    ghost invariant = { λ d. d.names ≡ map T.key d.values.items };
}

impl<T: Keyed + Drop> Distinct<T> {
    /// No values. Takes no memory.
    pub fn new(alloc: Global) -> Distinct<T>
        ensures { result ≡ [] }
    {
        Distinct {
            names: Names::new(alloc),
            values: Vec::new(alloc),
        }
    }

    /// The values with a copy of one more behind them, unless its name is there.
    pub fn with(self, alloc: Global, value: &T) -> Result<Distinct<T>, AllocError>
        ensures { IfOk result (λ d. d ≡ with_new T.key self value.now) }
    {
        let Distinct { names, mut values } = self;
        let key = value.key_bytes(alloc)?;
        if names.find(key.as_slice()) < names.len() {
            return Ok(Distinct { names, values });
        }
        let names = names.with(alloc, key.as_slice())?;
        values.push(value.copied(alloc)?)?;
        Ok(Distinct { names, values })
    }

    /// The values, and their names in the same order.
    pub fn into_parts(self) -> (Names, Vec<T>)
        ensures values { result.1.items ≡ self }
        ensures names { result.0 ≡ map T.key self }
    {
        let Distinct { names, values } = self;
        (names, values)
    }
}

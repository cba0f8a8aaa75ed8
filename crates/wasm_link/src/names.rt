// Names, each found by its number.
ghost use Rattle.std.specs.Prelude.{◌≡◌, ◌++◌, ◌∷◌, [], IfOk, OnOk, length};
ghost use Rattle.wasm_link.specs.Names.{number_of};
ghost use Rattle.wasm_link.specs.NameTable.{Enters, place_in};

use std::alloc::{AllocError, Global};
use std::collections::BTreeMap;
use std::marker::Model;
use zw_base::Bytes;

/// Names in a row, numbered from 0. One that stands there twice is found at its first place.
#[derive(Drop)]
pub struct Names {
    names: Vec<Bytes>,
    /// At each name its number.
    places: BTreeMap<Vec<u8>, usize>,
}

impl Model for Names {
    ghost use Rattle.std.specs.Prelude.{List, ℕ};
    ghost use Rattle.wasm_link.specs.NameTable.{AreNumbered};

    ghost Value = { List (List ℕ) };

    ghost view = { λ n. n.names.items };

    ghost invariant = { λ n. AreNumbered n.places n.names.items };
}

impl Names {
    /// No names. Takes no memory.
    pub fn new(alloc: Global) -> Names
        ensures { result ≡ [] }
    {
        Names {
            names: Vec::new(alloc),
            places: BTreeMap::new(alloc),
        }
    }

    pub fn len(&self) -> usize
        ensures { result ≡ length self.now }
    {
        self.names.len()
    }

    /// The number of a name, and the length where it isn't there.
    pub fn find(&self, name: &[u8]) -> usize
        ensures { result ≡ number_of self.now name.now }
    {
        match place_of(&self.places, name) {
            Some(number) => number,
            None => self.names.len(),
        }
    }

    /// The names with one more behind them.
    pub fn with(self, alloc: Global, name: &[u8]) -> Result<Names, AllocError>
        ensures { IfOk result (λ n. n ≡ self ++ name.now ∷ []) }
    {
        let number = self.find(name);
        let Names {
            mut names,
            mut places,
        } = self;
        if number == names.len() {
            enter(alloc, &mut places, name, number)?;
        }
        names.push(Bytes::of(Vec::from_slice(alloc, name)?))?;
        Ok(Names { names, places })
    }
}

/// The number of a name.
#[tactic(auto, unfolding(crate::specs::NameTable::place_in))]
fn place_of(places: &BTreeMap<Vec<u8>, usize>, name: &[u8]) -> Option<usize>
    ensures { result ≡ place_in places.now name.now }
{
    places.get(name).copied()
}

/// Gives a name this number.
fn enter(
    alloc: Global,
    places: &mut BTreeMap<Vec<u8>, usize>,
    name: &[u8],
    number: usize,
) -> Result<(), AllocError>
    ensures { OnOk result (Enters name.now number places.old places.new) }
{
    let key = Vec::from_slice(alloc, name)?;
    let _ = places.insert(key, number)?;
    Ok(())
}

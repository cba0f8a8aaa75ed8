// The pool: keys at their places, and a map from keys to places.
ghost use Rattle.std.specs.Prelude.{◌≡◌, ℕ, List, [], ◌∷◌, ◌++◌, length, IfOk, OnErr, Some, if◌then◌else◌};
ghost use Rattle.std.specs.BTreeMap.{IsUnchanged};
ghost use Rattle.std.specs.Option.{option_copied};
ghost use Rattle.std.specs.Str.{bytes_eq};
ghost use Rattle.pool_plain.specs.Rows.{numbered, place_in};

use sqlite_items::Items;
use std::alloc::{AllocError, Global};
use std::collections::BTreeMap;
use std::marker::Model;
use type_form::{Index, InternFault, Interner, KeyBuf, Keys};

/// An interner for one thread, over an ordered map.
#[derive(Drop)]
pub struct PlainPool {
    alloc: Global,
    places: BTreeMap<Vec<u64>, u64>,
    rows: Vec<Items<u64>>,
}

impl Model for PlainPool {
    ghost use Rattle.std.specs.Prelude.{List, ℕ};
    ghost use Rattle.pool_plain.specs.Rows.{Matches};

    ghost Value = { List (List ℕ) };

    ghost view = { λ p. p.rows.items };

    ghost invariant = { λ p. Matches p.places p.rows.items };
}

impl PlainPool {
    /// A pool without keys. Takes no memory.
    pub fn new(alloc: Global) -> PlainPool
        ensures { result ≡ [] }
    {
        PlainPool {
            alloc,
            places: BTreeMap::new(alloc),
            rows: Vec::new(alloc),
        }
    }
}

/// The place of a key.
#[tactic(auto, unfolding(crate::specs::Rows::place_in))]
fn place_of(places: &BTreeMap<Vec<u64>, u64>, key: &[u64]) -> Option<u64>
    ensures { result ≡ place_in places.now key.now }
{
    places.get(key).copied()
}

/// Adds a key that is absent, at the end.
fn add(
    alloc: Global,
    places: &mut BTreeMap<Vec<u64>, u64>,
    rows: &mut Vec<Items<u64>>,
    key: &[u64],
) -> Result<u64, AllocError>
    ensures place { IfOk result (λ n. n ≡ length rows.old.items) }
    ensures rows { IfOk result (λ n. rows.new.items ≡ rows.old.items ++ key.now ∷ []) }
    ensures places { IfOk result (λ n. (cs : List ℕ) → place_in places.new cs ≡ (if bytes_eq key.now cs then Some n else place_in places.old cs)) }
    ensures rows_stay { OnErr result (rows.new.items ≡ rows.old.items) }
    ensures places_stay { OnErr result (IsUnchanged places.old places.new) }
{
    let row = Items::from_slice(alloc, key)?;
    let copy = Vec::from_slice(alloc, key)?;
    let place = rows.len() as u64;
    rows.push(row)?;
    match places.insert(copy, place) {
        Ok(_) => Ok(place),
        Err(_) => {
            let _ = rows.pop();
            Err(AllocError)
        }
    }
}

impl Keys for PlainPool {
    ghost known = { λ p. numbered 0 p };

    ghost Home = { Unit {0} };

    ghost home = { λ _. tt };

    fn find(&mut self, key: &[u64]) -> Option<Index> {
        match place_of(&self.places, key) {
            Some(place) => Some(Index(place)),
            None => None,
        }
    }

    fn key_into(&mut self, i: Index, into: &mut KeyBuf) {
        into.set(self.rows[i.0 as usize].as_slice());
    }
}

impl Interner for PlainPool {
    fn intern(&mut self, key: &[u64]) -> Result<Index, InternFault> {
        match place_of(&self.places, key) {
            Some(place) => Ok(Index(place)),
            None => {
                let place = add(self.alloc, &mut self.places, &mut self.rows, key)?;
                Ok(Index(place))
            }
        }
    }
}

// Numbers in a row, each found by its place.
ghost use Rattle.std.specs.Prelude.{◌≡◌, ℕ, ◌+◌, nat_eq, if◌then◌else◌, IfOk, OnOk, Some, None};
ghost use Rattle.std.specs.BTreeMap.{get};
ghost use Rattle.std.specs.Option.{option_or};
ghost use Rattle.std.specs.Ordering.{nat_cmp};
ghost use Rattle.zir_astgen.specs.Site.{place_in};

use std::alloc::{AllocError, Global};
use std::collections::BTreeMap;
use std::marker::Model;

/// Numbers in a row. One that stands there twice is found at its first place.
#[derive(Debug, Drop)]
pub struct Places {
    numbers: Vec<u32>,
    /// At each number its place.
    places: BTreeMap<u32, u32>,
}

impl Model for Places {
    ghost use Rattle.std.specs.Prelude.{List, ℕ};
    ghost use Rattle.zir_astgen.specs.Indexed.{AgreePlaces};

    ghost Value = { List ℕ };

    ghost view = { λ p. p.numbers.items };

    ghost invariant = { λ p. AgreePlaces p.numbers.items p.places };
}

/// Gives a number this place where it has none yet.
fn enter(places: &mut BTreeMap<u32, u32>, number: u32, at: u32) -> Result<(), AllocError>
    ensures { OnOk result ((q : ℕ) → get nat_cmp places.new q ≡ option_or (get nat_cmp places.old q) (if nat_eq q number then Some at else None)) }
{
    match places.get(&number) {
        Some(_) => Ok(()),
        None => {
            let _ = places.insert(number, at)?;
            Ok(())
        }
    }
}

/// The number behind one.
fn next(at: u32) -> Result<u32, AllocError>
    ensures { IfOk result (λ n. n ≡ at + 1) }
{
    if at < u32::MAX {
        Ok(at + 1)
    } else {
        Err(AllocError)
    }
}

/// At each number its first place.
fn places_of(alloc: Global, numbers: &[u32]) -> Result<BTreeMap<u32, u32>, AllocError>
    ensures { IfOk result (λ m. (q : ℕ) → get nat_cmp m q ≡ place_in numbers.now q) }
{
    let mut places = BTreeMap::new(alloc);
    let mut at: u32 = 0;
    let mut rest = numbers;
    while let [number, more @ ..] = rest {
        enter(&mut places, *number, at)?;
        at = next(at)?;
        rest = more;
    }
    Ok(places)
}

impl Places {
    /// These numbers, in near-linear time.
    pub fn of(alloc: Global, numbers: Vec<u32>) -> Result<Places, AllocError>
        ensures { IfOk result (λ p. p ≡ numbers.items) }
    {
        let places = places_of(alloc, numbers.as_slice())?;
        Ok(Places { numbers, places })
    }

    /// The first place of a number, in logarithmic time.
    pub fn find(&self, number: u32) -> Option<u32>
        ensures { result ≡ place_in self.now number }
    {
        self.places.get(&number).copied()
    }

    /// The numbers.
    pub fn as_slice(&self) -> &[u32]
        ensures { result.now ≡ self.now }
    {
        self.numbers.as_slice()
    }
}

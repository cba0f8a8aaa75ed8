// The maps beside the tables of a file.
ghost use Rattle.std.specs.Prelude.{◌≡◌, List, ℕ, ◌+◌, false, nat_eq, if◌then◌else◌, IfOk, OnOk, Some, None};
ghost use Rattle.std.specs.Option.{option_or};
ghost use Rattle.std.specs.Ordering.{nat_cmp};
ghost use Rattle.std.specs.BTreeMap.{get};
ghost use Rattle.std.specs.Str.{bytes_eq};
ghost use Rattle.zir_form.specs.Places.{place_in};
ghost use Rattle.zir_form.specs.Tables.{in_members, is_container_row, is_row, last_from, member_in, number_in};

use crate::table::{ContainerRow, DeclarationRow};
use std::alloc::{AllocError, Global};
use std::collections::BTreeMap;

/// The names of a container, each with a number.
type Names = BTreeMap<Vec<u8>, u32>;

/// Takes the names of a container out, none where it has none yet.
fn take_names(alloc: Global, members: &mut BTreeMap<u32, Names>, container: u32) -> Names
    ensures names { (name : List ℕ) → place_in result name ≡ in_members (get nat_cmp members.old container) name }
    ensures others { (q : ℕ) → nat_eq container q ≡ false → get nat_cmp members.new q ≡ get nat_cmp members.old q }
{
    match members.remove(&container) {
        Some(names) => names,
        None => BTreeMap::new(alloc),
    }
}

/// Gives a name this number, whatever it had.
fn put_name(alloc: Global, names: &mut Names, name: &[u8], at: u32) -> Result<(), AllocError>
    ensures { OnOk result ((cs : List ℕ) → place_in names.new cs ≡ (if bytes_eq name.now cs then Some at else place_in names.old cs)) }
{
    let key = Vec::from_slice(alloc, name)?;
    let _ = names.insert(key, at)?;
    Ok(())
}

/// Gives a declaration's name in its container this number, whatever it had.
fn enter(
    alloc: Global,
    members: &mut BTreeMap<u32, Names>,
    row: &DeclarationRow,
    at: u32,
) -> Result<(), AllocError>
    ensures { OnOk result ((c : ℕ) (cs : List ℕ) → member_in members.new c cs ≡ option_or (if is_row c cs row.now then Some at else None) (member_in members.old c cs)) }
{
    let name = row.name.as_slice();
    let mut names = take_names(alloc, members, row.container);
    put_name(alloc, &mut names, name, at)?;
    let _ = members.insert(row.container, names)?;
    Ok(())
}

/// At each container and name the number of the last declaration that has them.
pub fn members_of(
    alloc: Global,
    rows: &[DeclarationRow],
) -> Result<BTreeMap<u32, Names>, AllocError>
    ensures { IfOk result (λ m. (c : ℕ) (cs : List ℕ) → member_in m c cs ≡ last_from 0 (is_row c cs) rows.now) }
{
    let mut members = BTreeMap::new(alloc);
    let mut at: u32 = 0;
    let mut rest = rows;
    while let [row, more @ ..] = rest {
        enter(alloc, &mut members, row, at)?;
        at = next(at)?;
        rest = more;
    }
    Ok(members)
}

/// The number behind one.
fn next(at: u32) -> Result<u32, AllocError>
    ensures { IfOk result (λ n. n ≡ at + 1) }
{
    if at < u32::MAX {
        Ok(at + 1)
    } else {
        Err(AllocError)
    }
}

/// Gives a container's keyword this number, whatever it had.
fn place(places: &mut BTreeMap<u32, u32>, row: &ContainerRow, at: u32) -> Result<(), AllocError>
    ensures { OnOk result ((q : ℕ) → number_in places.new q ≡ option_or (if is_container_row q row.now then Some at else None) (number_in places.old q)) }
{
    let _ = places.insert(row.token, at)?;
    Ok(())
}

/// At each container's keyword the number of the last container that has it.
pub fn places_of(alloc: Global, rows: &[ContainerRow]) -> Result<BTreeMap<u32, u32>, AllocError>
    ensures { IfOk result (λ m. (q : ℕ) → number_in m q ≡ last_from 0 (is_container_row q) rows.now) }
{
    let mut places = BTreeMap::new(alloc);
    let mut at: u32 = 0;
    let mut rest = rows;
    while let [row, more @ ..] = rest {
        place(&mut places, row, at)?;
        at = next(at)?;
        rest = more;
    }
    Ok(places)
}

// Numbers, bytes and names of the lists at indices.
ghost use Rattle.std.specs.Prelude.{◌≡◌, IfOk};
ghost use Rattle.type_form.specs.Known.{IsInjective};
ghost use Rattle.type_form.specs.Means.{AreBytes, AreNames, IsBytes, IsList, bytes_at, list_at, names_at};
ghost use Rattle.type_form.specs.Pool.{Reads};

use std::alloc::{AllocError, Global};
use type_form::{Index, Keys};
use type_keys::read_list;
use zw_base::{Bytes, Seq};

/// The numbers of the list at an index.
pub(crate) fn read_numbers<P: Keys>(
    alloc: Global,
    list: Index,
    p: &mut P,
) -> Result<Vec<u64>, AllocError>
    requires { IsList (P.known p.old) list }
    ensures reads { Reads P.known P.home P.fulls p.old p.new }
    ensures agrees { IsInjective (P.known p.new) }
    ensures numbers { IfOk result (λ ns. ns.items ≡ list_at (P.known p.old) list) }
{
    let mut numbers = Vec::new(alloc);
    read_list(list, p, &mut numbers)?;
    Ok(numbers)
}

/// Numbers that are bytes, as bytes.
fn bytes_of(alloc: Global, numbers: &[u64]) -> Result<Bytes, AllocError>
    requires { AreBytes numbers.now }
    ensures { IfOk result (λ b. b ≡ numbers.now) }
{
    let mut bytes = Vec::new(alloc);
    for number in numbers {
        bytes.push(*number as u8)?;
    }
    Ok(Bytes::of(bytes))
}

/// The bytes that an index denotes: a name, a path or a text.
#[tactic(auto, using(crate::proofs::ReadLemmas::byte_lists))]
pub fn read_bytes<P: Keys>(alloc: Global, list: Index, p: &mut P) -> Result<Bytes, AllocError>
    requires { IsBytes (P.known p.old) list }
    ensures reads { Reads P.known P.home P.fulls p.old p.new }
    ensures agrees { IsInjective (P.known p.new) }
    ensures bytes { IfOk result (λ b. b ≡ bytes_at (P.known p.old) list) }
{
    let numbers = read_numbers(alloc, list, p)?;
    bytes_of(alloc, numbers.as_slice())
}

/// The names that an index denotes.
pub(crate) fn read_names<P: Keys>(
    alloc: Global,
    list: Index,
    p: &mut P,
) -> Result<Seq<Bytes>, AllocError>
    requires { AreNames (P.known p.old) list }
    ensures reads { Reads P.known P.home P.fulls p.old p.new }
    ensures agrees { IsInjective (P.known p.new) }
    ensures names { IfOk result (λ n. n ≡ names_at (P.known p.old) list) }
{
    let numbers = read_numbers(alloc, list, p)?;
    let mut names = Vec::new(alloc);
    for number in &numbers {
        let name = read_bytes(alloc, Index(*number), p)?;
        names.push(name)?;
    }
    Ok(Seq::of(names))
}

// Names and paths, read back as bytes.
ghost use Rattle.std.specs.Prelude.{◌≡◌, IfOk};
ghost use Rattle.type_form.specs.Known.{IsInjective};
ghost use Rattle.type_form.specs.Means.{AreBytes, IsBytes, bytes_at};
ghost use Rattle.type_form.specs.Pool.{Reads};

use std::alloc::{AllocError, Global};
use type_form::{Index, Keys};
use type_keys::read_list;

/// Numbers that are bytes, as bytes.
fn bytes_of(alloc: Global, numbers: &[u64]) -> Result<Vec<u8>, AllocError>
    requires { AreBytes numbers.now }
    ensures { IfOk result (λ bytes. bytes.items ≡ numbers.now) }
{
    let mut bytes = Vec::new(alloc);
    for number in numbers {
        bytes.push(*number as u8)?;
    }
    Ok(bytes)
}

/// The bytes of the list at an index.
#[tactic(auto, using(crate::proofs::NameLemmas::byte_lists))]
pub(crate) fn read_bytes<P: Keys>(
    alloc: Global,
    list: Index,
    p: &mut P,
) -> Result<Vec<u8>, AllocError>
    requires { IsBytes (P.known p.old) list }
    ensures reads { Reads P.known P.home P.fulls p.old p.new }
    ensures agrees { IsInjective (P.known p.new) }
    ensures bytes { IfOk result (λ bytes. bytes.items ≡ bytes_at (P.known p.old) list) }
{
    let mut numbers = Vec::new(alloc);
    read_list(list, p, &mut numbers)?;
    bytes_of(alloc, numbers.as_slice())
}

// Names of declarations, read back as bytes.
ghost use Rattle.std.specs.Prelude.{◌≡◌, IfOk};
ghost use Rattle.type_form.specs.Known.{IsInjective};
ghost use Rattle.type_form.specs.Means.{AreBytes, IsBytes, bytes_at, IsDecl, decl_at};
ghost use Rattle.type_form.specs.Pool.{Reads};
ghost use Rattle.elab_form.specs.Units as plain;

use std::alloc::{AllocError, Global};
use type_form::{Index, Key, Keys};
use type_keys::{decl_key, read_list};

/// Numbers that are bytes, as bytes.
fn bytes_of(alloc: Global, numbers: &[u64]) -> Result<Vec<u8>, AllocError>
    requires { AreBytes numbers.now }
    ensures { IfOk result (λ bytes. bytes.items ≡ numbers.now) }
{
    let mut bytes = Vec::new(alloc);
    for number in numbers {
        bytes.push(*number as u8)?;
    }
    Ok(bytes)
}

/// The bytes of the list at an index.
#[tactic(auto, using(trace_log::proofs::NameLemmas::byte_lists))]
fn read_bytes<P: Keys>(alloc: Global, list: Index, p: &mut P) -> Result<Vec<u8>, AllocError>
    requires { IsBytes (P.known p.old) list }
    ensures reads { Reads P.known P.home P.fulls p.old p.new }
    ensures agrees { IsInjective (P.known p.new) }
    ensures bytes { IfOk result (λ bytes. bytes.items ≡ bytes_at (P.known p.old) list) }
{
    let mut numbers = Vec::new(alloc);
    read_list(list, p, &mut numbers)?;
    bytes_of(alloc, numbers.as_slice())
}

/// The name of a declaration; a block has none.
#[tactic(auto, unfolding(elab_form::specs::Units::name_of))]
fn name_of<P: Keys>(alloc: Global, decl: Index, p: &mut P) -> Result<Vec<u8>, AllocError>
    requires { IsDecl (P.known p.old) decl }
    ensures reads { Reads P.known P.home P.fulls p.old p.new }
    ensures agrees { IsInjective (P.known p.new) }
    ensures name { IfOk result (λ bytes. bytes.items ≡ plain.name_of (decl_at (P.known p.old) decl)) }
{
    match decl_key(decl, p) {
        Key::NamedDecl { name, .. } => {
            let bytes = read_bytes(alloc, name, p)?;
            Ok(bytes)
        }
        Key::ComptimeDecl { .. } => Ok(Vec::new(alloc)),
        _ => unreachable!(),
    }
}

/// Whether a name may be that of an export: it is well-formed UTF-8.
#[tactic(auto, using(crate::proofs::SpelledLemmas::names))]
fn is_export_name(name: &[u8]) -> bool
    ensures { result ≡ plain.is_export_name name.now }
{
    match std::str::from_utf8(name) {
        Ok(_) => true,
        Err(_) => false,
    }
}

/// Whether the name of a declaration may be that of an export.
pub(crate) fn has_export_name<P: Keys>(
    alloc: Global,
    decl: Index,
    p: &mut P,
) -> Result<bool, AllocError>
    requires { IsDecl (P.known p.old) decl }
    ensures reads { Reads P.known P.home P.fulls p.old p.new }
    ensures agrees { IsInjective (P.known p.new) }
    ensures name { IfOk result (λ is. is ≡ plain.is_export_name (plain.name_of (decl_at (P.known p.old) decl))) }
{
    let name = name_of(alloc, decl, p)?;
    Ok(is_export_name(name.as_slice()))
}

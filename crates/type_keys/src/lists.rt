// Lists of numbers, as chains of chunk keys.
ghost use Rattle.std.specs.Prelude.{◌≡◌, ◌≤◌, ◌<◌, ◌++◌, length, IfOk, OnOk};
ghost use Rattle.type_form.specs.Known.{Known, IsInjective};
ghost use Rattle.type_form.specs.Means.{IsList, list_at, DenotesList, IsBytes, bytes_at, DenotesBytes};
ghost use Rattle.type_form.specs.Pool.{Reads, Interns, is_full};

use crate::intern::intern_key;
use crate::reads::list_key;
use std::alloc::AllocError;
use type_form::{Few, Index, InternFault, Interner, Key, Keys};

/// The most numbers in one key.
const CHUNK: usize = 60;

/// A list of at most 60 numbers.
pub fn short_list<I: Interner>(items: Few, p: &mut I) -> Result<Index, InternFault>
    requires { length items ≤ 60 }
    ensures interns { Interns I.known I.home I.fulls p.old p.new (is_full result) }
    ensures agrees { IsInjective (I.known p.new) }
    ensures list { IfOk result (λ i. DenotesList (I.known p.new) i items) }
{
    intern_key(&Key::End(items), p)
}

/// A list of 60 numbers and the others, of which there is one at least.
pub fn longer_list<I: Interner>(items: Few, rest: Index, p: &mut I) -> Result<Index, InternFault>
    requires count { length items ≡ 60 }
    requires rest_known { IsList (I.known p.old) rest }
    requires some { 0 < length (list_at (I.known p.old) rest) }
    ensures interns { Interns I.known I.home I.fulls p.old p.new (is_full result) }
    ensures agrees { IsInjective (I.known p.new) }
    ensures list { IfOk result (λ i. DenotesList (I.known p.new) i (items ++ list_at (I.known p.old) rest)) }
{
    intern_key(&Key::More { items, rest }, p)
}

/// A list of numbers, which are indices or bytes.
pub fn intern_list<I: Interner>(items: &[u64], p: &mut I) -> Result<Index, InternFault>
    ensures interns { Interns I.known I.home I.fulls p.old p.new (is_full result) }
    ensures agrees { IsInjective (I.known p.new) }
    ensures list { IfOk result (λ i. DenotesList (I.known p.new) i items.now) }
{
    let mut chunks = items.len().saturating_sub(1) / CHUNK;
    let mut list = short_list(Few::of(&items[chunks * CHUNK..]), p)?;
    while chunks > 0 {
        chunks -= 1;
        let start = chunks * CHUNK;
        let chunk = Few::of(&items[start..start + CHUNK]);
        list = longer_list(chunk, list, p)?;
    }
    Ok(list)
}

/// At most 60 bytes.
fn short_bytes<I: Interner>(bytes: &[u8], p: &mut I) -> Result<Index, InternFault>
    requires { length bytes.now ≤ 60 }
    ensures interns { Interns I.known I.home I.fulls p.old p.new (is_full result) }
    ensures agrees { IsInjective (I.known p.new) }
    ensures bytes { IfOk result (λ i. DenotesBytes (I.known p.new) i bytes.now) }
{
    short_list(Few::of_bytes(bytes), p)
}

/// 60 bytes and the others, of which there is one at least.
fn longer_bytes<I: Interner>(bytes: &[u8], rest: Index, p: &mut I) -> Result<Index, InternFault>
    requires count { length bytes.now ≡ 60 }
    requires rest_known { IsBytes (I.known p.old) rest }
    requires some { 0 < length (bytes_at (I.known p.old) rest) }
    ensures interns { Interns I.known I.home I.fulls p.old p.new (is_full result) }
    ensures agrees { IsInjective (I.known p.new) }
    ensures bytes { IfOk result (λ i. DenotesBytes (I.known p.new) i (bytes.now ++ bytes_at (I.known p.old) rest)) }
{
    longer_list(Few::of_bytes(bytes), rest, p)
}

/// A list of bytes: a name, a path or a text.
pub fn intern_bytes<I: Interner>(bytes: &[u8], p: &mut I) -> Result<Index, InternFault>
    ensures interns { Interns I.known I.home I.fulls p.old p.new (is_full result) }
    ensures agrees { IsInjective (I.known p.new) }
    ensures bytes { IfOk result (λ i. DenotesBytes (I.known p.new) i bytes.now) }
{
    let mut chunks = bytes.len().saturating_sub(1) / CHUNK;
    let mut list = short_bytes(&bytes[chunks * CHUNK..], p)?;
    while chunks > 0 {
        chunks -= 1;
        let start = chunks * CHUNK;
        list = longer_bytes(&bytes[start..start + CHUNK], list, p)?;
    }
    Ok(list)
}

/// Appends the numbers of the list at an index to `into`. An Err leaves some of them there.
pub fn read_list<P: Keys>(list: Index, p: &mut P, into: &mut Vec<u64>) -> Result<(), AllocError>
    requires { IsList (P.known p.old) list }
    ensures reads { Reads P.known P.home P.fulls p.old p.new }
    ensures agrees { IsInjective (P.known p.new) }
    ensures items { OnOk result (into.new.items ≡ into.old.items ++ list_at (P.known p.old) list) }
{
    let mut at = list;
    loop {
        match list_key(at, p) {
            Key::End(items) => {
                into.extend_from_slice(items.as_slice())?;
                return Ok(());
            }
            Key::More { items, rest } => {
                into.extend_from_slice(items.as_slice())?;
                at = rest;
            }
            _ => unreachable!(),
        }
    }
}

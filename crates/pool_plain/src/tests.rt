// The pool with keys of every layer: a function that builds, and one that goes down.
ghost use Rattle.std.specs.Prelude.{◌≡◌, false, IfOk};
ghost use Rattle.type_form.specs.Known.{IsInjective};
ghost use Rattle.type_form.specs.Means.{IsTy, ty_at, DenotesTy};
ghost use Rattle.type_form.specs.Pool.{Reads, Interns, is_full};
ghost use Rattle.type_form.specs.declared.tree.Ty.TheVariants as ty;
ghost use Rattle.pool_plain.specs.Recipes.{is_comptime_only};

use crate::PlainPool;
use std::test::Fail;
use type_form::{Index, InternFault, Interner, Key, KeyBuf, Keys, SimpleTy};
use type_keys::types::{
    array_type, error_union_type, optional_type, pointer_type, simple_type, slice_type,
};
use type_keys::{intern_bytes, intern_list, read_list, ty_key};

/// `[4]*b!?[]?a`.
fn six<I: Interner>(a: Index, b: Index, p: &mut I) -> Result<Index, InternFault>
    requires a_known { IsTy (I.known p.old) a }
    requires b_known { IsTy (I.known p.old) b }
    ensures interns { Interns I.known I.home I.fulls p.old p.new (is_full result) }
    ensures ty { IfOk result (λ i. DenotesTy (I.known p.new) i (ty.Array 4 (ty.Pointer false (ty.ErrorUnion (ty_at (I.known p.old) b) (ty.Optional (ty.Slice false (ty.Optional (ty_at (I.known p.old) a)))))))) }
{
    let inner = optional_type(a, p)?;
    let slice = slice_type(false, inner, p)?;
    let outer = optional_type(slice, p)?;
    let union = error_union_type(b, outer, p)?;
    let pointer = pointer_type(false, union, p)?;
    let array = array_type(4, pointer, p)?;
    Ok(array)
}

/// Whether a value of the type is known at comptime only.
#[tactic(auto, using(type_form::specs::declared::tree::Arg::the_lemmas))]
fn is_comptime_only<P: Keys>(ty: Index, p: &mut P) -> bool
    requires { IsTy (P.known p.old) ty }
    ensures reads { Reads P.known P.home P.fulls p.old p.new }
    ensures agrees { IsInjective (P.known p.new) }
    ensures answer { result ≡ is_comptime_only (ty_at (P.known p.old) ty) }
{
    match ty_key(ty, p) {
        Key::SimpleType(SimpleTy::Metatype) => true,
        Key::SimpleType(SimpleTy::ComptimeInt) => true,
        Key::FunctionType { .. } => true,
        Key::PointerType { child, .. } => is_comptime_only(child, p),
        Key::ArrayType { child, .. } => is_comptime_only(child, p),
        Key::OptionalType { child } => is_comptime_only(child, p),
        _ => false,
    }
}

#[test]
fn builds_and_goes_down(rt: HostRuntime) -> Result<(), Fail> {
    let mut pool = PlainPool::new(rt.alloc());
    let plain = simple_type(SimpleTy::Bool, &mut pool)?;
    let again = simple_type(SimpleTy::Bool, &mut pool)?;
    assert_eq!(rt; plain, again);
    let whole = six(plain, plain, &mut pool)?;
    assert!(rt; !is_comptime_only(whole, &mut pool));
    let number = simple_type(SimpleTy::ComptimeInt, &mut pool)?;
    let pointer = pointer_type(true, number, &mut pool)?;
    assert!(rt; is_comptime_only(pointer, &mut pool));
    Ok(())
}

#[test]
fn lists(rt: HostRuntime) -> Result<(), Fail> {
    let mut pool = PlainPool::new(rt.alloc());
    let numbers = [7u64; 130];
    let list = intern_list(&numbers, &mut pool)?;
    let mut back = Vec::new(rt.alloc());
    read_list(list, &mut pool, &mut back)?;
    assert_eq!(rt; back.as_slice(), numbers.as_slice());
    let short = intern_bytes(b"abc", &mut pool)?;
    let same = intern_list(&[97, 98, 99], &mut pool)?;
    assert_eq!(rt; short, same);
    Ok(())
}

#[test]
fn keys(rt: HostRuntime) -> Result<(), Fail> {
    let mut pool = PlainPool::new(rt.alloc());
    assert_eq!(rt; pool.find(&[1, 2]), None);
    let place = pool.intern(&[1, 2])?;
    assert_eq!(rt; place, Index(0));
    assert_eq!(rt; pool.find(&[1, 2]), Some(place));
    let mut words = KeyBuf::new();
    pool.key_into(place, &mut words);
    assert_eq!(rt; words.as_slice(), [1, 2].as_slice());
    Ok(())
}

// Trees read back from the indices that denote them.
ghost use Rattle.std.specs.Prelude.{◌≡◌, IfOk};
ghost use Rattle.type_form.specs.Known.{IsInjective};
ghost use Rattle.type_form.specs.Means.{AreArgs, AreTys, AreValues, IsArg, IsBytes, IsDecl, IsInstance, IsTy, IsValue, arg_at, args_at, bytes_at, decl_at, instance_at, ty_at, tys_at, value_at, values_at};
ghost use Rattle.type_form.specs.Pool.{Reads};
ghost use Rattle.type_form.specs.declared.tree.Ty.TheVariants as types;
ghost use Rattle.type_trees.specs.Shapes.{of_bytes, of_child, of_value};

use crate::lists::{read_bytes, read_names, read_numbers};
use crate::shape::{OfBytes, OfChild, OfValue, of_bytes, of_child, of_value};
use sqlite_items::{Boxed, Items};
use std::alloc::{AllocError, Global};
use type_form::{Arg, DeclPath, Index, Instance, Key, Keys, Ty, Value};
use type_keys::{arg_key, decl_key, instance_key, ty_key, value_key};

/// The type that an index denotes.
#[cycle(read)]
#[tactic(auto, using(type_form::specs::declared::tree::Arg::the_lemmas, crate::proofs::ReadLemmas::parts_stay))]
pub fn read_ty<P: Keys>(alloc: Global, i: Index, p: &mut P) -> Result<Ty, AllocError>
    requires { IsTy (P.known p.old) i }
    ensures reads { Reads P.known P.home P.fulls p.old p.new }
    ensures agrees { IsInjective (P.known p.new) }
    ensures tree { IfOk result (λ t. t ≡ ty_at (P.known p.old) i) }
{
    match ty_key(i, p) {
        Key::SimpleType(simple) => Ok(Ty::Simple(simple)),
        Key::IntType { is_signed, bits } => Ok(Ty::Int { is_signed, bits }),
        Key::ErrorSetType { names } => Ok(Ty::ErrorSet(read_names(alloc, names, p)?)),
        Key::PointerType { is_const, child } => {
            ty_of_child(alloc, OfChild::Pointer { is_const }, child, p)
        }
        Key::SliceType { is_const, child } => {
            ty_of_child(alloc, OfChild::Slice { is_const }, child, p)
        }
        Key::ArrayType { length, child } => ty_of_child(alloc, OfChild::Array { length }, child, p),
        Key::TerminatedType { length } => Ok(Ty::Terminated { length }),
        Key::OptionalType { child } => ty_of_child(alloc, OfChild::Optional, child, p),
        Key::ErrorUnionType { set, payload } => read_error_union(alloc, set, payload, p),
        Key::FileType { path } => Ok(Ty::File(read_bytes(alloc, path, p)?)),
        Key::ContainerType {
            decl,
            ordinal,
            captures,
        } => read_container(alloc, decl, ordinal, captures, p),
        Key::FunctionType { params, result } => read_function(alloc, params, result, p),
        Key::UnionTagType { union_ty } => ty_of_child(alloc, OfChild::UnionTag, union_ty, p),
        _ => unreachable!(),
    }
}

/// A type that is made of another one.
#[cycle(read)]
#[tactic(auto, using(type_form::specs::declared::tree::Arg::the_lemmas, crate::proofs::ReadLemmas::parts_stay))]
fn ty_of_child<P: Keys>(
    alloc: Global,
    kind: OfChild,
    child: Index,
    p: &mut P,
) -> Result<Ty, AllocError>
    requires { IsTy (P.known p.old) child }
    ensures reads { Reads P.known P.home P.fulls p.old p.new }
    ensures agrees { IsInjective (P.known p.new) }
    ensures tree { IfOk result (λ t. t ≡ of_child kind (ty_at (P.known p.old) child)) }
{
    let held = read_ty(alloc, child, p)?;
    of_child(alloc, kind, held)
}

/// An error union.
#[cycle(read)]
#[tactic(auto, using(type_form::specs::declared::tree::Arg::the_lemmas, crate::proofs::ReadLemmas::parts_stay))]
fn read_error_union<P: Keys>(
    alloc: Global,
    set: Index,
    payload: Index,
    p: &mut P,
) -> Result<Ty, AllocError>
    requires set { IsTy (P.known p.old) set }
    requires payload { IsTy (P.known p.old) payload }
    ensures reads { Reads P.known P.home P.fulls p.old p.new }
    ensures agrees { IsInjective (P.known p.new) }
    ensures tree { IfOk result (λ t. t ≡ types.ErrorUnion (ty_at (P.known p.old) set) (ty_at (P.known p.old) payload)) }
{
    let errors = read_ty(alloc, set, p)?;
    let good = read_ty(alloc, payload, p)?;
    Ok(Ty::ErrorUnion {
        set: Boxed::new(alloc, errors)?,
        payload: Boxed::new(alloc, good)?,
    })
}

/// A container.
#[cycle(read)]
#[tactic(auto, using(type_form::specs::declared::tree::Arg::the_lemmas, crate::proofs::ReadLemmas::parts_stay))]
fn read_container<P: Keys>(
    alloc: Global,
    decl: Index,
    ordinal: u32,
    captures: Index,
    p: &mut P,
) -> Result<Ty, AllocError>
    requires decl { IsDecl (P.known p.old) decl }
    requires captures { AreArgs (P.known p.old) captures }
    ensures reads { Reads P.known P.home P.fulls p.old p.new }
    ensures agrees { IsInjective (P.known p.new) }
    ensures tree { IfOk result (λ t. t ≡ types.Container (decl_at (P.known p.old) decl) ordinal (args_at (P.known p.old) captures)) }
{
    let around = read_decl(alloc, decl, p)?;
    let held = read_args(alloc, captures, p)?;
    Ok(Ty::Container {
        decl: Boxed::new(alloc, around)?,
        ordinal,
        captures: held,
    })
}

/// A function type.
#[cycle(read)]
#[tactic(auto, using(type_form::specs::declared::tree::Arg::the_lemmas, crate::proofs::ReadLemmas::parts_stay))]
fn read_function<P: Keys>(
    alloc: Global,
    params: Index,
    returned: Index,
    p: &mut P,
) -> Result<Ty, AllocError>
    requires params { AreTys (P.known p.old) params }
    requires returned { IsTy (P.known p.old) returned }
    ensures reads { Reads P.known P.home P.fulls p.old p.new }
    ensures agrees { IsInjective (P.known p.new) }
    ensures tree { IfOk result (λ t. t ≡ types.Function (tys_at (P.known p.old) params) (ty_at (P.known p.old) returned)) }
{
    let taken = read_tys(alloc, params, p)?;
    let given = read_ty(alloc, returned, p)?;
    Ok(Ty::Function {
        params: taken,
        result: Boxed::new(alloc, given)?,
    })
}

/// The types that the list at an index denotes.
#[cycle(read)]
#[tactic(auto, using(type_form::specs::declared::tree::Arg::the_lemmas, crate::proofs::ReadLemmas::parts_stay))]
fn read_tys<P: Keys>(alloc: Global, list: Index, p: &mut P) -> Result<Items<Ty>, AllocError>
    requires { AreTys (P.known p.old) list }
    ensures reads { Reads P.known P.home P.fulls p.old p.new }
    ensures agrees { IsInjective (P.known p.new) }
    ensures trees { IfOk result (λ t. t ≡ tys_at (P.known p.old) list) }
{
    let numbers = read_numbers(alloc, list, p)?;
    let mut tys = Items::new(alloc);
    for number in &numbers {
        let ty = read_ty(alloc, Index(*number), p)?;
        tys.push(ty)?;
    }
    Ok(tys)
}

/// The declaration that an index denotes.
#[cycle(read)]
#[tactic(auto, using(type_form::specs::declared::tree::Arg::the_lemmas, crate::proofs::ReadLemmas::parts_stay))]
pub fn read_decl<P: Keys>(alloc: Global, i: Index, p: &mut P) -> Result<DeclPath, AllocError>
    requires { IsDecl (P.known p.old) i }
    ensures reads { Reads P.known P.home P.fulls p.old p.new }
    ensures agrees { IsInjective (P.known p.new) }
    ensures tree { IfOk result (λ d. d ≡ decl_at (P.known p.old) i) }
{
    match decl_key(i, p) {
        Key::NamedDecl { container, name } => {
            let around = read_ty(alloc, container, p)?;
            let name = read_bytes(alloc, name, p)?;
            Ok(DeclPath::Named {
                container: Boxed::new(alloc, around)?,
                name,
            })
        }
        Key::ComptimeDecl { file, number } => Ok(DeclPath::Comptime {
            file: read_bytes(alloc, file, p)?,
            number,
        }),
        _ => unreachable!(),
    }
}

/// The argument that an index denotes.
#[cycle(read)]
#[tactic(auto, using(type_form::specs::declared::tree::Arg::the_lemmas, crate::proofs::ReadLemmas::parts_stay))]
pub fn read_arg<P: Keys>(alloc: Global, i: Index, p: &mut P) -> Result<Arg, AllocError>
    requires { IsArg (P.known p.old) i }
    ensures reads { Reads P.known P.home P.fulls p.old p.new }
    ensures agrees { IsInjective (P.known p.new) }
    ensures tree { IfOk result (λ a. a ≡ arg_at (P.known p.old) i) }
{
    match arg_key(i, p) {
        Key::KnownArg { value } => Ok(Arg::Known(read_value(alloc, value, p)?)),
        Key::FunctionArg { ty, decl } => {
            let of = read_ty(alloc, ty, p)?;
            let decl = read_decl(alloc, decl, p)?;
            Ok(Arg::Function { ty: of, decl })
        }
        Key::TypedArg { ty } => Ok(Arg::Typed(read_ty(alloc, ty, p)?)),
        _ => unreachable!(),
    }
}

/// The arguments that the list at an index denotes.
#[cycle(read)]
#[tactic(auto, using(type_form::specs::declared::tree::Arg::the_lemmas, crate::proofs::ReadLemmas::parts_stay))]
fn read_args<P: Keys>(alloc: Global, list: Index, p: &mut P) -> Result<Items<Arg>, AllocError>
    requires { AreArgs (P.known p.old) list }
    ensures reads { Reads P.known P.home P.fulls p.old p.new }
    ensures agrees { IsInjective (P.known p.new) }
    ensures trees { IfOk result (λ a. a ≡ args_at (P.known p.old) list) }
{
    let numbers = read_numbers(alloc, list, p)?;
    let mut args = Items::new(alloc);
    for number in &numbers {
        let arg = read_arg(alloc, Index(*number), p)?;
        args.push(arg)?;
    }
    Ok(args)
}

/// A value of a type and bytes.
#[cycle(read)]
#[tactic(auto, using(type_form::specs::declared::tree::Arg::the_lemmas, crate::proofs::ReadLemmas::parts_stay))]
fn value_of_bytes<P: Keys>(
    alloc: Global,
    kind: OfBytes,
    ty: Index,
    bytes: Index,
    p: &mut P,
) -> Result<Value, AllocError>
    requires ty { IsTy (P.known p.old) ty }
    requires bytes { IsBytes (P.known p.old) bytes }
    ensures reads { Reads P.known P.home P.fulls p.old p.new }
    ensures agrees { IsInjective (P.known p.new) }
    ensures tree { IfOk result (λ v. v ≡ of_bytes kind (ty_at (P.known p.old) ty) (bytes_at (P.known p.old) bytes)) }
{
    let of = read_ty(alloc, ty, p)?;
    let held = read_bytes(alloc, bytes, p)?;
    Ok(of_bytes(kind, of, held))
}

/// A value of a type and another value.
#[cycle(read)]
#[tactic(auto, using(type_form::specs::declared::tree::Arg::the_lemmas, crate::proofs::ReadLemmas::parts_stay))]
fn value_of_value<P: Keys>(
    alloc: Global,
    kind: OfValue,
    ty: Index,
    value: Index,
    p: &mut P,
) -> Result<Value, AllocError>
    requires ty { IsTy (P.known p.old) ty }
    requires value { IsValue (P.known p.old) value }
    ensures reads { Reads P.known P.home P.fulls p.old p.new }
    ensures agrees { IsInjective (P.known p.new) }
    ensures tree { IfOk result (λ v. v ≡ of_value kind (ty_at (P.known p.old) ty) (value_at (P.known p.old) value)) }
{
    let of = read_ty(alloc, ty, p)?;
    let held = read_value(alloc, value, p)?;
    of_value(alloc, kind, of, held)
}

/// The value that an index denotes.
#[cycle(read)]
#[tactic(auto, using(type_form::specs::declared::tree::Arg::the_lemmas, crate::proofs::ReadLemmas::parts_stay))]
pub fn read_value<P: Keys>(alloc: Global, i: Index, p: &mut P) -> Result<Value, AllocError>
    requires { IsValue (P.known p.old) i }
    ensures reads { Reads P.known P.home P.fulls p.old p.new }
    ensures agrees { IsInjective (P.known p.new) }
    ensures tree { IfOk result (λ v. v ≡ value_at (P.known p.old) i) }
{
    match value_key(i, p) {
        Key::SimpleValue { ty, value } => Ok(Value::Simple {
            ty: read_ty(alloc, ty, p)?,
            value,
        }),
        Key::IntValue { ty, number } => Ok(Value::Int {
            ty: read_ty(alloc, ty, p)?,
            number,
        }),
        Key::TagValue { ty, name } => value_of_bytes(alloc, OfBytes::Tag, ty, name, p),
        Key::ErrorValue { ty, name } => value_of_bytes(alloc, OfBytes::Error, ty, name, p),
        Key::SomeValue { ty, payload } => value_of_value(alloc, OfValue::Some, ty, payload, p),
        Key::GoodValue { ty, payload } => value_of_value(alloc, OfValue::Good, ty, payload, p),
        Key::ListValue { ty, parts } => {
            let of = read_ty(alloc, ty, p)?;
            let parts = read_values(alloc, parts, p)?;
            Ok(Value::List { ty: of, parts })
        }
        Key::TextValue { ty, bytes } => value_of_bytes(alloc, OfBytes::Text, ty, bytes, p),
        Key::TaggedValue { ty, name, payload } => {
            let of = read_ty(alloc, ty, p)?;
            let name = read_bytes(alloc, name, p)?;
            let held = read_value(alloc, payload, p)?;
            Ok(Value::Tagged {
                ty: of,
                name,
                payload: Boxed::new(alloc, held)?,
            })
        }
        Key::TypeValue { of } => Ok(Value::OfType(read_ty(alloc, of, p)?)),
        Key::FunctionValue { decl } => Ok(Value::Function(read_decl(alloc, decl, p)?)),
        Key::AddressValue { ty, decl } => {
            let of = read_ty(alloc, ty, p)?;
            let decl = read_decl(alloc, decl, p)?;
            Ok(Value::Address { ty: of, decl })
        }
        Key::ConstantValue { ty, target } => {
            value_of_value(alloc, OfValue::Constant, ty, target, p)
        }
        Key::PlaceValue { ty, place } => Ok(Value::Place {
            ty: read_ty(alloc, ty, p)?,
            place,
        }),
        Key::PartValue {
            ty,
            whole,
            part,
            count,
        } => value_of_value(alloc, OfValue::Part { part, count }, ty, whole, p),
        Key::SliceValue {
            ty,
            pointer,
            low,
            high,
        } => value_of_value(alloc, OfValue::Slice { low, high }, ty, pointer, p),
        _ => unreachable!(),
    }
}

/// The values that the list at an index denotes.
#[cycle(read)]
#[tactic(auto, using(type_form::specs::declared::tree::Arg::the_lemmas, crate::proofs::ReadLemmas::parts_stay))]
fn read_values<P: Keys>(alloc: Global, list: Index, p: &mut P) -> Result<Items<Value>, AllocError>
    requires { AreValues (P.known p.old) list }
    ensures reads { Reads P.known P.home P.fulls p.old p.new }
    ensures agrees { IsInjective (P.known p.new) }
    ensures trees { IfOk result (λ v. v ≡ values_at (P.known p.old) list) }
{
    let numbers = read_numbers(alloc, list, p)?;
    let mut values = Items::new(alloc);
    for number in &numbers {
        let value = read_value(alloc, Index(*number), p)?;
        values.push(value)?;
    }
    Ok(values)
}

/// The instance that an index denotes.
#[tactic(auto, using(crate::proofs::ReadLemmas::parts_stay))]
pub fn read_instance<P: Keys>(alloc: Global, i: Index, p: &mut P) -> Result<Instance, AllocError>
    requires { IsInstance (P.known p.old) i }
    ensures reads { Reads P.known P.home P.fulls p.old p.new }
    ensures agrees { IsInjective (P.known p.new) }
    ensures tree { IfOk result (λ n. n ≡ instance_at (P.known p.old) i) }
{
    match instance_key(i, p) {
        Key::Instance { decl, args } => {
            let decl = read_decl(alloc, decl, p)?;
            let args = read_args(alloc, args, p)?;
            Ok(Instance { decl, args })
        }
        _ => unreachable!(),
    }
}

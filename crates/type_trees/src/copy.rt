// Copies of trees.
ghost use Rattle.std.specs.Prelude.{◌≡◌, IfOk};
ghost use Rattle.type_trees.specs.Shapes.{of_bytes, of_value};
ghost use Rattle.type_form.specs.declared.tree.Value.TheVariants as value;

use crate::shape::{OfBytes, OfValue, of_bytes, of_value};
use sqlite_items::{Boxed, Items};
use std::alloc::{AllocError, Global};
use type_form::{Arg, DeclPath, Instance, Ty, Unit, Value};
use zw_base::{Bytes, Seq};

/// A copy of bytes.
fn copy_bytes(alloc: Global, bytes: &Bytes) -> Result<Bytes, AllocError>
    ensures { IfOk result (λ b. b ≡ bytes.now) }
{
    Ok(Bytes::of(Vec::from_slice(alloc, bytes.as_slice())?))
}

/// A copy of names.
fn copy_names(alloc: Global, names: &[Bytes]) -> Result<Seq<Bytes>, AllocError>
    ensures { IfOk result (λ n. n ≡ names.now) }
{
    let mut copies = Vec::new(alloc);
    for name in names {
        copies.push(copy_bytes(alloc, name)?)?;
    }
    Ok(Seq::of(copies))
}

/// A copy of a type.
#[cycle(copy)]
pub fn copy_ty(alloc: Global, ty: &Ty) -> Result<Ty, AllocError>
    ensures { IfOk result (λ t. t ≡ ty.now) }
{
    Ok(match ty {
        Ty::Simple(simple) => Ty::Simple(*simple),
        Ty::Int { is_signed, bits } => Ty::Int {
            is_signed: *is_signed,
            bits: *bits,
        },
        Ty::ErrorSet(names) => Ty::ErrorSet(copy_names(alloc, names.as_slice())?),
        Ty::Pointer { is_const, child } => Ty::Pointer {
            is_const: *is_const,
            child: boxed_ty(alloc, child)?,
        },
        Ty::Slice { is_const, child } => Ty::Slice {
            is_const: *is_const,
            child: boxed_ty(alloc, child)?,
        },
        Ty::Array { length, child } => Ty::Array {
            length: *length,
            child: boxed_ty(alloc, child)?,
        },
        Ty::Terminated { length } => Ty::Terminated { length: *length },
        Ty::Optional(child) => Ty::Optional(boxed_ty(alloc, child)?),
        Ty::ErrorUnion { set, payload } => Ty::ErrorUnion {
            set: boxed_ty(alloc, set)?,
            payload: boxed_ty(alloc, payload)?,
        },
        Ty::File(path) => Ty::File(copy_bytes(alloc, path)?),
        Ty::Container {
            decl,
            ordinal,
            captures,
        } => Ty::Container {
            decl: boxed_decl(alloc, decl)?,
            ordinal: *ordinal,
            captures: copy_args(alloc, captures.as_slice())?,
        },
        Ty::Function { params, result } => Ty::Function {
            params: copy_tys(alloc, params.as_slice())?,
            result: boxed_ty(alloc, result)?,
        },
        Ty::UnionTag(union_ty) => Ty::UnionTag(boxed_ty(alloc, union_ty)?),
    })
}

/// A copy of a type in a box.
#[cycle(copy)]
fn boxed_ty(alloc: Global, ty: &Boxed<Ty>) -> Result<Boxed<Ty>, AllocError>
    ensures { IfOk result (λ t. t ≡ ty.now) }
{
    Boxed::new(alloc, copy_ty(alloc, ty.get())?)
}

/// A copy of types.
#[cycle(copy)]
fn copy_tys(alloc: Global, tys: &[Ty]) -> Result<Items<Ty>, AllocError>
    ensures { IfOk result (λ t. t ≡ tys.now) }
{
    let mut copies = Items::new(alloc);
    for ty in tys {
        copies.push(copy_ty(alloc, ty)?)?;
    }
    Ok(copies)
}

/// A copy of a declaration.
#[cycle(copy)]
pub fn copy_decl(alloc: Global, decl: &DeclPath) -> Result<DeclPath, AllocError>
    ensures { IfOk result (λ d. d ≡ decl.now) }
{
    Ok(match decl {
        DeclPath::Named { container, name } => DeclPath::Named {
            container: boxed_ty(alloc, container)?,
            name: copy_bytes(alloc, name)?,
        },
        DeclPath::Comptime { file, number } => DeclPath::Comptime {
            file: copy_bytes(alloc, file)?,
            number: *number,
        },
    })
}

/// A copy of a declaration in a box.
#[cycle(copy)]
fn boxed_decl(alloc: Global, decl: &Boxed<DeclPath>) -> Result<Boxed<DeclPath>, AllocError>
    ensures { IfOk result (λ d. d ≡ decl.now) }
{
    Boxed::new(alloc, copy_decl(alloc, decl.get())?)
}

/// A copy of an argument.
#[cycle(copy)]
pub fn copy_arg(alloc: Global, arg: &Arg) -> Result<Arg, AllocError>
    ensures { IfOk result (λ a. a ≡ arg.now) }
{
    Ok(match arg {
        Arg::Known(value) => Arg::Known(copy_value(alloc, value)?),
        Arg::Function { ty, decl } => Arg::Function {
            ty: copy_ty(alloc, ty)?,
            decl: copy_decl(alloc, decl)?,
        },
        Arg::Typed(ty) => Arg::Typed(copy_ty(alloc, ty)?),
    })
}

/// A copy of arguments.
#[cycle(copy)]
pub fn copy_args(alloc: Global, args: &[Arg]) -> Result<Items<Arg>, AllocError>
    ensures { IfOk result (λ a. a ≡ args.now) }
{
    let mut copies = Items::new(alloc);
    for arg in args {
        copies.push(copy_arg(alloc, arg)?)?;
    }
    Ok(copies)
}

/// A copy of a value of a type and bytes.
#[cycle(copy)]
fn copy_of_bytes(alloc: Global, kind: OfBytes, ty: &Ty, bytes: &Bytes) -> Result<Value, AllocError>
    ensures { IfOk result (λ v. v ≡ of_bytes kind ty.now bytes.now) }
{
    let copy = copy_ty(alloc, ty)?;
    Ok(of_bytes(kind, copy, copy_bytes(alloc, bytes)?))
}

/// A copy of a value of a type and another value.
#[cycle(copy)]
fn copy_of_value(alloc: Global, kind: OfValue, ty: &Ty, value: &Value) -> Result<Value, AllocError>
    ensures { IfOk result (λ v. v ≡ of_value kind ty.now value.now) }
{
    let copy = copy_ty(alloc, ty)?;
    of_value(alloc, kind, copy, copy_value(alloc, value)?)
}

/// A copy of a member of a union with its payload.
#[cycle(copy)]
fn copy_tagged(alloc: Global, ty: &Ty, name: &Bytes, payload: &Value) -> Result<Value, AllocError>
    ensures { IfOk result (λ v. v ≡ value.Tagged ty.now name.now payload.now) }
{
    Ok(Value::Tagged {
        ty: copy_ty(alloc, ty)?,
        name: copy_bytes(alloc, name)?,
        payload: Boxed::new(alloc, copy_value(alloc, payload)?)?,
    })
}

/// A copy of a value.
#[cycle(copy)]
pub fn copy_value(alloc: Global, value: &Value) -> Result<Value, AllocError>
    ensures { IfOk result (λ v. v ≡ value.now) }
{
    match value {
        Value::Simple { ty, value } => Ok(Value::Simple {
            ty: copy_ty(alloc, ty)?,
            value: *value,
        }),
        Value::Int { ty, number } => Ok(Value::Int {
            ty: copy_ty(alloc, ty)?,
            number: *number,
        }),
        Value::Tag { ty, name } => copy_of_bytes(alloc, OfBytes::Tag, ty, name),
        Value::Error { ty, name } => copy_of_bytes(alloc, OfBytes::Error, ty, name),
        Value::Some { ty, payload } => copy_of_value(alloc, OfValue::Some, ty, payload.get()),
        Value::Good { ty, payload } => copy_of_value(alloc, OfValue::Good, ty, payload.get()),
        Value::List { ty, parts } => Ok(Value::List {
            ty: copy_ty(alloc, ty)?,
            parts: copy_values(alloc, parts.as_slice())?,
        }),
        Value::Text { ty, bytes } => copy_of_bytes(alloc, OfBytes::Text, ty, bytes),
        Value::Tagged { ty, name, payload } => copy_tagged(alloc, ty, name, payload.get()),
        Value::OfType(ty) => Ok(Value::OfType(copy_ty(alloc, ty)?)),
        Value::Function(decl) => Ok(Value::Function(copy_decl(alloc, decl)?)),
        Value::Address { ty, decl } => Ok(Value::Address {
            ty: copy_ty(alloc, ty)?,
            decl: copy_decl(alloc, decl)?,
        }),
        Value::Constant { ty, target } => {
            copy_of_value(alloc, OfValue::Constant, ty, target.get())
        }
        Value::Place { ty, place } => Ok(Value::Place {
            ty: copy_ty(alloc, ty)?,
            place: *place,
        }),
        Value::Part {
            ty,
            whole,
            part,
            count,
        } => {
            let kind = OfValue::Part {
                part: *part,
                count: *count,
            };
            copy_of_value(alloc, kind, ty, whole.get())
        }
        Value::Slice {
            ty,
            pointer,
            low,
            high,
        } => {
            let kind = OfValue::Slice {
                low: *low,
                high: *high,
            };
            copy_of_value(alloc, kind, ty, pointer.get())
        }
    }
}

/// A copy of values.
#[cycle(copy)]
fn copy_values(alloc: Global, values: &[Value]) -> Result<Items<Value>, AllocError>
    ensures { IfOk result (λ v. v ≡ values.now) }
{
    let mut copies = Items::new(alloc);
    for value in values {
        copies.push(copy_value(alloc, value)?)?;
    }
    Ok(copies)
}

/// A copy of an instance.
pub fn copy_instance(alloc: Global, instance: &Instance) -> Result<Instance, AllocError>
    ensures { IfOk result (λ i. i ≡ instance.now) }
{
    Ok(Instance {
        decl: copy_decl(alloc, &instance.decl)?,
        args: copy_args(alloc, instance.args.as_slice())?,
    })
}

/// A copy of a unit.
pub fn copy_unit(alloc: Global, unit: &Unit) -> Result<Unit, AllocError>
    ensures { IfOk result (λ u. u ≡ unit.now) }
{
    Ok(match unit {
        Unit::Decl(decl) => Unit::Decl(copy_decl(alloc, decl)?),
        Unit::Body(instance) => Unit::Body(copy_instance(alloc, instance)?),
        Unit::ErrorSet(instance) => Unit::ErrorSet(copy_instance(alloc, instance)?),
        Unit::Fields(container) => Unit::Fields(copy_ty(alloc, container)?),
        Unit::Code(instance) => Unit::Code(copy_instance(alloc, instance)?),
        Unit::Comptime { file, number } => Unit::Comptime {
            file: copy_bytes(alloc, file)?,
            number: *number,
        },
    })
}

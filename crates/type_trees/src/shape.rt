// Types and values by what they are made of: a type made of another one; a value made of a type and
// bytes, or of a type and another value.
ghost use Rattle.std.specs.Prelude.{◌≡◌, IfOk};
ghost use Rattle.type_trees.specs.Shapes.{of_bytes, of_child, of_value};

use sqlite_items::Boxed;
use std::alloc::{AllocError, Global};
use type_form::{Ty, Value};
use zw_base::Bytes;

/// A value of a type and bytes.
#[derive(Clone, Copy, Debug, PartialEq, Eq)]
pub enum OfBytes {
    /// A member of an enum, or the literal `.name`.
    Tag,
    /// An error.
    Error,
    /// An array of known bytes.
    Text,
}

/// A value of a type and another value.
#[derive(Clone, Copy, Debug, PartialEq, Eq)]
pub enum OfValue {
    /// An optional that is not null.
    Some,
    /// An error union that holds no error.
    Good,
    /// The address of a constant.
    Constant,
    /// The address of a part in comptime memory: which part, and of how many.
    Part { part: u64, count: u64 },
    /// A slice, by the pointer in it and its bounds.
    Slice { low: u64, high: u64 },
}

/// The value of this kind. Takes no memory.
pub fn of_bytes(kind: OfBytes, ty: Ty, bytes: Bytes) -> Value
    ensures { result ≡ of_bytes kind ty bytes }
{
    match kind {
        OfBytes::Tag => Value::Tag { ty, name: bytes },
        OfBytes::Error => Value::Error { ty, name: bytes },
        OfBytes::Text => Value::Text { ty, bytes },
    }
}

/// The value of this kind.
pub fn of_value(alloc: Global, kind: OfValue, ty: Ty, value: Value) -> Result<Value, AllocError>
    ensures { IfOk result (λ v. v ≡ of_value kind ty value) }
{
    let held = Boxed::new(alloc, value)?;
    Ok(match kind {
        OfValue::Some => Value::Some { ty, payload: held },
        OfValue::Good => Value::Good { ty, payload: held },
        OfValue::Constant => Value::Constant { ty, target: held },
        OfValue::Part { part, count } => Value::Part {
            ty,
            whole: held,
            part,
            count,
        },
        OfValue::Slice { low, high } => Value::Slice {
            ty,
            pointer: held,
            low,
            high,
        },
    })
}

/// A type that is made of another one.
#[derive(Clone, Copy, Debug, PartialEq, Eq)]
pub enum OfChild {
    /// `*T`, `*const T`.
    Pointer { is_const: bool },
    /// `[]T`, `[]const T`.
    Slice { is_const: bool },
    /// `[N]T`.
    Array { length: u64 },
    /// `?T`.
    Optional,
    /// The own enum of a union.
    UnionTag,
}

/// The type of this kind.
pub fn of_child(alloc: Global, kind: OfChild, ty: Ty) -> Result<Ty, AllocError>
    ensures { IfOk result (λ t. t ≡ of_child kind ty) }
{
    let child = Boxed::new(alloc, ty)?;
    Ok(match kind {
        OfChild::Pointer { is_const } => Ty::Pointer { is_const, child },
        OfChild::Slice { is_const } => Ty::Slice { is_const, child },
        OfChild::Array { length } => Ty::Array { length, child },
        OfChild::Optional => Ty::Optional(child),
        OfChild::UnionTag => Ty::UnionTag(child),
    })
}

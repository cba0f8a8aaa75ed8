// Whether two trees are one.
ghost use Rattle.std.specs.Prelude.{◌≡◌, ◌↔◌, IsTrue};

use type_form::{Arg, DeclPath, Instance, Ty, Unit, Value};
use zw_base::Bytes;

/// Whether two texts are one.
fn same_bytes(a: &Bytes, b: &Bytes) -> bool
    ensures { IsTrue result ↔ (a.now ≡ b.now) }
{
    a.as_slice() == b.as_slice()
}

/// Whether two lists of names are one.
fn same_names(a: &[Bytes], b: &[Bytes]) -> bool
    ensures { IsTrue result ↔ (a.now ≡ b.now) }
{
    if a.len() != b.len() {
        return false;
    }
    for (i, x) in a.iter().enumerate() {
        if !same_bytes(x, &b[i]) {
            return false;
        }
    }
    true
}

/// Whether two types are one.
#[cycle(same)]
pub fn same_ty(a: &Ty, b: &Ty) -> bool
    ensures { IsTrue result ↔ (a.now ≡ b.now) }
{
    match a {
        Ty::Simple(x) => match b {
            Ty::Simple(y) => x == y,
            _ => false,
        },
        Ty::Int { is_signed, bits } => match b {
            Ty::Int {
                is_signed: other_is_signed,
                bits: other_bits,
            } => is_signed == other_is_signed && bits == other_bits,
            _ => false,
        },
        Ty::ErrorSet(x) => match b {
            Ty::ErrorSet(y) => same_names(x.as_slice(), y.as_slice()),
            _ => false,
        },
        Ty::Pointer { is_const, child } => match b {
            Ty::Pointer {
                is_const: other_is_const,
                child: other_child,
            } => is_const == other_is_const && same_ty(child.get(), other_child.get()),
            _ => false,
        },
        Ty::Slice { is_const, child } => match b {
            Ty::Slice {
                is_const: other_is_const,
                child: other_child,
            } => is_const == other_is_const && same_ty(child.get(), other_child.get()),
            _ => false,
        },
        Ty::Array { length, child } => match b {
            Ty::Array {
                length: other_length,
                child: other_child,
            } => length == other_length && same_ty(child.get(), other_child.get()),
            _ => false,
        },
        Ty::Terminated { length } => match b {
            Ty::Terminated {
                length: other_length,
            } => length == other_length,
            _ => false,
        },
        Ty::Optional(x) => match b {
            Ty::Optional(y) => same_ty(x.get(), y.get()),
            _ => false,
        },
        Ty::ErrorUnion { set, payload } => match b {
            Ty::ErrorUnion {
                set: other_set,
                payload: other_payload,
            } => same_ty(set.get(), other_set.get()) && same_ty(payload.get(), other_payload.get()),
            _ => false,
        },
        Ty::File(x) => match b {
            Ty::File(y) => same_bytes(x, y),
            _ => false,
        },
        Ty::Container {
            decl,
            ordinal,
            captures,
        } => match b {
            Ty::Container {
                decl: other_decl,
                ordinal: other_ordinal,
                captures: other_captures,
            } => ordinal == other_ordinal
                && same_decl(decl.get(), other_decl.get())
                && same_args(captures.as_slice(), other_captures.as_slice()),
            _ => false,
        },
        Ty::Function { params, result } => match b {
            Ty::Function {
                params: other_params,
                result: other_result,
            } => same_tys(params.as_slice(), other_params.as_slice())
                && same_ty(result.get(), other_result.get()),
            _ => false,
        },
        Ty::UnionTag(x) => match b {
            Ty::UnionTag(y) => same_ty(x.get(), y.get()),
            _ => false,
        },
    }
}

/// Whether two lists of types are one.
#[cycle(same)]
fn same_tys(a: &[Ty], b: &[Ty]) -> bool
    ensures { IsTrue result ↔ (a.now ≡ b.now) }
{
    if a.len() != b.len() {
        return false;
    }
    for (i, x) in a.iter().enumerate() {
        if !same_ty(x, &b[i]) {
            return false;
        }
    }
    true
}

/// Whether two declarations are one.
#[cycle(same)]
pub fn same_decl(a: &DeclPath, b: &DeclPath) -> bool
    ensures { IsTrue result ↔ (a.now ≡ b.now) }
{
    match a {
        DeclPath::Named { container, name } => match b {
            DeclPath::Named {
                container: other_container,
                name: other_name,
            } => same_bytes(name, other_name) && same_ty(container.get(), other_container.get()),
            _ => false,
        },
        DeclPath::Comptime { file, number } => match b {
            DeclPath::Comptime {
                file: other_file,
                number: other_number,
            } => number == other_number && same_bytes(file, other_file),
            _ => false,
        },
    }
}

/// Whether two arguments are one.
#[cycle(same)]
pub fn same_arg(a: &Arg, b: &Arg) -> bool
    ensures { IsTrue result ↔ (a.now ≡ b.now) }
{
    match a {
        Arg::Known(x) => match b {
            Arg::Known(y) => same_value(x, y),
            _ => false,
        },
        Arg::Function { ty, decl } => match b {
            Arg::Function {
                ty: other_ty,
                decl: other_decl,
            } => same_ty(ty, other_ty) && same_decl(decl, other_decl),
            _ => false,
        },
        Arg::Typed(x) => match b {
            Arg::Typed(y) => same_ty(x, y),
            _ => false,
        },
    }
}

/// Whether two lists of arguments are one.
#[cycle(same)]
fn same_args(a: &[Arg], b: &[Arg]) -> bool
    ensures { IsTrue result ↔ (a.now ≡ b.now) }
{
    if a.len() != b.len() {
        return false;
    }
    for (i, x) in a.iter().enumerate() {
        if !same_arg(x, &b[i]) {
            return false;
        }
    }
    true
}

/// Whether two values are one.
#[cycle(same)]
pub fn same_value(a: &Value, b: &Value) -> bool
    ensures { IsTrue result ↔ (a.now ≡ b.now) }
{
    match a {
        Value::Simple { ty, value } => match b {
            Value::Simple {
                ty: other_ty,
                value: other_value,
            } => value == other_value && same_ty(ty, other_ty),
            _ => false,
        },
        Value::Int { ty, number } => match b {
            Value::Int {
                ty: other_ty,
                number: other_number,
            } => number == other_number && same_ty(ty, other_ty),
            _ => false,
        },
        Value::Tag { ty, name } => match b {
            Value::Tag {
                ty: other_ty,
                name: other_name,
            } => same_bytes(name, other_name) && same_ty(ty, other_ty),
            _ => false,
        },
        Value::Error { ty, name } => match b {
            Value::Error {
                ty: other_ty,
                name: other_name,
            } => same_bytes(name, other_name) && same_ty(ty, other_ty),
            _ => false,
        },
        Value::Some { ty, payload } => match b {
            Value::Some {
                ty: other_ty,
                payload: other_payload,
            } => same_ty(ty, other_ty) && same_value(payload.get(), other_payload.get()),
            _ => false,
        },
        Value::Good { ty, payload } => match b {
            Value::Good {
                ty: other_ty,
                payload: other_payload,
            } => same_ty(ty, other_ty) && same_value(payload.get(), other_payload.get()),
            _ => false,
        },
        Value::List { ty, parts } => match b {
            Value::List {
                ty: other_ty,
                parts: other_parts,
            } => same_ty(ty, other_ty) && same_values(parts.as_slice(), other_parts.as_slice()),
            _ => false,
        },
        Value::Text { ty, bytes } => match b {
            Value::Text {
                ty: other_ty,
                bytes: other_bytes,
            } => same_bytes(bytes, other_bytes) && same_ty(ty, other_ty),
            _ => false,
        },
        Value::Tagged { ty, name, payload } => match b {
            Value::Tagged {
                ty: other_ty,
                name: other_name,
                payload: other_payload,
            } => same_bytes(name, other_name)
                && same_ty(ty, other_ty)
                && same_value(payload.get(), other_payload.get()),
            _ => false,
        },
        Value::OfType(x) => match b {
            Value::OfType(y) => same_ty(x, y),
            _ => false,
        },
        Value::Function(x) => match b {
            Value::Function(y) => same_decl(x, y),
            _ => false,
        },
        Value::Address { ty, decl } => match b {
            Value::Address {
                ty: other_ty,
                decl: other_decl,
            } => same_ty(ty, other_ty) && same_decl(decl, other_decl),
            _ => false,
        },
        Value::Constant { ty, target } => match b {
            Value::Constant {
                ty: other_ty,
                target: other_target,
            } => same_ty(ty, other_ty) && same_value(target.get(), other_target.get()),
            _ => false,
        },
        Value::Place { ty, place } => match b {
            Value::Place {
                ty: other_ty,
                place: other_place,
            } => place == other_place && same_ty(ty, other_ty),
            _ => false,
        },
        Value::Part {
            ty,
            whole,
            part,
            count,
        } => match b {
            Value::Part {
                ty: other_ty,
                whole: other_whole,
                part: other_part,
                count: other_count,
            } => part == other_part
                && count == other_count
                && same_ty(ty, other_ty)
                && same_value(whole.get(), other_whole.get()),
            _ => false,
        },
        Value::Slice {
            ty,
            pointer,
            low,
            high,
        } => match b {
            Value::Slice {
                ty: other_ty,
                pointer: other_pointer,
                low: other_low,
                high: other_high,
            } => low == other_low
                && high == other_high
                && same_ty(ty, other_ty)
                && same_value(pointer.get(), other_pointer.get()),
            _ => false,
        },
    }
}

/// Whether two lists of values are one.
#[cycle(same)]
fn same_values(a: &[Value], b: &[Value]) -> bool
    ensures { IsTrue result ↔ (a.now ≡ b.now) }
{
    if a.len() != b.len() {
        return false;
    }
    for (i, x) in a.iter().enumerate() {
        if !same_value(x, &b[i]) {
            return false;
        }
    }
    true
}

/// Whether two instances are one.
pub fn same_instance(a: &Instance, b: &Instance) -> bool
    ensures { IsTrue result ↔ (a.now ≡ b.now) }
{
    same_decl(&a.decl, &b.decl) && same_args(a.args.as_slice(), b.args.as_slice())
}

/// Whether two units are one. Those of one program that are fit are one exactly where their
/// spellings are; this also compares units whose spelling is too long.
pub fn same_unit(a: &Unit, b: &Unit) -> bool
    ensures { IsTrue result ↔ (a.now ≡ b.now) }
{
    match a {
        Unit::Decl(x) => match b {
            Unit::Decl(y) => same_decl(x, y),
            _ => false,
        },
        Unit::Body(x) => match b {
            Unit::Body(y) => same_instance(x, y),
            _ => false,
        },
        Unit::ErrorSet(x) => match b {
            Unit::ErrorSet(y) => same_instance(x, y),
            _ => false,
        },
        Unit::Fields(x) => match b {
            Unit::Fields(y) => same_ty(x, y),
            _ => false,
        },
        Unit::Code(x) => match b {
            Unit::Code(y) => same_instance(x, y),
            _ => false,
        },
        Unit::Comptime { file, number } => match b {
            Unit::Comptime {
                file: other_file,
                number: other_number,
            } => number == other_number && same_bytes(file, other_file),
            _ => false,
        },
    }
}

// Spellings of types, values, declarations and arguments, written in order.
ghost use Rattle.std.specs.Prelude.{◌≡◌, ◌∷◌, [], ◌++◌, OnOk, map, codes, if◌then◌else◌};
ghost use Rattle.type_form.specs.Spelling.{simple_text, known_text, name_text, number_text, commas, behind_commas, in_parens, ty_text, place_text, mark_text, value_text, value_ty_text, decl_text, arg_text};

use crate::text::{put, put_int, put_name, put_number, put_quoted};
use crate::tree::{Arg, DeclPath, SimpleTy, SimpleValue, Ty, Value};
use std::alloc::AllocError;
use zw_base::Bytes;

/// A simple type as text.
pub fn simple_text(simple: SimpleTy) -> &'static [u8]
    ensures { result.now ≡ simple_text simple }
{
    match simple {
        SimpleTy::Usize => b"usize",
        SimpleTy::Isize => b"isize",
        SimpleTy::Bool => b"bool",
        SimpleTy::Void => b"void",
        SimpleTy::Noreturn => b"noreturn",
        SimpleTy::Metatype => b"type",
        SimpleTy::ComptimeInt => b"comptime_int",
        SimpleTy::AnyError => b"anyerror",
        SimpleTy::NullLiteral => b"@null",
        SimpleTy::UndefinedLiteral => b"@undefined",
        SimpleTy::EnumLiteral => b"@literal",
        SimpleTy::GenericFunction => b"fn(generic)",
    }
}

/// A simple value as text.
pub fn known_text(value: SimpleValue) -> &'static [u8]
    ensures { result.now ≡ known_text value }
{
    match value {
        SimpleValue::True => b"true",
        SimpleValue::False => b"false",
        SimpleValue::Void => b"{}",
        SimpleValue::Null => b"null",
        SimpleValue::Undefined => b"undefined",
    }
}

/// Appends names with commas between them.
#[tactic(auto, using(crate::proofs::TextLemmas::name_steps))]
fn put_names(out: &mut Vec<u8>, names: &[Bytes]) -> Result<(), AllocError>
    ensures { OnOk result (out.new.items ≡ out.old.items ++ commas (map name_text names.now)) }
{
    for (i, name) in names.iter().enumerate() {
        if i > 0 {
            put(out, b",")?;
        }
        put_name(out, name.as_slice())?;
    }
    Ok(())
}

/// Appends an integer type.
#[tactic(auto, using(crate::proofs::SpellLemmas::ty_texts))]
fn put_int_type(out: &mut Vec<u8>, is_signed: bool, bits: u32) -> Result<(), AllocError>
    ensures { OnOk result (out.new.items ≡ out.old.items ++ ((if is_signed then codes "i" else codes "u") ++ number_text bits)) }
{
    put(out, if is_signed { b"i" } else { b"u" })?;
    put_number(out, u128::from(bits))
}

/// Appends a type.
#[cycle(spell)]
#[tactic(auto, using(crate::proofs::SpellLemmas::ty_texts))]
pub fn put_ty(out: &mut Vec<u8>, ty: &Ty) -> Result<(), AllocError>
    ensures { OnOk result (out.new.items ≡ out.old.items ++ ty_text ty.now) }
{
    match ty {
        Ty::Simple(simple) => put(out, simple_text(*simple)),
        Ty::Int { is_signed, bits } => put_int_type(out, *is_signed, *bits),
        Ty::ErrorSet(names) => {
            put(out, b"error{")?;
            put_names(out, names.as_slice())?;
            put(out, b"}")
        }
        Ty::Pointer { is_const, child } => {
            put(out, if *is_const { b"*const " } else { b"*" })?;
            put_ty(out, child.get())
        }
        Ty::Slice { is_const, child } => {
            put(out, if *is_const { b"[]const " } else { b"[]" })?;
            put_ty(out, child.get())
        }
        Ty::Array { length, child } => {
            put(out, b"[")?;
            put_number(out, u128::from(*length))?;
            put(out, b"]")?;
            put_ty(out, child.get())
        }
        Ty::Terminated { length } => {
            put(out, b"[")?;
            put_number(out, u128::from(*length))?;
            put(out, b":0]u8")
        }
        Ty::Optional(child) => {
            put(out, b"?")?;
            put_ty(out, child.get())
        }
        Ty::ErrorUnion { set, payload } => {
            put_ty(out, set.get())?;
            put(out, b"!")?;
            put_ty(out, payload.get())
        }
        Ty::File(path) => {
            put(out, b"@:")?;
            put(out, path.as_slice())
        }
        Ty::Container {
            decl,
            ordinal,
            captures,
        } => {
            put_decl(out, decl.get())?;
            put(out, b"#")?;
            put_number(out, u128::from(*ordinal))?;
            put_captures(out, captures.as_slice())
        }
        Ty::Function { params, result } => {
            put(out, b"fn(")?;
            put_tys(out, params.as_slice())?;
            put(out, b")")?;
            put_ty(out, result.get())
        }
        Ty::UnionTag(union_ty) => {
            put(out, b"@tag(")?;
            put_ty(out, union_ty.get())?;
            put(out, b")")
        }
    }
}

/// Appends types with commas between them.
#[cycle(spell)]
#[tactic(auto, using(crate::proofs::TextLemmas::ty_steps))]
fn put_tys(out: &mut Vec<u8>, tys: &[Ty]) -> Result<(), AllocError>
    ensures { OnOk result (out.new.items ≡ out.old.items ++ commas (map ty_text tys.now)) }
{
    for (i, ty) in tys.iter().enumerate() {
        if i > 0 {
            put(out, b",")?;
        }
        put_ty(out, ty)?;
    }
    Ok(())
}

/// Appends a file or a container as a unit names it.
#[cycle(spell)]
#[tactic(auto, using(crate::proofs::SpellLemmas::places))]
pub fn put_place(out: &mut Vec<u8>, container: &Ty) -> Result<(), AllocError>
    ensures { OnOk result (out.new.items ≡ out.old.items ++ place_text container.now) }
{
    match container {
        Ty::File(path) => put(out, path.as_slice()),
        Ty::Simple(_) => put_ty(out, container),
        Ty::Int { .. } => put_ty(out, container),
        Ty::ErrorSet(_) => put_ty(out, container),
        Ty::Pointer { .. } => put_ty(out, container),
        Ty::Slice { .. } => put_ty(out, container),
        Ty::Array { .. } => put_ty(out, container),
        Ty::Terminated { .. } => put_ty(out, container),
        Ty::Optional(_) => put_ty(out, container),
        Ty::ErrorUnion { .. } => put_ty(out, container),
        Ty::Container { .. } => put_ty(out, container),
        Ty::Function { .. } => put_ty(out, container),
        Ty::UnionTag(_) => put_ty(out, container),
    }
}

/// Appends what a container captures, in parentheses where it captures anything.
#[cycle(spell)]
#[tactic(auto, using(crate::proofs::TextLemmas::paren_steps))]
fn put_captures(out: &mut Vec<u8>, captures: &[Arg]) -> Result<(), AllocError>
    ensures { OnOk result (out.new.items ≡ out.old.items ++ in_parens (map arg_text captures.now)) }
{
    if captures.is_empty() {
        return Ok(());
    }
    put(out, b"(")?;
    put_args(out, captures)?;
    put(out, b")")
}

/// Appends arguments with commas between them.
#[cycle(spell)]
#[tactic(auto, using(crate::proofs::TextLemmas::arg_steps))]
pub fn put_args(out: &mut Vec<u8>, args: &[Arg]) -> Result<(), AllocError>
    ensures { OnOk result (out.new.items ≡ out.old.items ++ commas (map arg_text args.now)) }
{
    for (i, arg) in args.iter().enumerate() {
        if i > 0 {
            put(out, b",")?;
        }
        put_arg(out, arg)?;
    }
    Ok(())
}

/// Appends an argument.
#[cycle(spell)]
#[tactic(auto, using(crate::proofs::SpellLemmas::arg_texts))]
pub fn put_arg(out: &mut Vec<u8>, arg: &Arg) -> Result<(), AllocError>
    ensures { OnOk result (out.new.items ≡ out.old.items ++ arg_text arg.now) }
{
    match arg {
        Arg::Known(value) => {
            put_value_ty(out, value)?;
            put(out, b"=")?;
            put_value(out, value)
        }
        Arg::Function { ty, decl } => {
            put_ty(out, ty)?;
            put(out, b"=")?;
            put_decl(out, decl)
        }
        Arg::Typed(ty) => put_ty(out, ty),
    }
}

/// Appends a declaration.
#[cycle(spell)]
#[tactic(auto, using(crate::proofs::SpellLemmas::decl_texts))]
pub fn put_decl(out: &mut Vec<u8>, decl: &DeclPath) -> Result<(), AllocError>
    ensures { OnOk result (out.new.items ≡ out.old.items ++ decl_text decl.now) }
{
    match decl {
        DeclPath::Named { container, name } => {
            put_place(out, container.get())?;
            put(out, mark(container.get()))?;
            put_name(out, name.as_slice())
        }
        DeclPath::Comptime { file, number } => {
            put(out, file.as_slice())?;
            put(out, b":comptime ")?;
            put_number(out, u128::from(*number))
        }
    }
}

/// What stands between a container and a name in it.
#[tactic(auto, using(crate::proofs::SpellLemmas::places))]
pub fn mark(container: &Ty) -> &'static [u8]
    ensures { result.now ≡ mark_text container.now }
{
    match container {
        Ty::File(_) => b":",
        Ty::Simple(_) => b".",
        Ty::Int { .. } => b".",
        Ty::ErrorSet(_) => b".",
        Ty::Pointer { .. } => b".",
        Ty::Slice { .. } => b".",
        Ty::Array { .. } => b".",
        Ty::Terminated { .. } => b".",
        Ty::Optional(_) => b".",
        Ty::ErrorUnion { .. } => b".",
        Ty::Container { .. } => b".",
        Ty::Function { .. } => b".",
        Ty::UnionTag(_) => b".",
    }
}

/// Appends the type of a value.
#[cycle(spell)]
#[tactic(auto, using(crate::proofs::SpellLemmas::value_ty_texts))]
pub fn put_value_ty(out: &mut Vec<u8>, value: &Value) -> Result<(), AllocError>
    ensures { OnOk result (out.new.items ≡ out.old.items ++ value_ty_text value.now) }
{
    match value {
        Value::Simple { ty, .. } => put_ty(out, ty),
        Value::Int { ty, .. } => put_ty(out, ty),
        Value::Tag { ty, .. } => put_ty(out, ty),
        Value::Error { ty, .. } => put_ty(out, ty),
        Value::Some { ty, .. } => put_ty(out, ty),
        Value::Good { ty, .. } => put_ty(out, ty),
        Value::List { ty, .. } => put_ty(out, ty),
        Value::Text { ty, .. } => put_ty(out, ty),
        Value::Tagged { ty, .. } => put_ty(out, ty),
        Value::OfType(_) => put(out, b"type"),
        Value::Function(_) => put(out, b"@function"),
        Value::Address { ty, .. } => put_ty(out, ty),
        Value::Constant { ty, .. } => put_ty(out, ty),
        Value::Place { ty, .. } => put_ty(out, ty),
        Value::Part { ty, .. } => put_ty(out, ty),
        Value::Slice { ty, .. } => put_ty(out, ty),
    }
}

/// Appends a value.
#[cycle(spell)]
#[tactic(auto, using(crate::proofs::SpellLemmas::value_texts))]
pub fn put_value(out: &mut Vec<u8>, value: &Value) -> Result<(), AllocError>
    ensures { OnOk result (out.new.items ≡ out.old.items ++ value_text value.now) }
{
    match value {
        Value::Simple { value, .. } => put(out, known_text(*value)),
        Value::Int { number, .. } => put_int(out, *number),
        Value::Tag { name, .. } => {
            put(out, b".")?;
            put_name(out, name.as_slice())
        }
        Value::Error { name, .. } => {
            put(out, b"error.")?;
            put_name(out, name.as_slice())
        }
        Value::Some { payload, .. } => {
            put(out, b"?")?;
            put_value(out, payload.get())
        }
        Value::Good { payload, .. } => {
            put(out, b"!")?;
            put_value(out, payload.get())
        }
        Value::List { parts, .. } => {
            put(out, b"{")?;
            put_values(out, parts.as_slice())?;
            put(out, b"}")
        }
        Value::Text { bytes, .. } => {
            put(out, b"\"")?;
            put_quoted(out, bytes.as_slice())?;
            put(out, b"\"")
        }
        Value::Tagged { name, payload, .. } => {
            put(out, b".")?;
            put_name(out, name.as_slice())?;
            put(out, b"{")?;
            put_value(out, payload.get())?;
            put(out, b"}")
        }
        Value::OfType(ty) => put_ty(out, ty),
        Value::Function(decl) => put_decl(out, decl),
        Value::Address { decl, .. } => {
            put(out, b"&")?;
            put_decl(out, decl)
        }
        Value::Constant { target, .. } => put_constant(out, target.get()),
        Value::Place { place, .. } => {
            put(out, b"&@comptime")?;
            put_number(out, u128::from(*place))
        }
        Value::Part { whole, part, .. } => {
            put_value(out, whole.get())?;
            put(out, b".")?;
            put_number(out, u128::from(*part))
        }
        Value::Slice {
            pointer,
            low,
            high,
            ..
        } => {
            put_value(out, pointer.get())?;
            put_range(out, *low, *high)
        }
    }
}

/// Appends the address of a constant.
#[cycle(spell)]
fn put_constant(out: &mut Vec<u8>, target: &Value) -> Result<(), AllocError>
    ensures { OnOk result (out.new.items ≡ out.old.items ++ (codes "&(" ++ (value_ty_text target.now ++ (codes "=" ++ (value_text target.now ++ codes ")"))))) }
{
    put(out, b"&(")?;
    put_value_ty(out, target)?;
    put(out, b"=")?;
    put_value(out, target)?;
    put(out, b")")
}

/// Appends the bounds of a slice.
fn put_range(out: &mut Vec<u8>, low: u64, high: u64) -> Result<(), AllocError>
    ensures { OnOk result (out.new.items ≡ out.old.items ++ (codes "[" ++ (number_text low ++ (codes ".." ++ (number_text high ++ codes "]"))))) }
{
    put(out, b"[")?;
    put_number(out, u128::from(low))?;
    put(out, b"..")?;
    put_number(out, u128::from(high))?;
    put(out, b"]")
}

/// Appends values with commas between them.
#[cycle(spell)]
#[tactic(auto, using(crate::proofs::TextLemmas::value_steps))]
fn put_values(out: &mut Vec<u8>, values: &[Value]) -> Result<(), AllocError>
    ensures { OnOk result (out.new.items ≡ out.old.items ++ commas (map value_text values.now)) }
{
    for (i, value) in values.iter().enumerate() {
        if i > 0 {
            put(out, b",")?;
        }
        put_value(out, value)?;
    }
    Ok(())
}

// One call for each kind of type.
ghost use Rattle.std.specs.Prelude.{◌≤◌, IfOk};
ghost use Rattle.type_form.specs.Known.{Known, IsInjective};
ghost use Rattle.type_form.specs.Means.{AreArgs, AreNames, AreTys, DenotesTy, IsDecl, IsBytes, IsTy, args_at, bytes_at, decl_at, names_at, ty_at, tys_at};
ghost use Rattle.type_form.specs.Pool.{Interns, is_full};
ghost use Rattle.type_form.specs.declared.tree.Ty.TheVariants as ty;

use crate::intern::intern_key;
use type_form::{Index, InternFault, Interner, Key, SimpleTy};

/// A type that is one word.
pub fn simple_type<I: Interner>(simple: SimpleTy, p: &mut I) -> Result<Index, InternFault>
    ensures interns { Interns I.known I.home I.fulls p.old p.new (is_full result) }
    ensures agrees { IsInjective (I.known p.new) }
    ensures ty { IfOk result (λ i. DenotesTy (I.known p.new) i (ty.Simple simple)) }
{
    intern_key(&Key::SimpleType(simple), p)
}

/// An integer type.
pub fn int_type<I: Interner>(is_signed: bool, bits: u32, p: &mut I) -> Result<Index, InternFault>
    requires some { 1 ≤ bits }
    requires few { bits ≤ 64 }
    ensures interns { Interns I.known I.home I.fulls p.old p.new (is_full result) }
    ensures agrees { IsInjective (I.known p.new) }
    ensures ty { IfOk result (λ i. DenotesTy (I.known p.new) i (ty.Int is_signed bits)) }
{
    intern_key(&Key::IntType { is_signed, bits }, p)
}

/// An error set, by the list of its names, which are lists of bytes in byte order, each once.
pub fn error_set_type<I: Interner>(names: Index, p: &mut I) -> Result<Index, InternFault>
    requires { AreNames (I.known p.old) names }
    ensures interns { Interns I.known I.home I.fulls p.old p.new (is_full result) }
    ensures agrees { IsInjective (I.known p.new) }
    ensures ty { IfOk result (λ i. DenotesTy (I.known p.new) i (ty.ErrorSet (names_at (I.known p.old) names))) }
{
    intern_key(&Key::ErrorSetType { names }, p)
}

/// A pointer type.
pub fn pointer_type<I: Interner>(
    is_const: bool,
    child: Index,
    p: &mut I,
) -> Result<Index, InternFault>
    requires { IsTy (I.known p.old) child }
    ensures interns { Interns I.known I.home I.fulls p.old p.new (is_full result) }
    ensures agrees { IsInjective (I.known p.new) }
    ensures ty { IfOk result (λ i. DenotesTy (I.known p.new) i (ty.Pointer is_const (ty_at (I.known p.old) child))) }
{
    intern_key(&Key::PointerType { is_const, child }, p)
}

/// A slice type.
pub fn slice_type<I: Interner>(
    is_const: bool,
    child: Index,
    p: &mut I,
) -> Result<Index, InternFault>
    requires { IsTy (I.known p.old) child }
    ensures interns { Interns I.known I.home I.fulls p.old p.new (is_full result) }
    ensures agrees { IsInjective (I.known p.new) }
    ensures ty { IfOk result (λ i. DenotesTy (I.known p.new) i (ty.Slice is_const (ty_at (I.known p.old) child))) }
{
    intern_key(&Key::SliceType { is_const, child }, p)
}

/// An array type.
pub fn array_type<I: Interner>(length: u64, child: Index, p: &mut I) -> Result<Index, InternFault>
    requires { IsTy (I.known p.old) child }
    ensures interns { Interns I.known I.home I.fulls p.old p.new (is_full result) }
    ensures agrees { IsInjective (I.known p.new) }
    ensures ty { IfOk result (λ i. DenotesTy (I.known p.new) i (ty.Array length (ty_at (I.known p.old) child))) }
{
    intern_key(&Key::ArrayType { length, child }, p)
}

/// The type `[N:0]u8`.
pub fn terminated_type<I: Interner>(length: u64, p: &mut I) -> Result<Index, InternFault>
    ensures interns { Interns I.known I.home I.fulls p.old p.new (is_full result) }
    ensures agrees { IsInjective (I.known p.new) }
    ensures ty { IfOk result (λ i. DenotesTy (I.known p.new) i (ty.Terminated length)) }
{
    intern_key(&Key::TerminatedType { length }, p)
}

/// An optional type.
pub fn optional_type<I: Interner>(child: Index, p: &mut I) -> Result<Index, InternFault>
    requires { IsTy (I.known p.old) child }
    ensures interns { Interns I.known I.home I.fulls p.old p.new (is_full result) }
    ensures agrees { IsInjective (I.known p.new) }
    ensures ty { IfOk result (λ i. DenotesTy (I.known p.new) i (ty.Optional (ty_at (I.known p.old) child))) }
{
    intern_key(&Key::OptionalType { child }, p)
}

/// An error union type.
pub fn error_union_type<I: Interner>(
    set: Index,
    payload: Index,
    p: &mut I,
) -> Result<Index, InternFault>
    requires set_known { IsTy (I.known p.old) set }
    requires payload_known { IsTy (I.known p.old) payload }
    ensures interns { Interns I.known I.home I.fulls p.old p.new (is_full result) }
    ensures agrees { IsInjective (I.known p.new) }
    ensures ty { IfOk result (λ i. DenotesTy (I.known p.new) i (ty.ErrorUnion (ty_at (I.known p.old) set) (ty_at (I.known p.old) payload))) }
{
    intern_key(&Key::ErrorUnionType { set, payload }, p)
}

/// A file as a type, by the list of its path's bytes.
pub fn file_type<I: Interner>(path: Index, p: &mut I) -> Result<Index, InternFault>
    requires { IsBytes (I.known p.old) path }
    ensures interns { Interns I.known I.home I.fulls p.old p.new (is_full result) }
    ensures agrees { IsInjective (I.known p.new) }
    ensures ty { IfOk result (λ i. DenotesTy (I.known p.new) i (ty.File (bytes_at (I.known p.old) path))) }
{
    intern_key(&Key::FileType { path }, p)
}

/// A container type, by its declaration, its ordinal there and the list of its captures.
pub fn container_type<I: Interner>(
    decl: Index,
    ordinal: u32,
    captures: Index,
    p: &mut I,
) -> Result<Index, InternFault>
    requires decl_known { IsDecl (I.known p.old) decl }
    requires captures_known { AreArgs (I.known p.old) captures }
    ensures interns { Interns I.known I.home I.fulls p.old p.new (is_full result) }
    ensures agrees { IsInjective (I.known p.new) }
    ensures ty { IfOk result (λ i. DenotesTy (I.known p.new) i (ty.Container (decl_at (I.known p.old) decl) ordinal (args_at (I.known p.old) captures))) }
{
    intern_key(
        &Key::ContainerType {
            decl,
            ordinal,
            captures,
        },
        p,
    )
}

/// A function type, by the list of its parameters' types and its result's.
pub fn function_type<I: Interner>(
    params: Index,
    returned: Index,
    p: &mut I,
) -> Result<Index, InternFault>
    requires params_known { AreTys (I.known p.old) params }
    requires returned_known { IsTy (I.known p.old) returned }
    ensures interns { Interns I.known I.home I.fulls p.old p.new (is_full result) }
    ensures agrees { IsInjective (I.known p.new) }
    ensures ty { IfOk result (λ i. DenotesTy (I.known p.new) i (ty.Function (tys_at (I.known p.old) params) (ty_at (I.known p.old) returned))) }
{
    intern_key(
        &Key::FunctionType {
            params,
            result: returned,
        },
        p,
    )
}

/// The own enum of a union, by the union's type.
pub fn union_tag_type<I: Interner>(union_ty: Index, p: &mut I) -> Result<Index, InternFault>
    requires { IsTy (I.known p.old) union_ty }
    ensures interns { Interns I.known I.home I.fulls p.old p.new (is_full result) }
    ensures agrees { IsInjective (I.known p.new) }
    ensures ty { IfOk result (λ i. DenotesTy (I.known p.new) i (ty.UnionTag (ty_at (I.known p.old) union_ty))) }
{
    intern_key(&Key::UnionTagType { union_ty }, p)
}

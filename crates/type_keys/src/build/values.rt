// One call for each kind of value.
ghost use Rattle.std.specs.Prelude.{IfOk};
ghost use Rattle.type_form.specs.Known.{Known, IsInjective};
ghost use Rattle.type_form.specs.Means.{AreValues, DenotesValue, IsBytes, IsDecl, IsTy, IsValue, bytes_at, decl_at, ty_at, value_at, values_at};
ghost use Rattle.type_form.specs.Pool.{Interns, is_full};
ghost use Rattle.type_form.specs.declared.tree.Value.TheVariants as value;

use crate::intern::intern_key;
use type_form::{Index, InternFault, Interner, Key, SimpleValue};

/// A value that is one word.
pub fn simple_value<I: Interner>(
    ty: Index,
    simple: SimpleValue,
    p: &mut I,
) -> Result<Index, InternFault>
    requires { IsTy (I.known p.old) ty }
    ensures interns { Interns I.known I.home I.fulls p.old p.new (is_full result) }
    ensures agrees { IsInjective (I.known p.new) }
    ensures value { IfOk result (λ i. DenotesValue (I.known p.new) i (value.Simple (ty_at (I.known p.old) ty) simple)) }
{
    intern_key(&Key::SimpleValue { ty, value: simple }, p)
}

/// An integer.
pub fn int_value<I: Interner>(ty: Index, number: i128, p: &mut I) -> Result<Index, InternFault>
    requires { IsTy (I.known p.old) ty }
    ensures interns { Interns I.known I.home I.fulls p.old p.new (is_full result) }
    ensures agrees { IsInjective (I.known p.new) }
    ensures value { IfOk result (λ i. DenotesValue (I.known p.new) i (value.Int (ty_at (I.known p.old) ty) number)) }
{
    intern_key(&Key::IntValue { ty, number }, p)
}

/// A member of an enum, or the literal `.name`.
pub fn tag_value<I: Interner>(ty: Index, name: Index, p: &mut I) -> Result<Index, InternFault>
    requires ty_known { IsTy (I.known p.old) ty }
    requires name_known { IsBytes (I.known p.old) name }
    ensures interns { Interns I.known I.home I.fulls p.old p.new (is_full result) }
    ensures agrees { IsInjective (I.known p.new) }
    ensures value { IfOk result (λ i. DenotesValue (I.known p.new) i (value.Tag (ty_at (I.known p.old) ty) (bytes_at (I.known p.old) name))) }
{
    intern_key(&Key::TagValue { ty, name }, p)
}

/// An error.
pub fn error_value<I: Interner>(ty: Index, name: Index, p: &mut I) -> Result<Index, InternFault>
    requires ty_known { IsTy (I.known p.old) ty }
    requires name_known { IsBytes (I.known p.old) name }
    ensures interns { Interns I.known I.home I.fulls p.old p.new (is_full result) }
    ensures agrees { IsInjective (I.known p.new) }
    ensures value { IfOk result (λ i. DenotesValue (I.known p.new) i (value.Error (ty_at (I.known p.old) ty) (bytes_at (I.known p.old) name))) }
{
    intern_key(&Key::ErrorValue { ty, name }, p)
}

/// An optional that is not null.
pub fn some_value<I: Interner>(ty: Index, payload: Index, p: &mut I) -> Result<Index, InternFault>
    requires ty_known { IsTy (I.known p.old) ty }
    requires payload_known { IsValue (I.known p.old) payload }
    ensures interns { Interns I.known I.home I.fulls p.old p.new (is_full result) }
    ensures agrees { IsInjective (I.known p.new) }
    ensures value { IfOk result (λ i. DenotesValue (I.known p.new) i (value.Some (ty_at (I.known p.old) ty) (value_at (I.known p.old) payload))) }
{
    intern_key(&Key::SomeValue { ty, payload }, p)
}

/// An error union that holds no error.
pub fn good_value<I: Interner>(ty: Index, payload: Index, p: &mut I) -> Result<Index, InternFault>
    requires ty_known { IsTy (I.known p.old) ty }
    requires payload_known { IsValue (I.known p.old) payload }
    ensures interns { Interns I.known I.home I.fulls p.old p.new (is_full result) }
    ensures agrees { IsInjective (I.known p.new) }
    ensures value { IfOk result (λ i. DenotesValue (I.known p.new) i (value.Good (ty_at (I.known p.old) ty) (value_at (I.known p.old) payload))) }
{
    intern_key(&Key::GoodValue { ty, payload }, p)
}

/// A struct or an array, by the list of its parts.
pub fn list_value<I: Interner>(ty: Index, parts: Index, p: &mut I) -> Result<Index, InternFault>
    requires ty_known { IsTy (I.known p.old) ty }
    requires parts_known { AreValues (I.known p.old) parts }
    ensures interns { Interns I.known I.home I.fulls p.old p.new (is_full result) }
    ensures agrees { IsInjective (I.known p.new) }
    ensures value { IfOk result (λ i. DenotesValue (I.known p.new) i (value.List (ty_at (I.known p.old) ty) (values_at (I.known p.old) parts))) }
{
    intern_key(&Key::ListValue { ty, parts }, p)
}

/// An array of `u8`, by the list of its bytes.
pub fn text_value<I: Interner>(ty: Index, bytes: Index, p: &mut I) -> Result<Index, InternFault>
    requires ty_known { IsTy (I.known p.old) ty }
    requires bytes_known { IsBytes (I.known p.old) bytes }
    ensures interns { Interns I.known I.home I.fulls p.old p.new (is_full result) }
    ensures agrees { IsInjective (I.known p.new) }
    ensures value { IfOk result (λ i. DenotesValue (I.known p.new) i (value.Text (ty_at (I.known p.old) ty) (bytes_at (I.known p.old) bytes))) }
{
    intern_key(&Key::TextValue { ty, bytes }, p)
}

/// A member of a union with its payload.
pub fn tagged_value<I: Interner>(
    ty: Index,
    name: Index,
    payload: Index,
    p: &mut I,
) -> Result<Index, InternFault>
    requires ty_known { IsTy (I.known p.old) ty }
    requires name_known { IsBytes (I.known p.old) name }
    requires payload_known { IsValue (I.known p.old) payload }
    ensures interns { Interns I.known I.home I.fulls p.old p.new (is_full result) }
    ensures agrees { IsInjective (I.known p.new) }
    ensures value { IfOk result (λ i. DenotesValue (I.known p.new) i (value.Tagged (ty_at (I.known p.old) ty) (bytes_at (I.known p.old) name) (value_at (I.known p.old) payload))) }
{
    intern_key(&Key::TaggedValue { ty, name, payload }, p)
}

/// A type as a value.
pub fn type_value<I: Interner>(of: Index, p: &mut I) -> Result<Index, InternFault>
    requires { IsTy (I.known p.old) of }
    ensures interns { Interns I.known I.home I.fulls p.old p.new (is_full result) }
    ensures agrees { IsInjective (I.known p.new) }
    ensures value { IfOk result (λ i. DenotesValue (I.known p.new) i (value.OfType (ty_at (I.known p.old) of))) }
{
    intern_key(&Key::TypeValue { of }, p)
}

/// A function, by its declaration alone.
pub fn function_value<I: Interner>(decl: Index, p: &mut I) -> Result<Index, InternFault>
    requires { IsDecl (I.known p.old) decl }
    ensures interns { Interns I.known I.home I.fulls p.old p.new (is_full result) }
    ensures agrees { IsInjective (I.known p.new) }
    ensures value { IfOk result (λ i. DenotesValue (I.known p.new) i (value.Function (decl_at (I.known p.old) decl))) }
{
    intern_key(&Key::FunctionValue { decl }, p)
}

/// The address of a declaration.
pub fn address_value<I: Interner>(ty: Index, decl: Index, p: &mut I) -> Result<Index, InternFault>
    requires ty_known { IsTy (I.known p.old) ty }
    requires decl_known { IsDecl (I.known p.old) decl }
    ensures interns { Interns I.known I.home I.fulls p.old p.new (is_full result) }
    ensures agrees { IsInjective (I.known p.new) }
    ensures value { IfOk result (λ i. DenotesValue (I.known p.new) i (value.Address (ty_at (I.known p.old) ty) (decl_at (I.known p.old) decl))) }
{
    intern_key(&Key::AddressValue { ty, decl }, p)
}

/// The address of a constant.
pub fn constant_value<I: Interner>(
    ty: Index,
    target: Index,
    p: &mut I,
) -> Result<Index, InternFault>
    requires ty_known { IsTy (I.known p.old) ty }
    requires target_known { IsValue (I.known p.old) target }
    ensures interns { Interns I.known I.home I.fulls p.old p.new (is_full result) }
    ensures agrees { IsInjective (I.known p.new) }
    ensures value { IfOk result (λ i. DenotesValue (I.known p.new) i (value.Constant (ty_at (I.known p.old) ty) (value_at (I.known p.old) target))) }
{
    intern_key(&Key::ConstantValue { ty, target }, p)
}

/// The address of a place in comptime memory, by its number.
pub fn place_value<I: Interner>(ty: Index, place: u64, p: &mut I) -> Result<Index, InternFault>
    requires { IsTy (I.known p.old) ty }
    ensures interns { Interns I.known I.home I.fulls p.old p.new (is_full result) }
    ensures agrees { IsInjective (I.known p.new) }
    ensures value { IfOk result (λ i. DenotesValue (I.known p.new) i (value.Place (ty_at (I.known p.old) ty) place)) }
{
    intern_key(&Key::PlaceValue { ty, place }, p)
}

/// The address of a part of what another address in comptime memory points to: which part it is,
/// from 0, and of how many.
pub fn part_value<I: Interner>(
    ty: Index,
    whole: Index,
    part: u64,
    count: u64,
    p: &mut I,
) -> Result<Index, InternFault>
    requires ty_known { IsTy (I.known p.old) ty }
    requires whole_known { IsValue (I.known p.old) whole }
    ensures interns { Interns I.known I.home I.fulls p.old p.new (is_full result) }
    ensures agrees { IsInjective (I.known p.new) }
    ensures value { IfOk result (λ i. DenotesValue (I.known p.new) i (value.Part (ty_at (I.known p.old) ty) (value_at (I.known p.old) whole) part count)) }
{
    intern_key(
        &Key::PartValue {
            ty,
            whole,
            part,
            count,
        },
        p,
    )
}

/// A slice of what a pointer points to.
pub fn slice_value<I: Interner>(
    ty: Index,
    pointer: Index,
    low: u64,
    high: u64,
    p: &mut I,
) -> Result<Index, InternFault>
    requires ty_known { IsTy (I.known p.old) ty }
    requires pointer_known { IsValue (I.known p.old) pointer }
    ensures interns { Interns I.known I.home I.fulls p.old p.new (is_full result) }
    ensures agrees { IsInjective (I.known p.new) }
    ensures value { IfOk result (λ i. DenotesValue (I.known p.new) i (value.Slice (ty_at (I.known p.old) ty) (value_at (I.known p.old) pointer) low high)) }
{
    intern_key(
        &Key::SliceValue {
            ty,
            pointer,
            low,
            high,
        },
        p,
    )
}

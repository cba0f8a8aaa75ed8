// One call for each kind of declaration and of argument, and one for instances.
ghost use Rattle.std.specs.Prelude.{IfOk};
ghost use Rattle.type_form.specs.Known.{Known, IsInjective};
ghost use Rattle.type_form.specs.Means.{AreArgs, DenotesArg, DenotesDecl, DenotesInstance, IsBytes, IsDecl, IsTy, IsValue, args_at, bytes_at, decl_at, ty_at, value_at};
ghost use Rattle.type_form.specs.Pool.{Interns, is_full};
ghost use Rattle.type_form.specs.declared.tree.Arg.TheVariants as arg;
ghost use Rattle.type_form.specs.declared.tree.DeclPath.TheVariants as decl;

use crate::intern::intern_key;
use type_form::{Index, InternFault, Interner, Key};

/// A declaration, by its container's type and the list of its name's bytes.
pub fn named_decl<I: Interner>(
    container: Index,
    name: Index,
    p: &mut I,
) -> Result<Index, InternFault>
    requires container_known { IsTy (I.known p.old) container }
    requires name_known { IsBytes (I.known p.old) name }
    ensures interns { Interns I.known I.home I.fulls p.old p.new (is_full result) }
    ensures agrees { IsInjective (I.known p.new) }
    ensures decl { IfOk result (λ i. DenotesDecl (I.known p.new) i (decl.Named (ty_at (I.known p.old) container) (bytes_at (I.known p.old) name))) }
{
    intern_key(&Key::NamedDecl { container, name }, p)
}

/// A top-level `comptime` block, by the list of its file's path's bytes and its number.
pub fn comptime_decl<I: Interner>(file: Index, number: u32, p: &mut I) -> Result<Index, InternFault>
    requires { IsBytes (I.known p.old) file }
    ensures interns { Interns I.known I.home I.fulls p.old p.new (is_full result) }
    ensures agrees { IsInjective (I.known p.new) }
    ensures decl { IfOk result (λ i. DenotesDecl (I.known p.new) i (decl.Comptime (bytes_at (I.known p.old) file) number)) }
{
    intern_key(&Key::ComptimeDecl { file, number }, p)
}

/// An argument that is a value.
pub fn known_arg<I: Interner>(value: Index, p: &mut I) -> Result<Index, InternFault>
    requires { IsValue (I.known p.old) value }
    ensures interns { Interns I.known I.home I.fulls p.old p.new (is_full result) }
    ensures agrees { IsInjective (I.known p.new) }
    ensures arg { IfOk result (λ i. DenotesArg (I.known p.new) i (arg.Known (value_at (I.known p.old) value))) }
{
    intern_key(&Key::KnownArg { value }, p)
}

/// An argument that is a function, by its type and its declaration.
pub fn function_arg<I: Interner>(ty: Index, decl: Index, p: &mut I) -> Result<Index, InternFault>
    requires ty_known { IsTy (I.known p.old) ty }
    requires decl_known { IsDecl (I.known p.old) decl }
    ensures interns { Interns I.known I.home I.fulls p.old p.new (is_full result) }
    ensures agrees { IsInjective (I.known p.new) }
    ensures arg { IfOk result (λ i. DenotesArg (I.known p.new) i (arg.Function (ty_at (I.known p.old) ty) (decl_at (I.known p.old) decl))) }
{
    intern_key(&Key::FunctionArg { ty, decl }, p)
}

/// An argument that is a type alone.
pub fn typed_arg<I: Interner>(ty: Index, p: &mut I) -> Result<Index, InternFault>
    requires { IsTy (I.known p.old) ty }
    ensures interns { Interns I.known I.home I.fulls p.old p.new (is_full result) }
    ensures agrees { IsInjective (I.known p.new) }
    ensures arg { IfOk result (λ i. DenotesArg (I.known p.new) i (arg.Typed (ty_at (I.known p.old) ty))) }
{
    intern_key(&Key::TypedArg { ty }, p)
}

/// An instance, by its declaration and the list of its arguments.
pub fn instance<I: Interner>(decl: Index, args: Index, p: &mut I) -> Result<Index, InternFault>
    requires decl_known { IsDecl (I.known p.old) decl }
    requires args_known { AreArgs (I.known p.old) args }
    ensures interns { Interns I.known I.home I.fulls p.old p.new (is_full result) }
    ensures agrees { IsInjective (I.known p.new) }
    ensures instance { IfOk result (λ i. DenotesInstance (I.known p.new) i (record { decl = (decl_at (I.known p.old) decl); args = (args_at (I.known p.old) args) })) }
{
    intern_key(&Key::Instance { decl, args }, p)
}

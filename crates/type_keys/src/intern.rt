// Keys that an interner takes.
ghost use Rattle.std.specs.Prelude.{ℕ, List, IfOk};
ghost use Rattle.type_form.specs.declared.tree.Ty.{Ty};
ghost use Rattle.type_form.specs.declared.tree.Value.{Value};
ghost use Rattle.type_form.specs.declared.tree.DeclPath.{DeclPath};
ghost use Rattle.type_form.specs.declared.tree.Arg.{Arg};
ghost use Rattle.type_form.specs.declared.unit.Instance.{Instance};
ghost use Rattle.type_form.specs.Known.{Known, IsInjective};
ghost use Rattle.type_form.specs.Means.{HasKey, DenotesTy, IsTyOf, DenotesValue, IsValueOf, DenotesDecl, IsDeclOf, DenotesArg, IsArgOf, DenotesInstance, IsInstanceOf, DenotesList, IsListOf};
ghost use Rattle.type_form.specs.Pool.{Interns, is_full};

use crate::words::words_of;
use type_form::{Index, InternFault, Interner, Key, KeyBuf};

/// The index of a key. It denotes the tree that the key stands for.
pub fn intern_key<I: Interner>(key: &Key, p: &mut I) -> Result<Index, InternFault>
    ensures interns { Interns I.known I.home I.fulls p.old p.new (is_full result) }
    ensures agrees { IsInjective (I.known p.new) }
    ensures key { IfOk result (λ i. HasKey (I.known p.new) i key.now) }
    ensures ty { IfOk result (λ i. (x : Ty) → IsTyOf (I.known p.old) key.now x → DenotesTy (I.known p.new) i x) }
    ensures value { IfOk result (λ i. (x : Value) → IsValueOf (I.known p.old) key.now x → DenotesValue (I.known p.new) i x) }
    ensures decl { IfOk result (λ i. (x : DeclPath) → IsDeclOf (I.known p.old) key.now x → DenotesDecl (I.known p.new) i x) }
    ensures arg { IfOk result (λ i. (x : Arg) → IsArgOf (I.known p.old) key.now x → DenotesArg (I.known p.new) i x) }
    ensures instance { IfOk result (λ i. (x : Instance) → IsInstanceOf (I.known p.old) key.now x → DenotesInstance (I.known p.new) i x) }
    ensures list { IfOk result (λ i. (x : List ℕ) → IsListOf (I.known p.old) key.now x → DenotesList (I.known p.new) i x) }
{
    let mut words = KeyBuf::new();
    words_of(key, &mut words);
    p.intern(words.as_slice())
}

// What an index stands for, one layer at a time.
ghost use Rattle.std.specs.Prelude.{◌≡◌, ◌∷◌, [], IsSome};
ghost use Rattle.type_form.specs.Known.{Known, words_at, key_at, IsInjective};
ghost use Rattle.type_form.specs.Means.{HasKey, IsTy, ty_at, IsTyOf, IsValue, value_at, IsValueOf, IsDecl, decl_at, IsDeclOf, IsArg, arg_at, IsArgOf, IsInstance, instance_at, IsInstanceOf, IsList, list_at, IsListOf};
ghost use Rattle.type_form.specs.Pool.{Reads};
ghost use Rattle.type_form.specs.Layers.{layer_at, value_layer_at, decl_layer_at, arg_layer_at};
ghost use Rattle.type_form.specs.declared.tree.Arg.TheViews.{out-Ty, out-Value, out-DeclPath, out-Arg};

use crate::words::key_of;
use type_form::{Index, Key, KeyBuf, Keys};

/// The key at an index that has one. Takes no memory.
pub fn key_behind<P: Keys>(i: Index, p: &mut P) -> Key
    requires { IsSome (key_at (P.known p.old) i) }
    ensures reads { Reads P.known P.home P.fulls p.old p.new }
    ensures agrees { IsInjective (P.known p.new) }
    ensures key { HasKey (P.known p.old) i result }
{
    let mut words = KeyBuf::new();
    p.key_into(i, &mut words);
    match key_of(words.as_slice()) {
        Ok(key) => key,
        Err(_) => unreachable!(),
    }
}

/// The key of a type: its layer, with the indices of its parts. Takes no memory.
pub fn ty_key<P: Keys>(i: Index, p: &mut P) -> Key
    requires { IsTy (P.known p.old) i }
    ensures reads { Reads P.known P.home P.fulls p.old p.new }
    ensures agrees { IsInjective (P.known p.new) }
    ensures key { HasKey (P.known p.old) i result }
    ensures ty { IsTyOf (P.known p.old) result (ty_at (P.known p.old) i) }
    ensures layer { out-Ty (ty_at (P.known p.old) i) ≡ layer_at (P.known p.old) result }
{
    key_behind(i, p)
}

/// The key of a value: its layer, with the indices of its parts. Takes no memory.
pub fn value_key<P: Keys>(i: Index, p: &mut P) -> Key
    requires { IsValue (P.known p.old) i }
    ensures reads { Reads P.known P.home P.fulls p.old p.new }
    ensures agrees { IsInjective (P.known p.new) }
    ensures key { HasKey (P.known p.old) i result }
    ensures value { IsValueOf (P.known p.old) result (value_at (P.known p.old) i) }
    ensures layer { out-Value (value_at (P.known p.old) i) ≡ value_layer_at (P.known p.old) result }
{
    key_behind(i, p)
}

/// The key of a declaration: its layer, with the indices of its parts. Takes no memory.
pub fn decl_key<P: Keys>(i: Index, p: &mut P) -> Key
    requires { IsDecl (P.known p.old) i }
    ensures reads { Reads P.known P.home P.fulls p.old p.new }
    ensures agrees { IsInjective (P.known p.new) }
    ensures key { HasKey (P.known p.old) i result }
    ensures decl { IsDeclOf (P.known p.old) result (decl_at (P.known p.old) i) }
    ensures layer { out-DeclPath (decl_at (P.known p.old) i) ≡ decl_layer_at (P.known p.old) result }
{
    key_behind(i, p)
}

/// The key of an argument: its layer, with the indices of its parts. Takes no memory.
pub fn arg_key<P: Keys>(i: Index, p: &mut P) -> Key
    requires { IsArg (P.known p.old) i }
    ensures reads { Reads P.known P.home P.fulls p.old p.new }
    ensures agrees { IsInjective (P.known p.new) }
    ensures key { HasKey (P.known p.old) i result }
    ensures arg { IsArgOf (P.known p.old) result (arg_at (P.known p.old) i) }
    ensures layer { out-Arg (arg_at (P.known p.old) i) ≡ arg_layer_at (P.known p.old) result }
{
    key_behind(i, p)
}

/// The key of an instance: its layer, with the indices of its parts. Takes no memory.
pub fn instance_key<P: Keys>(i: Index, p: &mut P) -> Key
    requires { IsInstance (P.known p.old) i }
    ensures reads { Reads P.known P.home P.fulls p.old p.new }
    ensures agrees { IsInjective (P.known p.new) }
    ensures key { HasKey (P.known p.old) i result }
    ensures instance { IsInstanceOf (P.known p.old) result (instance_at (P.known p.old) i) }
{
    key_behind(i, p)
}

/// The key of a list of numbers: its layer, with the indices of its parts. Takes no memory.
pub fn list_key<P: Keys>(i: Index, p: &mut P) -> Key
    requires { IsList (P.known p.old) i }
    ensures reads { Reads P.known P.home P.fulls p.old p.new }
    ensures agrees { IsInjective (P.known p.new) }
    ensures key { HasKey (P.known p.old) i result }
    ensures list { IsListOf (P.known p.old) result (list_at (P.known p.old) i) }
{
    key_behind(i, p)
}

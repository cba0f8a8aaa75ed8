// Spellings of every kind of tree, computed by hand.
use crate::{
    Arg, DeclPath, Instance, SimpleTy, SimpleValue, SpellFault, Ty, Unit, Value, spell_unit,
    spelled_len, unit_len,
};
use sqlite_items::{Boxed, Items};
use std::alloc::{AllocError, Global};
use std::test::Fail;
use zw_base::{Bytes, Seq};
use zw_bytes::ByteBuf;

fn bytes(alloc: Global, text: &[u8]) -> Result<Bytes, AllocError> {
    Ok(Bytes::of(Vec::from_slice(alloc, text)?))
}

/// `m.zig:f`.
fn decl(alloc: Global) -> Result<DeclPath, AllocError> {
    let container = Boxed::new(alloc, Ty::File(bytes(alloc, b"m.zig")?))?;
    Ok(DeclPath::Named {
        container,
        name: bytes(alloc, b"f")?,
    })
}

fn simple(alloc: Global, ty: SimpleTy) -> Result<Boxed<Ty>, AllocError> {
    Boxed::new(alloc, Ty::Simple(ty))
}

/// The spelling of a unit, whose length is the one that is counted.
fn spelled(alloc: Global, unit: Unit) -> Result<Vec<u8>, Fail> {
    let mut text = ByteBuf::with_room(alloc, 0)?;
    spell_unit(alloc, &unit, &mut text)?;
    Ok(text.into_vec())
}

/// `body m.zig:f(ARG)`.
fn with_arg(alloc: Global, arg: Arg) -> Result<Vec<u8>, Fail> {
    let mut args = Items::new(alloc);
    args.push(arg)?;
    let instance = Instance {
        decl: decl(alloc)?,
        args,
    };
    spelled(alloc, Unit::Body(instance))
}

fn typed(alloc: Global, ty: Ty) -> Result<Vec<u8>, Fail> {
    with_arg(alloc, Arg::Typed(ty))
}

fn known(alloc: Global, value: Value) -> Result<Vec<u8>, Fail> {
    with_arg(alloc, Arg::Known(value))
}

fn int(is_signed: bool, bits: u32) -> Ty {
    Ty::Int { is_signed, bits }
}

#[test]
fn simple_types(rt: HostRuntime) -> Result<(), Fail> {
    let a = rt.alloc();
    assert_eq!(rt;
        typed(a, int(false, 8))?.as_slice(),
        b"body m.zig:f(u8)".as_slice()
    );
    assert_eq!(rt;
        typed(a, int(true, 64))?.as_slice(),
        b"body m.zig:f(i64)".as_slice()
    );
    assert_eq!(rt;
        typed(a, Ty::Simple(SimpleTy::Usize))?.as_slice(),
        b"body m.zig:f(usize)".as_slice()
    );
    assert_eq!(rt;
        typed(a, Ty::Simple(SimpleTy::Metatype))?.as_slice(),
        b"body m.zig:f(type)".as_slice()
    );
    assert_eq!(rt;
        typed(a, Ty::Simple(SimpleTy::NullLiteral))?.as_slice(),
        b"body m.zig:f(@null)".as_slice()
    );
    assert_eq!(rt;
        typed(a, Ty::Simple(SimpleTy::EnumLiteral))?.as_slice(),
        b"body m.zig:f(@literal)".as_slice()
    );
    assert_eq!(rt;
        typed(a, Ty::Simple(SimpleTy::GenericFunction))?.as_slice(),
        b"body m.zig:f(fn(generic))".as_slice()
    );
    assert_eq!(rt;
        typed(a, Ty::File(bytes(a, b"m.zig")?))?.as_slice(),
        b"body m.zig:f(@:m.zig)".as_slice()
    );
    Ok(())
}

#[test]
fn types_of_types(rt: HostRuntime) -> Result<(), Fail> {
    let a = rt.alloc();
    let child = simple(a, SimpleTy::Bool)?;
    let ty = Ty::Pointer {
        is_const: true,
        child,
    };
    assert_eq!(rt;
        typed(a, ty)?.as_slice(),
        b"body m.zig:f(*const bool)".as_slice()
    );
    let child = simple(a, SimpleTy::Void)?;
    let ty = Ty::Slice {
        is_const: false,
        child,
    };
    assert_eq!(rt;
        typed(a, ty)?.as_slice(),
        b"body m.zig:f([]void)".as_slice()
    );
    let child = simple(a, SimpleTy::Isize)?;
    let ty = Ty::Array { length: 120, child };
    assert_eq!(rt;
        typed(a, ty)?.as_slice(),
        b"body m.zig:f([120]isize)".as_slice()
    );
    let ty = Ty::Terminated { length: 5 };
    assert_eq!(rt;
        typed(a, ty)?.as_slice(),
        b"body m.zig:f([5:0]u8)".as_slice()
    );
    let set = Boxed::new(a, error_set(a)?)?;
    let payload = Boxed::new(a, Ty::Optional(simple(a, SimpleTy::Bool)?))?;
    let ty = Ty::ErrorUnion { set, payload };
    assert_eq!(rt;
        typed(a, ty)?.as_slice(),
        b"body m.zig:f(error{A,@\"b\\x2dc\"}!?bool)".as_slice()
    );
    Ok(())
}

/// `error{A,@"b\x2dc"}`.
fn error_set(a: Global) -> Result<Ty, AllocError> {
    let mut names = Vec::new(a);
    names.push(bytes(a, b"A")?)?;
    names.push(bytes(a, b"b-c")?)?;
    Ok(Ty::ErrorSet(Seq::of(names)))
}

/// `fn(u8,type)void`.
fn function(a: Global) -> Result<Ty, AllocError> {
    let mut params = Items::new(a);
    params.push(int(false, 8))?;
    params.push(Ty::Simple(SimpleTy::Metatype))?;
    Ok(Ty::Function {
        params,
        result: simple(a, SimpleTy::Void)?,
    })
}

/// `m.zig:f#1`, and the same with `(u8=7,bool)` behind it.
fn container(a: Global, captures: bool) -> Result<Ty, AllocError> {
    let mut held = Items::new(a);
    if captures {
        let seven = Value::Int {
            ty: int(false, 8),
            number: 7,
        };
        held.push(Arg::Known(seven))?;
        held.push(Arg::Typed(Ty::Simple(SimpleTy::Bool)))?;
    }
    Ok(Ty::Container {
        decl: Boxed::new(a, decl(a)?)?,
        ordinal: 1,
        captures: held,
    })
}

#[test]
fn containers_and_functions(rt: HostRuntime) -> Result<(), Fail> {
    let a = rt.alloc();
    assert_eq!(rt;
        typed(a, function(a)?)?.as_slice(),
        b"body m.zig:f(fn(u8,type)void)".as_slice()
    );
    assert_eq!(rt;
        spelled(a, Unit::Fields(container(a, false)?))?.as_slice(),
        b"fields m.zig:f#1".as_slice()
    );
    assert_eq!(rt;
        spelled(a, Unit::Fields(container(a, true)?))?.as_slice(),
        b"fields m.zig:f#1(u8=7,bool)".as_slice()
    );
    let file = Ty::File(bytes(a, b"d/m.zig")?);
    assert_eq!(rt;
        spelled(a, Unit::Fields(file))?.as_slice(),
        b"fields d/m.zig".as_slice()
    );
    Ok(())
}

#[test]
fn units(rt: HostRuntime) -> Result<(), Fail> {
    let a = rt.alloc();
    assert_eq!(rt;
        spelled(a, Unit::Decl(decl(a)?))?.as_slice(),
        b"decl m.zig:f".as_slice()
    );
    let member = DeclPath::Named {
        container: Boxed::new(a, container(a, false)?)?,
        name: bytes(a, b"g")?,
    };
    assert_eq!(rt;
        spelled(a, Unit::Decl(member))?.as_slice(),
        b"decl m.zig:f#1.g".as_slice()
    );
    let block = DeclPath::Comptime {
        file: bytes(a, b"m.zig")?,
        number: 12,
    };
    assert_eq!(rt;
        spelled(a, Unit::Decl(block))?.as_slice(),
        b"decl m.zig:comptime 12".as_slice()
    );
    let instance = Instance {
        decl: decl(a)?,
        args: Items::new(a),
    };
    assert_eq!(rt;
        spelled(a, Unit::ErrorSet(instance))?.as_slice(),
        b"errset m.zig:f()".as_slice()
    );
    let instance = Instance {
        decl: decl(a)?,
        args: Items::new(a),
    };
    assert_eq!(rt;
        spelled(a, Unit::Code(instance))?.as_slice(),
        b"code m.zig:f()".as_slice()
    );
    let block = Unit::Comptime {
        file: bytes(a, b"m.zig")?,
        number: 3,
    };
    assert_eq!(rt;
        spelled(a, block)?.as_slice(),
        b"comptime m.zig#3".as_slice()
    );
    Ok(())
}

#[test]
fn plain_values(rt: HostRuntime) -> Result<(), Fail> {
    let a = rt.alloc();
    let ty = Ty::Simple(SimpleTy::ComptimeInt);
    let value = Value::Int {
        ty,
        number: -170141183460469231731687303715884105728,
    };
    assert_eq!(rt;
        known(a, value)?.as_slice(),
        b"body m.zig:f(comptime_int=-170141183460469231731687303715884105728)".as_slice()
    );
    let value = Value::Simple {
        ty: Ty::Simple(SimpleTy::Void),
        value: SimpleValue::Void,
    };
    assert_eq!(rt;
        known(a, value)?.as_slice(),
        b"body m.zig:f(void={})".as_slice()
    );
    let value = Value::Tag {
        ty: Ty::Simple(SimpleTy::EnumLiteral),
        name: bytes(a, b"x")?,
    };
    assert_eq!(rt;
        known(a, value)?.as_slice(),
        b"body m.zig:f(@literal=.x)".as_slice()
    );
    let value = Value::Error {
        ty: Ty::Simple(SimpleTy::AnyError),
        name: bytes(a, b"Bad")?,
    };
    assert_eq!(rt;
        known(a, value)?.as_slice(),
        b"body m.zig:f(anyerror=error.Bad)".as_slice()
    );
    let ty = Ty::Simple(SimpleTy::AnyError);
    let value = Value::Error {
        ty,
        name: bytes(a, b"while")?,
    };
    assert_eq!(rt;
        known(a, value)?.as_slice(),
        b"body m.zig:f(anyerror=error.@\"while\")".as_slice()
    );
    let value = Value::OfType(int(false, 1));
    assert_eq!(rt;
        known(a, value)?.as_slice(),
        b"body m.zig:f(type=u1)".as_slice()
    );
    let value = Value::Text {
        ty: Ty::Terminated { length: 3 },
        bytes: bytes(a, b"a \xff")?,
    };
    assert_eq!(rt;
        known(a, value)?.as_slice(),
        b"body m.zig:f([3:0]u8=\"a\\x20\\xff\")".as_slice()
    );
    Ok(())
}

fn one(number: i128) -> Value {
    Value::Int {
        ty: int(false, 8),
        number,
    }
}

#[test]
fn values_of_values(rt: HostRuntime) -> Result<(), Fail> {
    let a = rt.alloc();
    let ty = Ty::Optional(Boxed::new(a, int(false, 8))?);
    let value = Value::Some {
        ty,
        payload: Boxed::new(a, one(1))?,
    };
    assert_eq!(rt;
        known(a, value)?.as_slice(),
        b"body m.zig:f(?u8=?1)".as_slice()
    );
    let set = simple(a, SimpleTy::AnyError)?;
    let ty = Ty::ErrorUnion {
        set,
        payload: Boxed::new(a, int(false, 8))?,
    };
    let value = Value::Good {
        ty,
        payload: Boxed::new(a, one(2))?,
    };
    assert_eq!(rt;
        known(a, value)?.as_slice(),
        b"body m.zig:f(anyerror!u8=!2)".as_slice()
    );
    let mut parts = Items::new(a);
    parts.push(one(3))?;
    parts.push(one(4))?;
    let value = Value::List {
        ty: container(a, false)?,
        parts,
    };
    assert_eq!(rt;
        known(a, value)?.as_slice(),
        b"body m.zig:f(m.zig:f#1={3,4})".as_slice()
    );
    let payload = Boxed::new(a, one(5))?;
    let value = Value::Tagged {
        ty: container(a, false)?,
        name: bytes(a, b"t")?,
        payload,
    };
    assert_eq!(rt;
        known(a, value)?.as_slice(),
        b"body m.zig:f(m.zig:f#1=.t{5})".as_slice()
    );
    Ok(())
}

#[test]
fn union_without_a_payload(rt: HostRuntime) -> Result<(), Fail> {
    let a = rt.alloc();
    let nothing = Value::Simple {
        ty: Ty::Simple(SimpleTy::Void),
        value: SimpleValue::Void,
    };
    let payload = Boxed::new(a, nothing)?;
    let value = Value::Tagged {
        ty: container(a, false)?,
        name: bytes(a, b"t")?,
        payload,
    };
    assert_eq!(rt;
        known(a, value)?.as_slice(),
        b"body m.zig:f(m.zig:f#1=.t{{}})".as_slice()
    );
    let union_ty = Boxed::new(a, container(a, false)?)?;
    let value = Value::Tag {
        ty: Ty::UnionTag(union_ty),
        name: bytes(a, b"t")?,
    };
    assert_eq!(rt;
        known(a, value)?.as_slice(),
        b"body m.zig:f(@tag(m.zig:f#1)=.t)".as_slice()
    );
    Ok(())
}

#[test]
fn addresses(rt: HostRuntime) -> Result<(), Fail> {
    let a = rt.alloc();
    let arg = Arg::Function {
        ty: function(a)?,
        decl: decl(a)?,
    };
    assert_eq!(rt;
        with_arg(a, arg)?.as_slice(),
        b"body m.zig:f(fn(u8,type)void=m.zig:f)".as_slice()
    );
    let ty = Ty::Pointer {
        is_const: false,
        child: Boxed::new(a, int(false, 8))?,
    };
    let value = Value::Address { ty, decl: decl(a)? };
    assert_eq!(rt;
        known(a, value)?.as_slice(),
        b"body m.zig:f(*u8=&m.zig:f)".as_slice()
    );
    Ok(())
}

/// `&(u8=6)`, a pointer to a constant.
fn pointer_to_six(alloc: Global) -> Result<Boxed<Value>, AllocError> {
    let child = Boxed::new(alloc, int(false, 8))?;
    let target = Boxed::new(alloc, one(6))?;
    let ty = Ty::Pointer {
        is_const: true,
        child,
    };
    Boxed::new(alloc, Value::Constant { ty, target })
}

/// `[]const u8`.
fn slice_of_bytes(alloc: Global) -> Result<Ty, AllocError> {
    let child = Boxed::new(alloc, int(false, 8))?;
    Ok(Ty::Slice {
        is_const: true,
        child,
    })
}

#[test]
fn slice_of_a_constant(rt: HostRuntime) -> Result<(), Fail> {
    let a = rt.alloc();
    let value = Value::Slice {
        ty: slice_of_bytes(a)?,
        pointer: pointer_to_six(a)?,
        low: 0,
        high: 1,
    };
    assert_eq!(rt;
        known(a, value)?.as_slice(),
        b"body m.zig:f([]const u8=&(u8=6)[0..1])".as_slice()
    );
    Ok(())
}

#[test]
fn longest(rt: HostRuntime) -> Result<(), Fail> {
    let a = rt.alloc();
    let path = Bytes::of(vec![in a; 97u8; 4089]?);
    let unit = Unit::Fields(Ty::File(path));
    assert_eq!(rt; unit_len(&unit), 4096);
    assert_eq!(rt; spelled(a, unit)?.len(), 4096);
    let unit = Unit::Fields(Ty::File(Bytes::of(vec![in a; 97u8; 4090]?)));
    assert_eq!(rt; unit_len(&unit), 4097);
    let mut text = ByteBuf::with_room(a, 0)?;
    assert_eq!(rt; spell_unit(a, &unit, &mut text), Err(SpellFault::TooLong));
    let ty = Ty::File(Bytes::of(vec![in a; 97u8; 9000]?));
    assert_eq!(rt; spelled_len(&ty), 4097);
    Ok(())
}

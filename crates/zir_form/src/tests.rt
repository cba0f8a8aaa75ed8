// Names as they are written in several ways, primitives, and what a Zir answers.
use crate::{
    Builtin, BuiltinFn, ContainerRef, ContainerRow, DeclarationRow, Form, Lines, NameRef, Names,
    Part, PartRef, Primitive, Zir, builtin_fn, name_of, primitive_of,
};
use std::test::Fail;
use zig_tree::{Token, TokenKind};
use zw_base::{Bytes, Seq, Span};

fn token(kind: TokenKind, start: u32, end: u32) -> Token {
    Token {
        kind,
        span: Span { start, end },
    }
}

#[test]
fn escapes(rt: HostRuntime) -> Result<(), Fail> {
    let text = b"a @\"a\" @\"\\x61\" @\"\\u{0061}\\u{e9}\\n\\\"\"";
    let plain = name_of(rt.alloc(), text, &token(TokenKind::Identifier, 0, 1))?;
    assert_eq!(rt; plain.as_slice(), b"a".as_slice());
    let quoted = name_of(rt.alloc(), text, &token(TokenKind::Identifier, 2, 6))?;
    assert_eq!(rt; quoted.as_slice(), b"a".as_slice());
    let pair = name_of(rt.alloc(), text, &token(TokenKind::Identifier, 7, 14))?;
    assert_eq!(rt; pair.as_slice(), b"a".as_slice());
    let code = name_of(rt.alloc(), text, &token(TokenKind::Identifier, 15, 38))?;
    assert_eq!(rt; code.as_slice(), [b'a', 0xC3, 0xA9, b'\n', b'"'].as_slice());
    let outside = name_of(rt.alloc(), text, &token(TokenKind::Identifier, 90, 95))?;
    assert_eq!(rt; outside.len(), 0);
    Ok(())
}

#[test]
fn first_tokens(rt: HostRuntime) -> Result<(), Fail> {
    let text = b"b const a @\"a\" b _ \"a\"";
    let tokens = [
        token(TokenKind::Identifier, 0, 1),
        token(TokenKind::KeywordConst, 2, 7),
        token(TokenKind::Identifier, 8, 9),
        token(TokenKind::Identifier, 10, 14),
        token(TokenKind::Identifier, 15, 16),
        token(TokenKind::Underscore, 17, 18),
        token(TokenKind::Str, 19, 22),
    ];
    let names = Names::of(rt.alloc(), text, &tokens)?;
    assert_eq!(rt; names.len(), 7);
    let wanted = [0, 1, 2, 2, 0, 5, 6, 7];
    for i in 0..8u32 {
        assert_eq!(rt; names.first(i), wanted[i as usize]);
    }
    Ok(())
}

#[test]
fn primitives(rt: HostRuntime) -> Result<(), Fail> {
    assert_eq!(rt; primitive_of(b"u1"), Some(Primitive::Unsigned(1)));
    assert_eq!(rt; primitive_of(b"i64"), Some(Primitive::Signed(64)));
    assert_eq!(rt; primitive_of(b"u65"), None);
    assert_eq!(rt; primitive_of(b"u0"), None);
    assert_eq!(rt; primitive_of(b"u08"), None);
    assert_eq!(rt; primitive_of(b"u"), None);
    assert_eq!(rt; primitive_of(b"usize"), Some(Primitive::Usize));
    assert_eq!(rt; primitive_of(b"comptime_int"), Some(Primitive::ComptimeInt));
    assert_eq!(rt; primitive_of(b"f32"), None);
    Ok(())
}

fn declaration(rt: &HostRuntime, container: u32, token: u32) -> Result<DeclarationRow, Fail> {
    Ok(DeclarationRow {
        container,
        token,
        name: Bytes::of(Vec::from_slice(rt.alloc(), b"a")?),
        is_pub: container == 0,
        is_export: false,
        start: 20,
        name_start: 26,
        containers: Seq::of(Vec::from_slice(rt.alloc(), &[7, 9])?),
        head: None,
        whole: token,
        fingerprint: 0,
    })
}

#[test]
fn parts_and_names(rt: HostRuntime) -> Result<(), Fail> {
    let mut lines = Lines::new(rt.alloc());
    let absent = lines.put(Form::Absent)?;
    let value = lines.put(Form::Integer {
        place: 10,
        value: 7,
    })?;
    let whole = lines.put(Form::Constant {
        name_place: 6,
        local: None,
        ty: absent,
        value,
    })?;
    assert_eq!(rt; whole, 2);
    let mut declarations = Vec::new(rt.alloc());
    declarations.push(declaration(&rt, 0, 2)?)?;
    declarations.push(declaration(&rt, 7, 1)?)?;
    let mut containers = Vec::new(rt.alloc());
    containers.push(ContainerRow {
        token: 7,
        start: 70,
        fields: 0,
        fingerprint: 0,
    })?;
    let blocks = Vec::new(rt.alloc());
    let imports = Vec::new(rt.alloc());
    let zir = Zir::of(rt.alloc(), lines, declarations, containers, blocks, imports)?;
    let name = b"a".as_slice();
    let inner = ContainerRef(7);
    assert_eq!(rt; zir.name_in(inner, name), Some(NameRef { is_pub: false }));
    assert_eq!(rt; zir.name_start(inner, name), Some(26));
    assert_eq!(rt; zir.name_in(ContainerRef(8), name).is_none(), true);
    assert_eq!(rt; zir.name_in(inner, b"b".as_slice()).is_none(), true);
    let part = Part::Whole {
        container: ContainerRef(0),
        name: Bytes::of(Vec::from_slice(rt.alloc(), name)?),
    };
    match zir.part(&part) {
        Some(PartRef { line }) => assert_eq!(rt; line, 2),
        None => assert_eq!(rt; 0, 1),
    }
    assert_eq!(rt; zir.part_start(&part), Some(20));
    assert_eq!(rt; zir.part(&Part::Block { number: 0 }).is_none(), true);
    assert_eq!(rt;
        zir.part(&Part::Fields { container: inner }).is_some(),
        true
    );
    assert_eq!(rt; zir.container_in(inner, name, 1), Some(ContainerRef(9)));
    assert_eq!(rt; zir.container_in(inner, name, 2), None);
    Ok(())
}

#[test]
fn builtins_have_their_arguments(rt: HostRuntime) -> Result<(), Fail> {
    let by = |builtin, parameters| {
        Some(BuiltinFn {
            builtin,
            parameters,
        })
    };
    assert_eq!(rt; builtin_fn(b"@as"), by(Builtin::As, 2));
    assert_eq!(rt; builtin_fn(b"@trap"), by(Builtin::Trap, 0));
    assert_eq!(rt; builtin_fn(b"@alignCast"), None);
    Ok(())
}

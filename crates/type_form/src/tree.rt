// The plain trees of types and values, as contracts and spellings read them.
use sqlite_items::{Boxed, Items};
use zw_base::{Bytes, Seq};

/// A type that is one word: the primitive types without a width, and those of literals.
#[derive(Clone, Copy, Debug, PartialEq, Eq)]
pub enum SimpleTy {
    /// `usize`: 32 bits, a type of its own.
    Usize,
    /// `isize`: 32 bits, a type of its own.
    Isize,
    /// `bool`.
    Bool,
    /// `void`.
    Void,
    /// `noreturn`.
    Noreturn,
    /// `type`, the type of types.
    Metatype,
    /// `comptime_int`.
    ComptimeInt,
    /// `anyerror`.
    AnyError,
    /// The type of `null`.
    NullLiteral,
    /// The type of `undefined`.
    UndefinedLiteral,
    /// The type of `.name`.
    EnumLiteral,
    /// A function with a `comptime` or `anytype` parameter.
    GenericFunction,
}

/// A type (Zig Language Reference, Primitive Types and the chapters on each form).
#[cycle(tree)]
#[derive(Drop)]
pub enum Ty {
    Simple(SimpleTy),
    /// `u1` to `u64`, `i1` to `i64`.
    Int {
        is_signed: bool,
        bits: u32,
    },
    /// `error{A,B}`: the names, in byte order, each once.
    ErrorSet(Seq<Bytes>),
    /// `*T`, `*const T`.
    Pointer {
        is_const: bool,
        child: Boxed<Ty>,
    },
    /// `[]T`, `[]const T`.
    Slice {
        is_const: bool,
        child: Boxed<Ty>,
    },
    /// `[N]T`.
    Array {
        length: u64,
        child: Boxed<Ty>,
    },
    /// `[N:0]u8`, what a string literal points to.
    Terminated {
        length: u64,
    },
    /// `?T`.
    Optional(Boxed<Ty>),
    /// `E!T`.
    ErrorUnion {
        set: Boxed<Ty>,
        payload: Boxed<Ty>,
    },
    /// The struct without fields that a file is, by the file's path.
    File(Bytes),
    /// A struct, an enum or a union: the declaration whose text has it, which container
    /// expression it is there, from 0, and the values that it captures, in the order of their
    /// first mention in its text.
    Container {
        decl: Boxed<DeclPath>,
        ordinal: u32,
        captures: Items<Arg>,
    },
    /// `fn(P,Q)R`, with no parameter that is `comptime` or `anytype`.
    Function {
        params: Items<Ty>,
        result: Boxed<Ty>,
    },
    /// The own enum of a `union(enum)`, by the union.
    UnionTag(Boxed<Ty>),
}

/// A declaration, or a block at the top level of a file.
#[cycle(tree)]
#[derive(Drop)]
pub enum DeclPath {
    /// A declaration of a file or another container.
    Named { container: Boxed<Ty>, name: Bytes },
    /// The block `comptime { .. }` of this number in a file, from 0.
    Comptime { file: Bytes, number: u32 },
}

/// A value that is one word.
#[derive(Clone, Copy, Debug, PartialEq, Eq)]
pub enum SimpleValue {
    True,
    False,
    /// The value of `void`.
    Void,
    /// `null`, of an optional type or of its own.
    Null,
    /// `undefined`, of any type.
    Undefined,
}

/// A value that is known at comptime, with its type.
#[cycle(tree)]
#[derive(Drop)]
pub enum Value {
    Simple {
        ty: Ty,
        value: SimpleValue,
    },
    /// An integer.
    Int {
        ty: Ty,
        number: i128,
    },
    /// A member of an enum, or the literal `.name`.
    Tag {
        ty: Ty,
        name: Bytes,
    },
    /// An error, of an error set or an error union.
    Error {
        ty: Ty,
        name: Bytes,
    },
    /// An optional that is not null.
    Some {
        ty: Ty,
        payload: Boxed<Value>,
    },
    /// An error union that holds no error.
    Good {
        ty: Ty,
        payload: Boxed<Value>,
    },
    /// The fields of a struct, or the elements of an array.
    List {
        ty: Ty,
        parts: Items<Value>,
    },
    /// An array of `u8` whose elements are all known.
    Text {
        ty: Ty,
        bytes: Bytes,
    },
    /// A member of a union with its payload, which is the value of `void` where it has none.
    Tagged {
        ty: Ty,
        name: Bytes,
        payload: Boxed<Value>,
    },
    /// A type as a value.
    OfType(Ty),
    /// A function, by its declaration alone: its type is made from its head where it is asked for.
    Function(DeclPath),
    /// The address of a declaration.
    Address {
        ty: Ty,
        decl: DeclPath,
    },
    /// The address of a constant.
    Constant {
        ty: Ty,
        target: Boxed<Value>,
    },
    /// The address of a place in comptime memory, by its number. It is a value while its unit runs.
    Place {
        ty: Ty,
        place: u64,
    },
    /// The address of a part of what another address in comptime memory points to: which part it
    /// is, from 0, and of how many.
    Part {
        ty: Ty,
        whole: Boxed<Value>,
        part: u64,
        count: u64,
    },
    /// A slice: the elements from `low` to before `high` of what `pointer` points to.
    Slice {
        ty: Ty,
        pointer: Boxed<Value>,
        low: u64,
        high: u64,
    },
}

/// An argument of an instance, or what a container captures.
#[cycle(tree)]
#[derive(Drop)]
pub enum Arg {
    /// A comptime value that is no function.
    Known(Value),
    /// A function, with its type.
    Function { ty: Ty, decl: DeclPath },
    /// The type of an `anytype` argument whose value is no part of the instance.
    Typed(Ty),
}

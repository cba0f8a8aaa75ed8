// One layer of what an index stands for, with indices in place of its parts.
ghost use Rattle.std.specs.Prelude.{◌≡◌, ◌+◌, ◌<◌, [], ◌∷◌, ◌++◌, length, slice_index, ◌≤◌};
ghost use Rattle.type_form.specs.Means.{AreBytes};

use crate::index::Index;
use crate::tree::{SimpleTy, SimpleValue};
use std::marker::Model;

/// The words of a key, with room for 64.
#[derive(Drop)]
pub struct KeyBuf {
    words: [u64; 64],
    count: usize,
}

impl Model for KeyBuf {
    ghost use Rattle.std.specs.Prelude.{List, ℕ, take, ◌≤◌};

    ghost Value = { List ℕ };

    ghost view = { λ b. take b.count b.words };

    ghost invariant = { λ b. b.count ≤ 64 };
}

impl KeyBuf {
    /// No words. Takes no memory.
    pub fn new() -> KeyBuf
        ensures { result ≡ [] }
    {
        KeyBuf {
            words: [0; 64],
            count: 0,
        }
    }

    pub fn clear(&mut self)
        ensures { self.new ≡ [] }
    {
        self.count = 0;
    }

    pub fn len(&self) -> usize
        ensures value { result ≡ length self.now }
        ensures room { length self.now ≤ 64 }
    {
        self.count
    }

    /// Appends a word. Takes no memory.
    pub fn push(&mut self, word: u64)
        requires { length self.old < 64 }
        ensures { self.new ≡ self.old ++ word ∷ [] }
    {
        self.words[self.count] = word;
        self.count += 1;
    }

    /// Replaces the words. Takes no memory.
    pub fn set(&mut self, words: &[u64])
        requires { length words.now ≤ 64 }
        ensures { self.new ≡ words.now }
    {
        self.words[..words.len()].copy_from_slice(words);
        self.count = words.len();
    }

    /// Appends words. Takes no memory.
    pub fn append(&mut self, words: &[u64])
        requires { length self.old + length words.now ≤ 64 }
        ensures { self.new ≡ self.old ++ words.now }
    {
        let start = self.count;
        self.words[start..start + words.len()].copy_from_slice(words);
        self.count = start + words.len();
    }

    pub fn as_slice(&self) -> &[u64]
        ensures value { result.now ≡ self.now }
        ensures room { length self.now ≤ 64 }
    {
        &self.words[..self.count]
    }
}

/// At most 60 numbers, kept in place.
#[derive(Drop)]
pub struct Few {
    numbers: [u64; 60],
    count: usize,
}

impl Model for Few {
    ghost use Rattle.std.specs.Prelude.{List, ℕ, take, ◌≤◌};

    ghost Value = { List ℕ };

    ghost view = { λ b. take b.count b.numbers };

    ghost invariant = { λ b. b.count ≤ 60 };
}

impl Few {
    /// The numbers of a slice. Takes no memory.
    pub fn of(numbers: &[u64]) -> Few
        requires { length numbers.now ≤ 60 }
        ensures { result ≡ numbers.now }
    {
        let mut few = [0u64; 60];
        few[..numbers.len()].copy_from_slice(numbers);
        Few {
            numbers: few,
            count: numbers.len(),
        }
    }

    /// The bytes of a slice as numbers. Takes no memory.
    pub fn of_bytes(bytes: &[u8]) -> Few
        requires { length bytes.now ≤ 60 }
        ensures value { result ≡ bytes.now }
        ensures bytes { AreBytes bytes.now }
    {
        let mut few = [0u64; 60];
        for (i, byte) in bytes.iter().enumerate() {
            few[i] = u64::from(*byte);
        }
        Few {
            numbers: few,
            count: bytes.len(),
        }
    }

    pub fn as_slice(&self) -> &[u64]
        ensures value { result.now ≡ self.now }
        ensures room { length self.now ≤ 60 }
    {
        &self.numbers[..self.count]
    }
}

/// What an index stands for: one layer of a tree, with the indices of its parts. A list is one
/// index of a list key, so that every other key has a fixed number of words.
#[derive(Drop)]
pub enum Key {
    /// A type that is one word.
    SimpleType(SimpleTy),
    /// An integer type.
    IntType {
        is_signed: bool,
        bits: u32,
    },
    /// An error set: the list of its names, each itself a list of bytes.
    ErrorSetType {
        names: Index,
    },
    PointerType {
        is_const: bool,
        child: Index,
    },
    SliceType {
        is_const: bool,
        child: Index,
    },
    ArrayType {
        length: u64,
        child: Index,
    },
    /// `[N:0]u8`.
    TerminatedType {
        length: u64,
    },
    OptionalType {
        child: Index,
    },
    ErrorUnionType {
        set: Index,
        payload: Index,
    },
    /// A file as a type: the list of its path's bytes.
    FileType {
        path: Index,
    },
    /// A container: its declaration, its ordinal there, and the list of its captures.
    ContainerType {
        decl: Index,
        ordinal: u32,
        captures: Index,
    },
    /// A function type: the list of its parameters' types, and its result's.
    FunctionType {
        params: Index,
        result: Index,
    },
    /// The own enum of a union.
    UnionTagType {
        union_ty: Index,
    },
    /// A value that is one word.
    SimpleValue {
        ty: Index,
        value: SimpleValue,
    },
    IntValue {
        ty: Index,
        number: i128,
    },
    TagValue {
        ty: Index,
        name: Index,
    },
    ErrorValue {
        ty: Index,
        name: Index,
    },
    SomeValue {
        ty: Index,
        payload: Index,
    },
    GoodValue {
        ty: Index,
        payload: Index,
    },
    /// The list of the parts' values.
    ListValue {
        ty: Index,
        parts: Index,
    },
    /// The list of the bytes.
    TextValue {
        ty: Index,
        bytes: Index,
    },
    TaggedValue {
        ty: Index,
        name: Index,
        payload: Index,
    },
    /// A type as a value.
    TypeValue {
        of: Index,
    },
    FunctionValue {
        decl: Index,
    },
    AddressValue {
        ty: Index,
        decl: Index,
    },
    ConstantValue {
        ty: Index,
        target: Index,
    },
    /// The address of a place in comptime memory.
    PlaceValue {
        ty: Index,
        place: u64,
    },
    /// The address of a part of what another address in comptime memory points to.
    PartValue {
        ty: Index,
        whole: Index,
        part: u64,
        count: u64,
    },
    SliceValue {
        ty: Index,
        pointer: Index,
        low: u64,
        high: u64,
    },
    /// A declaration: its container's type, and the list of its name's bytes.
    NamedDecl {
        container: Index,
        name: Index,
    },
    /// A top-level `comptime` block: the list of its file's path's bytes, and its number.
    ComptimeDecl {
        file: Index,
        number: u32,
    },
    /// An argument that is a value.
    KnownArg {
        value: Index,
    },
    /// An argument that is a function, with its type.
    FunctionArg {
        ty: Index,
        decl: Index,
    },
    /// An argument that is a type alone.
    TypedArg {
        ty: Index,
    },
    /// An instance: its declaration, and the list of its arguments.
    Instance {
        decl: Index,
        args: Index,
    },
    /// A list of at most 60 numbers: indices, or the bytes of a text.
    End(Few),
    /// The first 60 numbers of a longer list, and the list of the others.
    More {
        items: Few,
        rest: Index,
    },
}

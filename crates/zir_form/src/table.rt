// What a file's core tree is kept as: rows that name lines for trees.
use zw_base::{Bytes, Seq};

/// A declaration of a container. Tokens are numbers, places are bytes of the file.
#[derive(Debug, Drop)]
pub struct DeclarationRow {
    /// The keyword of the container that it is a member of, 0 for the file.
    pub container: u32,
    /// The token of its name.
    pub token: u32,
    pub name: Bytes,
    /// Whether other files may use it.
    pub is_pub: bool,
    /// Whether the module exports it.
    pub is_export: bool,
    /// Where its text begins, at `const`, `var` or `fn`.
    pub start: u32,
    /// Where its name begins.
    pub name_start: u32,
    /// The keywords of its containers, by their ordinals.
    pub containers: Seq<u32>,
    /// The line of a function's head.
    pub head: Option<u32>,
    /// The line of its whole text.
    pub whole: u32,
    /// A number made of its text.
    pub fingerprint: u64,
}

/// A container.
#[derive(Debug, Drop)]
pub struct ContainerRow {
    /// Its keyword.
    pub token: u32,
    /// Where that begins.
    pub start: u32,
    /// The line of its fields.
    pub fields: u32,
    /// A number made of its text.
    pub fingerprint: u64,
}

/// A block of the file that is evaluated at comptime.
#[derive(Debug, Drop)]
pub struct BlockRow {
    /// The word `comptime`.
    pub token: u32,
    /// Where the block begins, at its brace.
    pub start: u32,
    /// Where the word begins.
    pub word_start: u32,
    /// The keywords of its containers, by their ordinals.
    pub containers: Seq<u32>,
    /// Its line.
    pub line: u32,
    /// A number made of its text.
    pub fingerprint: u64,
}

/// An `@import` of a string.
#[derive(Debug, Drop)]
pub struct ImportRow {
    /// Where it begins.
    pub start: u32,
    /// The path that it names.
    pub path: Bytes,
}
